// The lines that tell the counts of a map.
ghost use Rattle.std.specs.Prelude.{◌^◌, ◌≤◌, length};
ghost use Rattle.lines.specs.Writers.{HasRoom, Writes};
ghost use Rattle.counting.specs.CountLines.{setting_line, count_lines};
ghost use Rattle.counting.specs.working.Counting.{table_lines, Countable};

use crate::members::{count_members, count_settings};
use evaluation::numbers::power;
use lines::Writer;

// `at`, a setting and how many have it.
#[tactic(auto, unfolding(notation::specs::Bytes::bytes))]
fn put_setting(out: &mut Writer, setting: usize, n: usize)
    requires { HasRoom out.old (setting_line setting n) }
    ensures { Writes out.old (setting_line setting n) out.new }
{
    out.put_numbers_line(b"at", setting, n);
}

// A line for each setting that occurs.
fn put_settings(out: &mut Writer, counts: &[u16])
    requires { HasRoom out.old (table_lines counts.now (length counts.now)) }
    ensures { Writes out.old (table_lines counts.now (length counts.now)) out.new }
{
    'settings: for (j, x) in counts.iter().enumerate() {
        let n = usize::from(*x);
        if 0 < n {
            put_setting(out, j, n);
        }
    }
}

// The lines of a map. Its states have so many bits, the lowest of them those of the shared names.
pub fn put_count_lines(out: &mut Writer, map: &[u8], bits: usize, shared: usize)
    requires { Countable bits shared map.now × HasRoom out.old (count_lines (2 ^ bits) (2 ^ shared) map.now) }
    ensures { Writes out.old (count_lines (2 ^ bits) (2 ^ shared) map.now) out.new }
{
    let settings = power(shared);
    let total = count_members(map);
    out.put_number_line(b"states", total);
    let counts = count_settings(map, power(bits), settings);
    put_settings(out, &counts[..settings]);
}
