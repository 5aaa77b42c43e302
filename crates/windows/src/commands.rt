// How often each command occurs in the steps of a trace.
ghost use Rattle.std.specs.Prelude.{◌≡◌, ◌+◌, ◌-◌, ◌*◌, ◌<◌, ◌≤◌, length, get_or};
ghost use Rattle.windows.specs.working.Sliding.{counted_of};
ghost use Rattle.traces.specs.working.Passing.{header};
ghost use Rattle.windows.specs.Bursts.{counts_of};
ghost use Rattle.windows.specs.working.Surveying.{step_at, commands_at};

use crate::record::{Counts, Step};
use sheets::fields::{HEADER, two_at, wide};

// Step i of the trace in a sheet, from 0. Behind the header stand a start state of 8 bytes and steps of 10, each with its numbers behind 6 bytes.
#[tactic(auto, unfolding(crate::specs::working::Surveying::step_at))]
pub fn step_at(sheet: &[u8], i: usize) -> Step
    requires { (i < 6552) × (27 + 10 * i ≤ length sheet.now) }
    ensures { result ≡ step_at header sheet.now i }
{
    let at = HEADER + 8 + 10 * i;
    let after = two_at(sheet, at + 8);
    Step {
        command: sheet[at + 6],
        word: sheet[at + 7],
        after: after as u16,
    }
}

// The counts with one more of a command.
#[tactic(auto, using(crate::proofs::EachCounted::counted_out), unfolding(crate::specs::working::Sliding::counted_of))]
fn count_one(counts: &mut Counts, k: usize)
    requires { get_or counts.old k 0 < 65535 }
    ensures { counts.new ≡ counted_of counts.old k }
{
    if k < 16 {
        counts[k] += 1;
    }
}

// How often each command occurs in the first n steps of the trace in a sheet.
#[tactic(auto, using(crate::proofs::EachCounted::none_counted, crate::proofs::EachCounted::count_few, crate::proofs::EachCounted::count_next))]
pub fn count_each(sheet: &[u8], n: usize) -> Counts
    requires { (n ≤ 6551) × (10 * n ≤ length sheet.now - 17) }
    ensures { result ≡ counts_of (commands_at header sheet.now n) }
{
    let mut counts = [0u16; 16];
    for i in 0..n {
        let step = step_at(sheet, i);
        count_one(&mut counts, wide(step.command));
    }
    counts
}
