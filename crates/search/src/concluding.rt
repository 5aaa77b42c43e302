// What a search that has come to its end leaves: its sheet, both tables cleared, and the answer.
ghost use Rattle.std.specs.Prelude.{◌≡◌, ◌^◌, ◌≤◌, length, Ok};
ghost use Rattle.exploration.specs.working.CodeTransitions.{transitions_at};
ghost use Rattle.exploration.specs.working.Written.{Closing};
ghost use Rattle.sheets.specs.Sheets.{sheet_room};
ghost use Rattle.sheets.specs.working.FlatSystem.{system_at};
ghost use Rattle.verdicts.specs.Left.{zeroed};
ghost use Rattle.verdicts.specs.working.Searching.{found_by};
ghost use Rattle.search.specs.working.Ends.{EndsWith, concludes};

use evaluation::one_row::OneRow;
use sheets::fields::{HEADER, map_length};
use tracing::traces::write_trace;
use traversal::exploring::{Reach, run};
use verdicts::finding::Finding;
use writing::maps::write_map;
use writing::records::{put_head, put_header};
use writing::tables::clear;

// The entries of states are made 0 in both tables.
fn clear_tables(first: &mut [u16], second: &mut [u16], states: usize)
    requires { (states ≤ length first.old) × (states ≤ length second.old) }
    ensures { (first.new ≡ zeroed states first.old) × (second.new ≡ zeroed states second.old) }
{
    clear(first, states);
    clear(second, states);
}

// The trace of the recorded run to the last state met, if that violates `keep`; else the map of the states met.
pub fn conclude(
    table: &OneRow,
    states: usize,
    reach: Reach,
    first: &mut [u16],
    second: &mut [u16],
    sheet: &mut [u8],
) -> Finding
    requires { (states ≡ 2 ^ table.now.plan.bits) × Closing (transitions_at table.now) first.old reach.count second.old reach.found × (sheet_room (system_at table.now) ≤ length sheet.old) }
    ensures { EndsWith (concludes table.now.ops.now table.now.plan reach) (Ok result) first second sheet }
{
    put_header(
        sheet,
        table.plan.shared,
        table.plan.row,
        table.plan.commands,
    );
    if reach.found {
        let t = first[reach.count - 1];
        let length = write_trace(table, second, t, HEADER, sheet);
        clear_tables(first, second, states);
        return Finding::Unsafe { length };
    }
    let n = map_length(states);
    put_head(sheet, HEADER, n, 2);
    let at = HEADER + 6;
    write_map(states, second, n, at, sheet);
    clear_tables(first, second, states);
    let length = at + n;
    if reach.count == 0 {
        return Finding::Void { length };
    }
    Finding::Safe {
        length,
        trials: reach.trials,
    }
}

// The search over the flat form of a model, where every lent buffer has room.
pub fn search_roomy(
    table: &OneRow,
    states: usize,
    first: &mut [u16],
    second: &mut [u16],
    sheet: &mut [u8],
) -> Finding
    requires { (states ≡ 2 ^ table.now.plan.bits) × (states ≤ length first.old) × (states ≤ length second.old) × (sheet_room (system_at table.now) ≤ length sheet.old) }
    ensures { EndsWith (found_by (system_at table.now)) (Ok result) first second sheet }
{
    let reach = run(table, states, first, second);
    conclude(table, states, reach, first, second, sheet)
}
