// The conditions D, E and F on a trace, whose start record stands in the sheet at p.
ghost use Rattle.std.specs.Prelude.{◌≡◌, ◌^◌, ◌≤◌, length};
ghost use Rattle.evaluation.specs.working.CodeSystem.{stars_in};
ghost use Rattle.sheets.specs.working.SheetReading.{TraceStands};
ghost use Rattle.sheets.specs.working.FlatSystem.{system_at};
ghost use Rattle.conditions.specs.working.Judging.{trace_from};

use crate::outcome::Outcome;
use evaluation::one_row::OneRow;
use sheets::fields::{step_count, two_at};

// The outcome for a trace: the first of the three that fails, if one does.
#[tactic(auto, using(sheets::proofs::SheetLaws::record_fits, crate::proofs::TraceLaws::stood_room, crate::proofs::TraceLaws::stood_command, crate::proofs::TraceLaws::stood_after, evaluation::proofs::Powers::pow_small), unfolding(crate::specs::working::Judging::trace_answer, crate::specs::working::Judging::walk))]
pub fn test_trace(b: &[u8], p: usize, table: &OneRow) -> Outcome
    requires { (length b.now ≤ 65536) × TraceStands (2 ^ table.now.plan.bits) table.now.plan.commands (stars_in table.now.plan.stars) b.now p }
    ensures { result ≡ trace_from (system_at table.now) b.now p }
{
    let first = two_at(b, p + 6);
    if !table.starts(first) {
        return Outcome::FailsD;
    }
    let mut s = first;
    'steps: for i in 0..step_count(b, p + 8) {
        let x = p + 14 + 10 * i;
        let after = two_at(b, x + 2);
        if after != table.step(s, usize::from(b[x]), usize::from(b[x + 1])) {
            return Outcome::FailsE;
        }
        s = after;
    }
    if table.breaks(s) {
        Outcome::TraceHolds
    } else {
        Outcome::FailsF
    }
}
