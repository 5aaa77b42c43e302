// Whether a table of parents, which may hold anything, records a run: tested state by state, from the last one back.
ghost use Rattle.std.specs.Prelude.{◌≡◌, ◌^◌, ◌<◌, ◌≤◌, length, take};
ghost use Rattle.exploration.specs.working.CodeTransitions.{transitions_at};
ghost use Rattle.exploration.specs.working.Pauses.{records_to};

use crate::traces::move_to;
use evaluation::one_row::OneRow;

// Whether the table records a run to t that has fewer steps than there are states.
pub fn is_recorded(table: &OneRow, states: usize, parent: &[u16], t: u16) -> bool
    requires { (states ≡ 2 ^ table.now.plan.bits) × (states ≤ length parent.now) × (t < states) }
    ensures { result ≡ records_to (transitions_at table.now) (take states parent.now) states t }
{
    let mut s = t;
    'back: for _ in 0..states {
        let at = s as usize;
        let Some(before) = parent[at].checked_sub(1) else {
            return false;
        };
        if before == s {
            return table.starts(at);
        }
        if states <= before as usize {
            return false;
        }
        if move_to(table, before, s).is_none() {
            return false;
        }
        s = before;
    }
    false
}
