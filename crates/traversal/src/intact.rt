// Whether the search can go on from a position and two tables. They come from outside and may hold anything, so every call judges them anew.
ghost use Rattle.std.specs.Prelude.{◌≡◌, ◌≤◌, count_by, length, ltb};
ghost use Rattle.std.specs.List.{list_all};
ghost use Rattle.exploration.specs.working.Pauses.{intact};

use crate::exploring::Reach;

// More trials than any search makes.
const TRIALS: usize = 33554432;

// How many entries are not 0.
fn count_marked(table: &[u16]) -> usize
    ensures { result ≡ count_by (ltb 0) table.now }
{
    table.iter().filter(|entry| 0 < **entry).count()
}

// Whether all entries are numbers of states.
fn all_states(table: &[u16], states: usize) -> bool
    ensures { result ≡ list_all (λ s. ltb s states) table.now }
{
    table.iter().all(|s| usize::from(*s) < states)
}

// A search that met more states than it marked, or fewer, or that has something else than states in its queue, never stood so.
pub fn can_go_on(reach: Reach, states: usize, queue: &[u16], parent: &[u16]) -> bool
    requires { (states ≤ length queue.now) × (states ≤ length parent.now) }
    ensures { result ≡ intact states (record { expanded = reach.head; met = reach.count; broke = reach.found; trials = reach.trials }) queue.now parent.now }
{
    if TRIALS < reach.trials || reach.count < reach.head {
        return false;
    }
    if count_marked(&parent[..states]) != reach.count {
        return false;
    }
    all_states(&queue[..reach.count], states)
}
