// The conditions A, B and C on a map, and whether there is a start state.
ghost use Rattle.std.specs.Prelude.{◌≡◌, cond, ◌+◌, ◌*◌, ◌^◌, ◌<◌, ◌≤◌, length, Some, None};
ghost use Rattle.meaning.specs.working.Conditions.{test_void, test_a, test_b, test_c, words_stay, closed_at};
ghost use Rattle.evaluation.specs.working.CodeSystem.{starts_in, breaks_in, next_in, stars_in};
ghost use Rattle.sheets.specs.working.FlatSystem.{system_at};
ghost use Rattle.conditions.specs.working.Judging.{map_answer};

use crate::outcome::Outcome;
use evaluation::lanes::{fill, first_rows, pick};
use evaluation::numbers::power;
use evaluation::one_row::OneRow;
use sheets::fields::in_map;

// A: whether every start state is a member, if there is a start state.
#[tactic(auto, using(evaluation::proofs::Powers::pow_small, crate::proofs::Loops::every_none, crate::proofs::Loops::every_more), unfolding(meaning::specs::working::Conditions::test_void, meaning::specs::working::Conditions::test_a, meaning::specs::working::Conditions::implies))]
fn holds_a(map: &[u8], table: &OneRow) -> Option<bool>
    requires { 2 ^ table.now.plan.bits ≤ 8 * length map.now }
    ensures { result ≡ cond (test_void (2 ^ table.now.plan.bits) (starts_in table.now.ops.now table.now.plan.ends)) None (Some (test_a (2 ^ table.now.plan.bits) (starts_in table.now.ops.now table.now.plan.ends) map.now)) }
{
    let mut found = None;
    'states: for s in 0..power(table.plan.bits) {
        if table.starts(s) {
            if !in_map(map, s) {
                return Some(false);
            }
            found = Some(true);
        }
    }
    found
}

// B: no member violates `keep`.
fn holds_b(map: &[u8], table: &OneRow) -> bool
    requires { 2 ^ table.now.plan.bits ≤ 8 * length map.now }
    ensures { result ≡ test_b (2 ^ table.now.plan.bits) (breaks_in table.now.ops.now table.now.plan.ends) map.now }
{
    (0..power(table.plan.bits)).all(|s| !in_map(map, s) || !table.breaks(s))
}

// Whether command k leads from s to members under all of its words.
#[tactic(auto, using(evaluation::proofs::Powers::pow_small))]
fn words_stay(map: &[u8], table: &OneRow, s: usize, k: usize) -> bool
    requires { (2 ^ table.now.plan.bits ≤ 8 * length map.now) × (s < 2 ^ table.now.plan.bits) × (k < table.now.plan.commands) }
    ensures { result ≡ words_stay (next_in table.now.ops.now table.now.plan.ends table.now.plan.bits) map.now s k (2 ^ stars_in table.now.plan.stars k) }
{
    let code = table.segment(4 + k);
    let state = s as u32;
    let ops = table.ops;
    let mut rows = first_rows(ops, code.from, code.to, state, table.plan.bits);
    'words: for word in 0..table.word_count(k) as u32 {
        fill(
            &mut rows,
            ops,
            code.from,
            code.to,
            state,
            table.plan.bits,
            word,
        );
        let after = pick(&rows, word % 64) as usize;
        if !in_map(map, after) {
            return false;
        }
    }
    true
}

// Whether all commands under all words lead from s to members.
fn closed_at(map: &[u8], table: &OneRow, s: usize) -> bool
    requires { (2 ^ table.now.plan.bits ≤ 8 * length map.now) × (s < 2 ^ table.now.plan.bits) }
    ensures { result ≡ closed_at table.now.plan.commands (stars_in table.now.plan.stars) (next_in table.now.ops.now table.now.plan.ends table.now.plan.bits) map.now s }
{
    (0..table.plan.commands).all(|k| words_stay(map, table, s, k))
}

// C: no step leads out of the map.
fn holds_c(map: &[u8], table: &OneRow) -> bool
    requires { 2 ^ table.now.plan.bits ≤ 8 * length map.now }
    ensures { result ≡ test_c (2 ^ table.now.plan.bits) table.now.plan.commands (stars_in table.now.plan.stars) (next_in table.now.ops.now table.now.plan.ends table.now.plan.bits) map.now }
{
    (0..power(table.plan.bits)).all(|s| !in_map(map, s) || closed_at(map, table, s))
}

// The outcome for a map: the first of the three that fails, if one does, and else void where there is no start state.
#[tactic(auto, using(crate::proofs::Loops::void_a), unfolding(crate::specs::working::Judging::map_answer, crate::specs::working::Judging::passed_answer))]
pub fn test_map(map: &[u8], table: &OneRow) -> Outcome
    requires { 2 ^ table.now.plan.bits ≤ 8 * length map.now }
    ensures { result ≡ map_answer (system_at table.now) map.now }
{
    let starts_inside = holds_a(map, table);
    if starts_inside == Some(false) {
        return Outcome::FailsA;
    }
    if !holds_b(map, table) {
        return Outcome::FailsB;
    }
    if !holds_c(map, table) {
        return Outcome::FailsC;
    }
    if starts_inside.is_none() {
        return Outcome::Void;
    }
    Outcome::SafeHolds
}
