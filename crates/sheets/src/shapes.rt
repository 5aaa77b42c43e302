// A sheet's bytes: whether they are refused with 9 or 10, and if not, which kind of sheet they are.
ghost use Rattle.std.specs.Prelude.{◌≡◌, ◌+◌, ◌<◌, ◌≤◌, length};
ghost use Rattle.evaluation.specs.working.CodeSystem.{stars_in, Sound};
ghost use Rattle.sheets.specs.Sheets.{map_length};
ghost use Rattle.sheets.specs.SheetTexts.{is_record, same_counts, unused_clear, step_in, step_fits};
ghost use Rattle.sheets.specs.working.SheetReading.{map_at, trace_at, body_at, counts_in, sheet_by};
ghost use Rattle.sheets.specs.working.Shapes.{shape_of};

use crate::fields::{HEADER, map_length, step_count, two_at};
use evaluation::numbers::power;
use evaluation::one_row::{OneRow, word_count};
use evaluation::plan::Plan;
use refusals::{Reason, Refusal};

// The most bytes that a sheet may have.
const MAX_SHEET: usize = 65536;

// The kinds of sheets.
#[derive(Clone, Copy, Debug, PartialEq, Eq)]
pub enum Shape {
    Map,
    Trace,
}

// Whether a record of this kind, with n bytes of payload, stands whole at p.
#[tactic(auto, unfolding(crate::specs::SheetTexts::is_record, crate::specs::SheetTexts::four_at))]
fn is_record(b: &[u8], p: usize, kind: usize, n: usize) -> bool
    requires { (p ≤ 65536) × (n ≤ 65536) }
    ensures { result ≡ is_record b.now p kind n }
{
    p + 6 + n <= b.len() && two_at(b, p) + 65536 * two_at(b, p + 2) == n && two_at(b, p + 4) == kind
}

// Whether the header's counts are these.
#[tactic(auto, unfolding(crate::specs::SheetTexts::same_counts))]
fn same_counts(b: &[u8], plan: &Plan) -> bool
    requires { 9 ≤ length b.now }
    ensures { result ≡ same_counts (counts_in plan.now) b.now 6 }
{
    usize::from(b[6]) == plan.shared
        && usize::from(b[7]) == plan.row
        && usize::from(b[8]) == plan.commands
}

// Whether the bits of a map's first byte that no state uses are 0.
#[tactic(auto, unfolding(crate::specs::SheetTexts::unused_clear))]
fn unused_clear(states: usize, byte: u8) -> bool
    ensures { result ≡ unused_clear states byte }
{
    8 <= states || usize::from(byte) < power(states)
}

// The sheet from its map on, whose record stands at p with n bytes of payload.
#[tactic(auto, unfolding(crate::proofs::SheetLaws::shaping))]
fn map_shape(b: &[u8], states: usize, p: usize, n: usize) -> Result<Shape, Refusal>
    requires { (n ≡ map_length states) × (p + 6 + n ≤ length b.now) × (1 ≤ n) }
    ensures { result ≡ shape_of (map_at states b.now p) }
{
    if !unused_clear(states, b[p + 6]) {
        return Err(Reason::Malformed.at(p));
    }
    let end = p + 6 + n;
    if b.len() != end {
        return Err(Reason::Malformed.at(end));
    }
    Ok(Shape::Map)
}

// Whether the numbers of the step whose payload stands at p are in range.
#[tactic(auto, unfolding(crate::specs::SheetTexts::step_fits, crate::specs::SheetTexts::step_in))]
fn step_fits(b: &[u8], states: usize, plan: &Plan, p: usize) -> bool
    requires { (p + 4 ≤ length b.now) × Sound plan.now }
    ensures { result ≡ step_fits states plan.now.commands (stars_in plan.now.stars) (step_in b.now p) }
{
    let command = usize::from(b[p]);
    command < plan.commands
        && usize::from(b[p + 1]) < word_count(plan, command)
        && two_at(b, p + 2) < states
}

// The sheet from its start state on, whose record stands at p.
#[tactic(auto, using(crate::proofs::SheetLaws::record_fits), unfolding(crate::proofs::SheetLaws::shaping))]
fn trace_shape(b: &[u8], states: usize, plan: &Plan, p: usize) -> Result<Shape, Refusal>
    requires { (p + 8 ≤ length b.now) × (length b.now ≤ 65536) × Sound plan.now }
    ensures { result ≡ shape_of (trace_at states plan.now.commands (stars_in plan.now.stars) b.now p) }
{
    if states <= two_at(b, p + 6) {
        return Err(Reason::OutOfRange.at(p));
    }
    for i in 0..step_count(b, p + 8) {
        let at = p + 8 + 10 * i;
        if !is_record(b, at, 4, 4) {
            return Err(Reason::Malformed.at(at));
        }
        if !step_fits(b, states, plan, at + 6) {
            return Err(Reason::OutOfRange.at(at));
        }
    }
    Ok(Shape::Trace)
}

// The sheet from its second record on, which stands at p.
#[tactic(auto, using(crate::proofs::SheetLaws::record_fits), unfolding(crate::proofs::SheetLaws::shaping, crate::specs::Sheets::map_length))]
fn body_shape(b: &[u8], states: usize, plan: &Plan, p: usize) -> Result<Shape, Refusal>
    requires { (length b.now ≤ 65536) × (p ≤ 65536) × (states ≤ 4096) × Sound plan.now }
    ensures { result ≡ shape_of (body_at states plan.now.commands (stars_in plan.now.stars) b.now p) }
{
    let n = map_length(states);
    if is_record(b, p, 2, n) {
        return map_shape(b, states, p, n);
    }
    if is_record(b, p, 3, 2) {
        return trace_shape(b, states, plan, p);
    }
    Err(Reason::Malformed.at(p))
}

// The whole first pass over a sheet.
#[tactic(auto, using(crate::proofs::SheetLaws::record_fits, evaluation::proofs::Powers::pow_small), unfolding(crate::proofs::SheetLaws::shaping))]
pub fn shape_by(b: &[u8], plan: &Plan) -> Result<Shape, Refusal>
    requires { Sound plan.now }
    ensures { result ≡ shape_of (sheet_by plan.now b.now) }
{
    if MAX_SHEET < b.len() {
        return Err(Reason::Malformed.at(MAX_SHEET));
    }
    if !is_record(b, 0, 1, 3) {
        return Err(Reason::Malformed.at(0));
    }
    if !same_counts(b, plan) {
        return Err(Reason::OutOfRange.at(0));
    }
    body_shape(b, power(plan.bits), plan, HEADER)
}

// So it is for a table of one row, whose plan is sound.
pub fn shape_of(b: &[u8], table: &OneRow) -> Result<Shape, Refusal>
    ensures { result ≡ shape_of (sheet_by table.now.plan b.now) }
{
    shape_by(b, &table.plan)
}
