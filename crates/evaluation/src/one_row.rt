// The table of one row, computed from a model's code: start states, states that violate `keep`, and steps.
ghost use Rattle.std.specs.Prelude.{◌≡◌, ◌+◌, ◌^◌, ◌<◌, ◌≤◌};
ghost use Rattle.evaluation.specs.working.CodeSystem.{holds_in, clause_in, starts_in, breaks_in, next_in, stars_in, Sound, Bounds};

use crate::machine::{run, value};
use crate::numbers::power;
use crate::plan::Plan;

// Where the code words of a segment stand: from `from` on, up to `to`.
#[derive(Clone, Copy)]
pub struct Span {
    pub from: usize,
    pub to: usize,
}

// Segment i of the code that a plan is about.
#[tactic(auto, using(crate::proofs::OneRowCode::begin_later, crate::proofs::OneRowCode::begin_first))]
pub fn segment(plan: &Plan, i: usize) -> Span
    requires { (i < 4 + plan.now.commands) × Sound plan.now }
    ensures { Bounds plan.now.ends i result.from result.to }
{
    let from = if i == 0 {
        0
    } else {
        usize::from(plan.ends[i - 1])
    };
    Span {
        from,
        to: usize::from(plan.ends[i]),
    }
}

// How many choice words command k of a plan has.
pub fn word_count(plan: &Plan, k: usize) -> usize
    requires { (k < plan.now.commands) × Sound plan.now }
    ensures { (result ≡ 2 ^ stars_in plan.now.stars k) × (result ≤ 256) }
{
    power(usize::from(plan.stars[k]))
}

// A model's code words, and where they stand.
#[derive(Clone, Copy)]
pub struct OneRow<'a> {
    pub ops: &'a [u16; 2048],
    pub plan: Plan,
    pub ghost sound: { Sound plan },
}

impl OneRow<'_> {
    // Segment i of the code.
    pub fn segment(&self, i: usize) -> Span
        requires { i < 4 + self.now.plan.commands }
        ensures { Bounds self.now.plan.ends i result.from result.to }
    {
        segment(&self.plan, i)
    }

    // How many choice words command k has.
    pub fn word_count(&self, k: usize) -> usize
        requires { k < self.now.plan.commands }
        ensures { (result ≡ 2 ^ stars_in self.now.plan.stars k) × (result ≤ 256) }
    {
        word_count(&self.plan, k)
    }

    // Whether the expression whose code is segment i holds in a state.
    #[tactic(auto, using(crate::proofs::OneRowCode::lent), unfolding(crate::specs::working::CodeSystem::holds_in))]
    fn holds(&self, i: usize, s: usize) -> bool
        requires { (i < 4) × (s < 4096) }
        ensures { result ≡ holds_in self.now.ops.now self.now.plan.ends i s }
    {
        let Span { from, to } = self.segment(i);
        let ops = self.ops;
        value(&ops[from..to], s as u32, 0).value == 1
    }

    // Whether both expressions of a clause hold in a state, whose code is the segments i and i + 1.
    #[tactic(auto, unfolding(crate::specs::working::CodeSystem::clause_in))]
    fn clause_holds(&self, i: usize, s: usize) -> bool
        requires { (i < 3) × (s < 4096) }
        ensures { result ≡ clause_in self.now.ops.now self.now.plan.ends i s }
    {
        self.holds(i, s) && self.holds(i + 1, s)
    }

    // Whether s is a start state.
    #[tactic(auto, unfolding(crate::specs::working::CodeSystem::starts_in))]
    pub fn starts(&self, s: usize) -> bool
        requires { s < 4096 }
        ensures { result ≡ starts_in self.now.ops.now self.now.plan.ends s }
    {
        self.clause_holds(0, s)
    }

    // Whether s violates `keep`.
    #[tactic(auto, unfolding(crate::specs::working::CodeSystem::breaks_in))]
    pub fn breaks(&self, s: usize) -> bool
        requires { s < 4096 }
        ensures { result ≡ breaks_in self.now.ops.now self.now.plan.ends s }
    {
        !self.clause_holds(2, s)
    }

    // The state after command k under the word w.
    #[tactic(auto, using(crate::proofs::OneRowCode::lent), unfolding(crate::specs::working::CodeSystem::next_in, crate::specs::working::Batches::after_of))]
    pub fn step(&self, s: usize, k: usize, w: usize) -> usize
        requires { (s < 4096) × (k < self.now.plan.commands) × (w < 256) }
        ensures { result ≡ next_in self.now.ops.now self.now.plan.ends self.now.plan.bits s k w }
    {
        let Span { from, to } = self.segment(4 + k);
        let ops = self.ops;
        let after = run(&ops[from..to], s as u32, w as u32);
        after.state as usize % power(self.plan.bits)
    }
}
