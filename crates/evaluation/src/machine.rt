// The machine that runs code words with one choice word: values and masks are stacks of bits, the top in bit 0.
// Its loops go over the code once, with one pass to a code word, and count their passes.
ghost use Rattle.std.specs.Prelude.{◌≡◌, ◌<◌};
ghost use Rattle.evaluation.specs.working.CodeMachine.{node_of, step_of, run_of, start_of, value_of, passes_of};
ghost use Rattle.meaning.specs.working.Digits.{put};

use crate::kinds::{BOTH, CHOOSE, DONE, EITHER, LOAD, NEGATE, OTHERWISE, PUSH, STORE, WHEN};

#[derive(Clone, Copy)]
struct Machine {
    stack: u64,
    mask: u32,
    state: u32,
}

// The value of an expression, 0 or 1, and the passes that it took.
#[derive(Clone, Copy)]
pub struct Valued {
    pub value: u32,
    pub passes: usize,
}

// The state after a command, and the passes that it took.
#[derive(Clone, Copy)]
pub struct Ran {
    pub state: u32,
    pub passes: usize,
}

// s with bit j set to v.
#[tactic(auto, using(crate::proofs::MachineBits::put_bits))]
fn put_bit(s: u32, j: u32, v: u32) -> u32
    requires { (j < 32) × (v < 2) }
    ensures { result ≡ put s j v }
{
    (s & !(1 << j)) | (v << j)
}

// The values after a node of an expression: kind op / 32, argument op % 32. The bits are joined by sums and halves. Code words that are no node leave the values.
#[tactic(auto, using(crate::proofs::MachineBits::and_lowest, crate::proofs::MachineBits::or_lowest, crate::proofs::MachineBits::xor_one), unfolding(crate::specs::working::CodeMachine::node_kind))]
fn node(st: u64, op: u16, state: u32, word: u32) -> u64
    ensures { result ≡ node_of op word state st }
{
    let j = (op % 32) as u32;
    match op / 32 {
        PUSH => (st << 1) + (j % 2) as u64,
        LOAD => (st << 1) + ((state >> j) % 2) as u64,
        CHOOSE => (st << 1) + ((word >> j) % 2) as u64,
        NEGATE => st ^ 1,
        BOTH => st / 4 * 2 + (st & (st / 2)) % 2,
        EITHER => st / 4 * 2 + (st | (st / 2)) % 2,
        _ => st,
    }
}

// The value of an expression's code: one pass to a node.
pub fn value(code: &[u16], state: u32, word: u32) -> Valued
    ensures value_value { result.value ≡ value_of code.now word state }
    ensures passes { result.passes ≡ passes_of code.now }
{
    let mut stack: u64 = 0;
    let mut passes: usize = 0;
    'nodes: for op in code {
        stack = node(stack, *op, state, word);
        passes += 1;
    }
    Valued {
        value: (stack % 2) as u32,
        passes,
    }
}

// One code word of a command: kind op / 32, argument op % 32. A node changes the values alone.
#[tactic(auto, using(crate::proofs::MachineBits::and_lowest, crate::proofs::MachineBits::and_bit), unfolding(crate::specs::working::CodeMachine::kind_of))]
fn step(m: Machine, op: u16, word: u32) -> Machine
    ensures { result ≡ step_of op word m }
{
    let st = m.stack;
    let on = m.mask;
    let j = (op % 32) as u32;
    match op / 32 {
        STORE => {
            let state = if on % 2 == 0 {
                m.state
            } else {
                put_bit(m.state, j, (st % 2) as u32)
            };
            Machine {
                stack: st / 2,
                state,
                ..m
            }
        }
        WHEN => Machine {
            stack: st / 2,
            mask: (on << 1) + (on & (st % 2) as u32),
            ..m
        },
        OTHERWISE => Machine {
            mask: on / 2 * 2 + (on / 2 & !on) % 2,
            ..m
        },
        DONE => Machine { mask: on / 2, ..m },
        _ => Machine {
            stack: node(st, op, m.state, word),
            ..m
        },
    }
}

// The state after a command's code: one pass to a code word.
pub fn run(code: &[u16], state: u32, word: u32) -> Ran
    ensures state_value { result.state ≡ (run_of code.now word (start_of state)).state }
    ensures passes { result.passes ≡ passes_of code.now }
{
    let mut m = Machine {
        stack: 0,
        mask: 1,
        state,
    };
    let mut passes: usize = 0;
    'words: for op in code {
        m = step(m, *op, word);
        passes += 1;
    }
    Ran {
        state: m.state,
        passes,
    }
}
