// The search over the table of one row, state by state in the order in which they are met.
// One table is the queue of the states met; the other has for each of them the number of the state it was met from, plus 1.
ghost use Rattle.std.specs.Prelude.{◌≡◌, ◌^◌, ◌≤◌, length};
ghost use Rattle.exploration.specs.working.CodeTransitions.{transitions_at, ExploredIn};
ghost use Rattle.exploration.specs.working.Tables.{Ready, Took, Began, Ran};

use evaluation::lanes::{fill, first_rows, pick};
use evaluation::one_row::OneRow;
use writing::tables::clear;

// How many states were met, whether the last of them violates `keep`, how far the queue was gone through, and how many trials were made: one for each command with each choice word at each state.
#[derive(Clone, Copy)]
pub struct Reach {
    pub count: usize,
    pub found: bool,
    pub head: usize,
    pub trials: usize,
}

// Takes the start states into the queue in ascending order, up to the first that violates `keep`.
fn take_in(table: &OneRow, states: usize, queue: &mut [u16], parent: &mut [u16]) -> Reach
    requires { (states ≡ 2 ^ table.now.plan.bits) × Ready (transitions_at table.now) queue.old 0 parent.old }
    ensures took { Took (transitions_at table.now) queue.old parent.old queue.new result.count parent.new result.found }
    ensures head_value { (result.head ≡ 0) × (result.trials ≡ 0) }
{
    let mut count: usize = 0;
    let mut found = false;
    'states: for s in 0..states {
        if table.starts(s) {
            parent[s] = (s + 1) as u16;
            queue[count] = s as u16;
            count += 1;
            if table.breaks(s) {
                found = true;
                break 'states;
            }
        }
    }
    Reach {
        count,
        found,
        head: 0,
        trials: 0,
    }
}

// Goes through the queue from a place on, for so many states at most: every command under every word, 64 words at a time, from each state in turn.
// A state that is met for the first time goes to the queue's end; the first that violates `keep` ends the search.
// Trials are counted a command at a time, and up to the word that ends the search: a count for each word would be made in the hottest loop.
pub fn explore(
    table: &OneRow,
    queue: &mut [u16],
    parent: &mut [u16],
    taken: usize,
    start: usize,
    most: usize,
) -> Reach
    requires { Ready (transitions_at table.now) queue.old taken parent.old }
    ensures { ExploredIn table.now.ops.now table.now.plan start most queue.old taken parent.old queue.new result.count parent.new result.found result.head result.trials }
{
    let ops = table.ops;
    let commands = table.plan.commands;
    let bits = table.plan.bits;
    let mut count = taken;
    let mut found = false;
    let mut trials: usize = 0;
    let mut head = start;
    'search: for _ in 0..most {
        if count <= head {
            break 'search;
        }
        let s = queue[head];
        let state = s as u32;
        'commands: for k in 0..commands {
            let code = table.segment(4 + k);
            let words = table.word_count(k);
            let mut rows = first_rows(ops, code.from, code.to, state, bits);
            'words: for w in 0..words {
                let word = w as u32;
                fill(&mut rows, ops, code.from, code.to, state, bits, word);
                let t = pick(&rows, word % 64) as u16;
                let at = t as usize;
                if parent[at] == 0 {
                    parent[at] = s + 1;
                    queue[count] = t;
                    count += 1;
                    if table.breaks(at) {
                        trials += w + 1;
                        found = true;
                        break 'search;
                    }
                }
            }
            trials += words;
        }
        head += 1;
    }
    Reach {
        count,
        found,
        head,
        trials,
    }
}

// The start states, on tables that may hold anything.
pub fn begin(table: &OneRow, states: usize, queue: &mut [u16], parent: &mut [u16]) -> Reach
    requires { (states ≡ 2 ^ table.now.plan.bits) × (states ≤ length queue.old) × (states ≤ length parent.old) }
    ensures began { Began (transitions_at table.now) queue.old parent.old queue.new result.count parent.new result.found }
    ensures head_value { (result.head ≡ 0) × (result.trials ≡ 0) }
{
    clear(parent, states);
    take_in(table, states, queue, parent)
}

// The whole search, on tables that may hold anything: the start states, and one portion of all states.
pub fn run(table: &OneRow, states: usize, queue: &mut [u16], parent: &mut [u16]) -> Reach
    requires { (states ≡ 2 ^ table.now.plan.bits) × (states ≤ length queue.old) × (states ≤ length parent.old) }
    ensures { Ran (transitions_at table.now) queue.old parent.old queue.new result.count parent.new result.found result.trials }
{
    let x = begin(table, states, queue, parent);
    if x.found {
        return x;
    }
    explore(table, queue, parent, x.count, 0, states)
}
