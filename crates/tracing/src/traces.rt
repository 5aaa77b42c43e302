// The trace of the run that the tables record, found again from its last state back to its first.
ghost use Rattle.std.specs.Prelude.{◌≡◌, ◌+◌, ◌*◌, ◌^◌, ◌<◌, ◌≤◌, length, option_map};
ghost use Rattle.exploration.specs.working.CodeTransitions.{transitions_at};
ghost use Rattle.exploration.specs.working.Transitions.{moves, move_of};
ghost use Rattle.exploration.specs.working.Runs.{first_move, move_to};
ghost use Rattle.exploration.specs.working.Written.{RecordedIn, TraceStored};

use evaluation::lanes::{fill, first_rows, pick};
use evaluation::one_row::OneRow;
use writing::records::{put_start, put_step};

// A command and a choice word.
#[derive(Clone, Copy)]
pub struct Choice {
    pub command: usize,
    pub word: usize,
}

// The first command, and of its words the first, that leads from s to t, if one does.
pub fn move_to(table: &OneRow, s: u16, t: u16) -> Option<Choice>
    requires { s < 2 ^ table.now.plan.bits }
    ensures { option_map (λ x. move_of x.command x.word) result ≡ move_to (transitions_at table.now) s t (moves (transitions_at table.now)) }
{
    let state = s as u32;
    let sought = t as u32;
    let ops = table.ops;
    let commands = table.plan.commands;
    'commands: for k in 0..commands {
        let code = table.segment(4 + k);
        let words = table.word_count(k);
        let mut rows = first_rows(ops, code.from, code.to, state, table.plan.bits);
        'words: for w in 0..words {
            fill(
                &mut rows,
                ops,
                code.from,
                code.to,
                state,
                table.plan.bits,
                w as u32,
            );
            if pick(&rows, (w % 64) as u32) == sought {
                return Some(Choice {
                    command: k,
                    word: w,
                });
            }
        }
    }
    None
}

// The same, where one does; else command 0 and word 0.
pub fn first_move(table: &OneRow, s: u16, t: u16) -> Choice
    requires { s < 2 ^ table.now.plan.bits }
    ensures { move_of result.command result.word ≡ first_move (transitions_at table.now) s t (moves (transitions_at table.now)) }
{
    move_to(table, s, t).unwrap_or(Choice {
        command: 0,
        word: 0,
    })
}

// Writes the trace of the recorded run to t from `at` on, its last step first; where it ends.
pub fn write_trace(table: &OneRow, parent: &[u16], t: u16, at: usize, out: &mut [u8]) -> usize
    requires { (2 ^ table.now.plan.bits ≤ length parent.now) × RecordedIn (transitions_at table.now) parent.now t × (at + 10 * 2 ^ table.now.plan.bits ≤ length out.old + 2) }
    ensures { TraceStored (transitions_at table.now) parent.now t at out.old out.new result }
{
    let mut n: usize = 0;
    let mut s = t;
    'count: loop {
        let p = parent[s as usize] - 1;
        if p == s {
            break 'count;
        }
        s = p;
        n += 1;
    }
    let mut u = t;
    'write: for i in (0..n).rev() {
        let p = parent[u as usize] - 1;
        let x = first_move(table, p, u);
        put_step(out, at + 8 + 10 * i, x.command, x.word, u);
        u = p;
    }
    put_start(out, at, u);
    at + 8 + 10 * n
}
