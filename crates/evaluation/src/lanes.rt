// The machine that runs code words with 64 choice words at once: each cell has 64 lanes, one for each word.
ghost use Rattle.std.specs.Prelude.{◌≡◌, ◌<◌, ◌≤◌, length, replicate};
ghost use Rattle.std.proofs.Math.Seq.{slice};
ghost use Rattle.evaluation.specs.working.CodeMachine.{passes_of};
ghost use Rattle.evaluation.specs.working.Cells.{star_of, cells_of, tops_of, run_cells, no_tops};
ghost use Rattle.evaluation.specs.working.Ends.{fills, start_cells, row_of, pick_of};
ghost use Rattle.evaluation.specs.working.Batches.{cells_at, filled_of};

use crate::kinds::{BOTH, CHOOSE, DONE, EITHER, LOAD, NEGATE, OTHERWISE, PUSH, STORE, WHEN};

// Where the stacks have their tops: the values at cell 32 + sp, the masks at cell 96 + mp.
#[derive(Clone, Copy)]
pub struct Tops {
    pub sp: usize,
    pub mp: usize,
}

// The lanes of star j in a batch: lane l is bit j of 64 * batch + l.
#[tactic(auto, unfolding(crate::specs::working::Cells::star_of))]
fn star(j: u32, batch: u32) -> u64
    requires { j < 32 }
    ensures { result ≡ star_of j batch }
{
    match j {
        0 => 0xaaaa_aaaa_aaaa_aaaa,
        1 => 0xcccc_cccc_cccc_cccc,
        2 => 0xf0f0_f0f0_f0f0_f0f0,
        3 => 0xff00_ff00_ff00_ff00,
        4 => 0xffff_0000_ffff_0000,
        5 => 0xffff_ffff_0000_0000,
        _ => ((batch >> (j - 6)) % 2) as u64 * u64::MAX,
    }
}

// One code word: kind op / 32, argument op % 32.
#[tactic(auto, using(crate::proofs::LaneBits::not_lanes), unfolding(crate::specs::working::Cells::cells_kind, crate::specs::working::Cells::tops_kind))]
fn step(cells: &mut [u64; 128], t: Tops, op: u16, batch: u32) -> Tops
    requires { (t.sp < 64) × (t.mp < 32) }
    ensures { (cells.new ≡ cells_of op batch t cells.old) × (result ≡ tops_of op t) }
{
    let Tops { sp, mp } = t;
    let j = (op % 32) as usize;
    match op / 32 {
        PUSH => {
            let up = (sp + 63) % 64;
            cells[32 + up] = (j % 2) as u64 * u64::MAX;
            Tops { sp: up, mp }
        }
        LOAD => {
            let up = (sp + 63) % 64;
            cells[32 + up] = cells[j];
            Tops { sp: up, mp }
        }
        CHOOSE => {
            let up = (sp + 63) % 64;
            cells[32 + up] = star(j as u32, batch);
            Tops { sp: up, mp }
        }
        NEGATE => {
            cells[32 + sp] = !cells[32 + sp];
            t
        }
        BOTH => {
            let down = (sp + 1) % 64;
            let v = cells[32 + sp];
            cells[32 + sp] = 0;
            cells[32 + down] &= v;
            Tops { sp: down, mp }
        }
        EITHER => {
            let down = (sp + 1) % 64;
            let v = cells[32 + sp];
            cells[32 + sp] = 0;
            cells[32 + down] |= v;
            Tops { sp: down, mp }
        }
        STORE => {
            let down = (sp + 1) % 64;
            let v = cells[32 + sp];
            let on = cells[96 + mp];
            cells[32 + sp] = 0;
            cells[j] ^= (cells[j] ^ v) & on;
            Tops { sp: down, mp }
        }
        WHEN => {
            let down = (sp + 1) % 64;
            let up = (mp + 31) % 32;
            let v = cells[32 + sp];
            let on = cells[96 + mp];
            cells[32 + sp] = 0;
            cells[96 + up] = on & v;
            Tops { sp: down, mp: up }
        }
        OTHERWISE => {
            let on = cells[96 + mp];
            let outer = cells[96 + (mp + 1) % 32];
            cells[96 + mp] = outer & !on;
            t
        }
        DONE => {
            cells[96 + mp] = 0;
            Tops {
                sp,
                mp: (mp + 1) % 32,
            }
        }
        _ => t,
    }
}

// A command's code, one pass to a code word: how many passes it took.
#[tactic(auto, using(crate::proofs::CellRuns::turn, crate::proofs::CellRuns::tops_in))]
fn run(code: &[u16], batch: u32, cells: &mut [u64; 128]) -> usize
    ensures cells_after { cells.new ≡ run_cells code.now batch no_tops cells.old }
    ensures passes { result ≡ passes_of code.now }
{
    let mut t = Tops { sp: 0, mp: 0 };
    let mut passes: usize = 0;
    'words: for op in code {
        t = step(cells, t, *op, batch);
        passes += 1;
    }
    passes
}

// The cells where a run begins: the state's n bits in every lane, and the mask on.
#[tactic(auto, unfolding(crate::specs::working::Ends::fills))]
fn start(state: u32, n: usize) -> [u64; 128]
    requires { n ≤ 32 }
    ensures { result ≡ start_cells n state }
{
    let mut cells = [0u64; 128];
    cells[96] = u64::MAX;
    for i in 0..n {
        cells[i] = ((state >> (i as u32)) % 2) as u64 * u64::MAX;
    }
    cells
}

// Four lanes at once: the state numbers in the lanes r, r + 16, r + 32 and r + 48, in fields of 16 bits.
fn row(cells: &[u64; 128], n: usize, r: u32) -> u64
    requires { (n ≤ 16) × (r < 16) }
    ensures { result ≡ row_of cells.now n r }
{
    let mut x: u64 = 0;
    for i in (0..n).rev() {
        x = (x << 1) + ((cells[i] >> r) & 0x0001_0001_0001_0001);
    }
    x
}

// All 64 state numbers: row r has the lanes r, r + 16, r + 32 and r + 48.
#[tactic(auto, unfolding(crate::specs::working::Ends::fills))]
fn rows_of(cells: &[u64; 128], n: usize, out: &mut [u64; 16])
    requires { n ≤ 16 }
    ensures { out.new ≡ fills (row_of cells.now n) 16 out.old }
{
    for r in 0..16 {
        out[r] = row(cells, n, r as u32);
    }
}

// The state number in lane l, from the rows.
pub fn pick(rows: &[u64; 16], l: u32) -> u32
    requires { l < 64 }
    ensures { result ≡ pick_of rows.now l }
{
    ((rows[(l % 16) as usize] >> (l / 16 * 16)) % 65536) as u32
}

// The rows of batch b, the words 64 * b to 64 * b + 63, from the code of a command: how many passes it took.
#[tactic(auto, using(crate::proofs::CodeRuns::part), unfolding(crate::specs::working::Batches::cells_at))]
fn batch_rows(
    rows: &mut [u64; 16],
    ops: &[u16],
    from: usize,
    to: usize,
    state: u32,
    n: usize,
    b: u32,
) -> usize
    requires { (from ≤ to) × (to ≤ length ops.now) × (n ≤ 16) }
    ensures rows_after { rows.new ≡ fills (row_of (cells_at (slice from to ops.now) state n b) n) 16 rows.old }
    ensures passes { result ≡ passes_of (slice from to ops.now) }
{
    let mut cells = start(state, n);
    let passes = run(&ops[from..to], b, &mut cells);
    rows_of(&cells, n, rows);
    passes
}

// The rows of the first batch, with which a loop over words begins.
pub fn first_rows(ops: &[u16], from: usize, to: usize, state: u32, n: usize) -> [u64; 16]
    requires { (from ≤ to) × (to ≤ length ops.now) × (n ≤ 16) }
    ensures { result ≡ fills (row_of (cells_at (slice from to ops.now) state n 0) n) 16 (replicate 16 0) }
{
    let mut rows = [0u64; 16];
    batch_rows(&mut rows, ops, from, to, state, n, 0);
    rows
}

// The rows for the word w: filled anew where w begins another batch. Most words begin none: no call is made for them, as this function is small enough to be inlined.
#[tactic(auto, unfolding(crate::specs::working::Batches::filled_of))]
pub fn fill(rows: &mut [u64; 16], ops: &[u16], from: usize, to: usize, state: u32, n: usize, w: u32)
    requires { (from ≤ to) × (to ≤ length ops.now) × (n ≤ 16) }
    ensures { rows.new ≡ filled_of (slice from to ops.now) state n w rows.old }
{
    if w % 64 == 0 && 0 < w {
        batch_rows(rows, ops, from, to, state, n, w / 64);
    }
}
