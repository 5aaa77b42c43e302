// Records of a sheet, stored at a place of the lent buffer.
ghost use Rattle.std.specs.Prelude.{◌≡◌, [], ◌∷◌, ◌+◌, ◌<◌, ◌≤◌, length};
ghost use Rattle.std.proofs.lemmas.List.Edits.{sets};
ghost use Rattle.sheets.specs.Sheets.{record_bytes, start_bytes, step_bytes};
ghost use Rattle.exploration.specs.working.Transitions.{move_of};
ghost use Rattle.exploration.specs.working.Runs.{step_of};
ghost use Rattle.exploration.specs.working.Written.{head_bytes};

// A record's first six bytes: how long its payload is, and its kind.
pub fn put_head(out: &mut [u8], at: usize, len: usize, kind: usize)
    requires { at + 6 ≤ length out.old }
    ensures { out.new ≡ sets out.old at (head_bytes len kind) }
{
    out[at..at + 4].copy_from_slice(&len.to_le_bytes()[..4]);
    out[at + 4..at + 6].copy_from_slice(&kind.to_le_bytes()[..2]);
}

// A whole record.
fn put_record(out: &mut [u8], at: usize, kind: usize, payload: &[u8])
    requires { at + 6 + length payload.now ≤ length out.old }
    ensures { out.new ≡ sets out.old at (record_bytes kind payload.now) }
{
    put_head(out, at, payload.len(), kind);
    let b = at + 6;
    out[b..b + payload.len()].copy_from_slice(payload);
}

// The header, at the buffer's front.
pub fn put_header(out: &mut [u8], shared: usize, row: usize, commands: usize)
    requires { (9 ≤ length out.old) × (shared < 256) × (row < 256) × (commands < 256) }
    ensures { out.new ≡ sets out.old 0 (record_bytes 1 (shared ∷ row ∷ commands ∷ [])) }
{
    put_record(out, 0, 1, &[shared as u8, row as u8, commands as u8]);
}

// The record of a start state.
pub fn put_start(out: &mut [u8], at: usize, s: u16)
    requires { at + 8 ≤ length out.old }
    ensures { out.new ≡ sets out.old at (start_bytes s) }
{
    put_record(out, at, 3, &s.to_le_bytes());
}

// The record of a step.
pub fn put_step(out: &mut [u8], at: usize, c: usize, w: usize, t: u16)
    requires { (at + 10 ≤ length out.old) × (c < 256) × (w < 256) }
    ensures { out.new ≡ sets out.old at (step_bytes (step_of (move_of c w) t)) }
{
    let [low, high] = t.to_le_bytes();
    put_record(out, at, 4, &[c as u8, w as u8, low, high]);
}
