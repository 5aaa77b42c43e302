// The map of the states met, from the table of where they were met from.
ghost use Rattle.std.specs.Prelude.{◌≡◌, map, ◌+◌, ◌<◌, ◌≤◌, ltb, length, take};
ghost use Rattle.std.proofs.lemmas.List.Edits.{sets};
ghost use Rattle.exploration.specs.working.Written.{bit_at, map_byte, map_from};

// Whether state s was met, as a bit.
fn met_bit(states: usize, parent: &[u16], s: usize) -> u8
    requires { states ≤ length parent.now }
    ensures value { result ≡ bit_at (map (ltb 0) (take states parent.now)) s }
    ensures upper_bound { result ≤ 1 }
{
    u8::from(s < states && 0 < parent[s])
}

// Byte i of the map.
fn map_byte(states: usize, parent: &[u16], i: usize) -> u8
    requires { (states ≤ length parent.now) × (i < 512) }
    ensures { result ≡ map_byte (map (ltb 0) (take states parent.now)) i }
{
    let mut byte = 0;
    for j in (0..8).rev() {
        byte = 2 * byte + met_bit(states, parent, 8 * i + j);
    }
    byte
}

// Writes the map's n bytes from `at` on.
pub fn write_map(states: usize, parent: &[u16], n: usize, at: usize, out: &mut [u8])
    requires { (states ≤ length parent.now) × (n ≤ 512) × (at + n ≤ length out.old) }
    ensures { out.new ≡ sets out.old at (map_from (map (ltb 0) (take states parent.now)) 0 n) }
{
    for (i, byte) in out[at..at + n].iter_mut().enumerate() {
        *byte = map_byte(states, parent, i);
    }
}
