// Counts of the members of a map.
ghost use Rattle.std.specs.Prelude.{◌≡◌, ◌*◌, ◌<◌, ◌≤◌, length};
ghost use Rattle.std.specs.Int.Count.{ones};
ghost use Rattle.counting.specs.Counts.{count_at, ones_of};
ghost use Rattle.counting.specs.working.Counting.{table};

use sheets::fields::in_map;

// A count for each setting: 8 shared names have 256.
pub type Counts = [u16; 256];

// How many bits of a byte are set.
fn ones_of(x: u8) -> usize
    ensures { (result ≡ ones x) × (result ≤ 8) }
{
    x.count_ones() as usize
}

// How many bits of the map are set.
pub fn count_members(map: &[u8]) -> usize
    requires { length map.now ≤ 512 }
    ensures { result ≡ ones_of map.now }
{
    map.iter().map(|byte| ones_of(*byte)).sum()
}

// How many members each setting has, in one pass over the states. The lowest bits of a state are those of the shared names.
pub fn count_settings(map: &[u8], states: usize, settings: usize) -> Counts
    requires { (length map.now ≤ 512) × (states ≤ 8 * length map.now) × (0 < settings) × (settings ≤ 256) }
    ensures { result ≡ table (count_at states settings map.now) }
{
    let mut counts = [0u16; 256];
    'states: for s in 0..states {
        if in_map(map, s) {
            counts[s % settings] += 1;
        }
    }
    counts
}
