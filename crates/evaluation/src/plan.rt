// What a model's code has where, and how much: all that is known of a flat form but its code words.
// Segment i of the code ends before ends[i]: the two expressions of `start`, the two of `keep`, and then the commands. Command k has stars[k] stars.
// A state has so many bits as there are shared names and row names.
#[derive(Clone, Copy)]
pub struct Plan {
    pub ends: [u16; 20],
    pub stars: [u16; 16],
    pub shared: usize,
    pub row: usize,
    pub commands: usize,
    pub bits: usize,
}
