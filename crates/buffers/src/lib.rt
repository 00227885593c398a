// The three buffers that a scan or a portion fills: addresses, values, owners. What they hold is said in specs/Buffers.antt.
#![tactic(auto)]

// How many places each of the buffers has, or a step wants.
#[derive(Clone, Copy)]
pub struct Places {
    pub addresses: usize,
    pub values: usize,
    pub owners: usize,
}
