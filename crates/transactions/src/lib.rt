// Where document 01's upper crate begins: eight workers over one map, which it knows only by its promises. Here are what
// every step shares, who may take one, a fresh start, begin and merge; the other steps are in `accesses` and `commits`.
#![tactic(auto)]

pub mod admits;
pub mod begins;
pub mod merges;
pub mod starts;

use counters::Counters;
use map::Sizes;

// What goes by value from step to step, beside the lent arrays: whether the map is guarded (request 102; 1 if it is), how much
// the map's arrays hold, the last commit number and leaf version given. A whole word for the guard leaves no padding, which
// would be copied by moves that overlap.
#[derive(Clone, Copy)]
pub struct Globals {
    pub guarded: u64,
    pub sizes: Sizes,
    pub counters: Counters,
}
