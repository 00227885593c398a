// The map: index, indexlet and phantomlet, in arrays that the caller lends. Document 01's lower crate.
//
// `entries` changes what the indexlet says of one address, and keeps the phantomlet; `locks` locks, unlocks and installs a
// write set; `holders` tells who has a lock. A merge, which takes a leaf's pending writes into the index, is in crate `merging`;
// what only reads, current records and the like, in crate `queries`.
#![tactic(auto)]

pub mod entries;
pub mod holders;
pub mod locks;

// What the layers below keep the map in, for those who lend it.
pub type Records = index::Records;

pub type Leaves = index::Leaves;

pub type Slots = indexlet::Slots;

// How much the arrays hold: records of the index, leaves, entries of the indexlet, and entries at addresses that the
// index lacks.
#[derive(Clone, Copy)]
pub struct Sizes {
    pub records: usize,
    pub leaves: usize,
    pub entries: usize,
    pub outside: usize,
}
