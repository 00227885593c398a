// The index: sorted records, cut into leaves, in arrays of rows that the caller lends.
//
// `rows` reads and writes the records' words, and nothing else touches them, and moves rows of either kind; `records` looks up,
// puts and drops. `leaves` reads and writes the leaves' words, and nothing else tells what they mean, and finds the leaf of an
// address; `settles` settles leaves after a merge.
#![tactic(auto)]

use spec::MAP_LIMIT;

pub mod leaves;
pub mod records;
pub mod rows;
mod search;
pub mod settles;

// How many words a record has: its address, its value, its owner, its commit number.
pub const RECORD_WORDS: usize = 4;

// The records, a row each.
pub type Records = [[u64; RECORD_WORDS]; MAP_LIMIT];

// So many records or leaves take 3, 5, 7 or 9 steps of a search; more take 11. Each has code of its own, without a loop, so that
// no branch is guessed within a search: steps that fit the number exactly took longer. FEW is a number of its own, whatever run
// a map's leaves are cut by: it only says how many steps a search takes.
const LEAST: usize = FEW / 16;

const FEWER: usize = FEW / 4;

const FEW: usize = 128;

const HALF: usize = MAP_LIMIT / 2;

// How many leaves there is room for: the first, and one for each record.
pub const LEAVES: usize = MAP_LIMIT + 1;

// How many words a leaf has: its low, its version, two numbers of the phantomlet.
pub const LEAF_WORDS: usize = 4;

// The leaves, a row each.
pub type Leaves = [[u64; LEAF_WORDS]; LEAVES];
