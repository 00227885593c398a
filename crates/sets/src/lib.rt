// The read set, the leaf set and the write set of each worker, in rows of words that the caller lends. How many rows of a set are
// in use stands in the worker.
#![tactic(auto)]

use spec::{LEAF_SET_LIMIT, READ_LIMIT, WORKERS, WRITE_LIMIT};

pub mod leaves;
pub mod reads;
pub mod writes;

// How many words a row of each set has.
pub const READ_WORDS: usize = 5;

pub const LEAF_SET_WORDS: usize = 7;

pub const WRITE_WORDS: usize = 4;

// One worker's sets, a row for each entry.
pub type ReadSet = [[u64; READ_WORDS]; READ_LIMIT];

pub type LeafSet = [[u64; LEAF_SET_WORDS]; LEAF_SET_LIMIT];

pub type WriteSet = [[u64; WRITE_WORDS]; WRITE_LIMIT];

// All workers' sets.
pub type ReadSets = [ReadSet; WORKERS];

pub type LeafSets = [LeafSet; WORKERS];

pub type WriteSets = [WriteSet; WORKERS];
