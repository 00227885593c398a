// A leaf set (document 01: the log's marks). A row: a leaf's version (mark) and its low address; then whether it is the first
// row of a scan (1 or 0), and that scan: lo, hi, and which rows of the read set it logged, as the first of them and their count.
ghost use Rattle.std.specs.Prelude.{◌<◌};
ghost use Rattle.spec.specs.Records.{limits};
ghost use Rattle.sets.specs.Leaves.{LeafSetHeld, LogsLeaf, GivesLeaf, GivesNote};

use crate::LeafSet;
use spec::Address;

// A row of a leaf set.
#[derive(Clone, Copy)]
pub struct LoggedLeaf {
    pub version: u64,
    pub low: Address,
}

// A scan as its transaction remembers it (request 102): its range, and which rows of the read set it logged.
#[derive(Clone, Copy)]
pub struct Scanned {
    pub lo: u64,
    pub hi: u64,
    pub from: u64,
    pub count: u64,
}

// Appends a row of a scan to the first n. Answers how many there are now. The scan is no option: its words stand in each of its rows.
pub fn log_leaf(leaves: &mut LeafSet, n: usize, leaf: LoggedLeaf, first: bool, s: Scanned) -> usize
    requires leaf_set_held { LeafSetHeld leaves.old }
    requires n_lt_leaf_set_limit { n < limits.leaf_set_limit }
    ensures { LogsLeaf leaves.old n leaf first s leaves.new result }
{
    let row = [
        leaf.version,
        leaf.low as u64,
        first as u64,
        s.lo,
        s.hi,
        s.from,
        s.count,
    ];
    leaves[n] = row;
    n + 1
}

// Row i.
pub fn logged_leaf_at(leaves: &LeafSet, i: usize) -> LoggedLeaf
    requires leaf_set_held { LeafSetHeld leaves.now }
    requires i_lt_leaf_set_limit { i < limits.leaf_set_limit }
    ensures { GivesLeaf leaves.now i result }
{
    let row = leaves[i];
    LoggedLeaf {
        version: row[0],
        low: row[1] as Address,
    }
}

// The scan that row i remembers, if it is the first row of one.
pub fn note_at(leaves: &LeafSet, i: usize) -> Option<Scanned>
    requires leaf_set_held { LeafSetHeld leaves.now }
    requires i_lt_leaf_set_limit { i < limits.leaf_set_limit }
    ensures { GivesNote leaves.now i result }
{
    let row = leaves[i];
    if row[2] != 1 {
        return None;
    }
    Some(Scanned {
        lo: row[3],
        hi: row[4],
        from: row[5],
        count: row[6],
    })
}
