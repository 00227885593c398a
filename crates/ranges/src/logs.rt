// What a scan logs: the records that it passed, and the leaves that meet its range.
ghost use Rattle.sets.specs.Reads.{ReadSetHeld};
ghost use Rattle.sets.specs.Leaves.{LeafSetHeld};
ghost use Rattle.map.specs.Views.{lows_of, versions_of};
ghost use Rattle.ranges.specs.Scanning.{ReadsRoom, LogsRows, LeavesRoom, LogsLeaves, seen_by};

use map::Leaves;
use queries::{Range, View};
use sets::leaves::Scanned;
use sets::{LeafSet, ReadSet, leaves, reads};

// Appends the index records at these places to the m rows of a read set. Answers how many there are now.
pub fn log_rows(reads: &mut ReadSet, view: View, m: usize, p: Range) -> usize
    requires read_set_held { ReadSetHeld reads.old }
    requires reads_room { ReadsRoom view.records m p }
    ensures { LogsRows reads.old m (seen_by view.entry) p reads.new result }
{
    let mut count = m;
    for i in p.from..p.to {
        let s = view.seen_at(i);
        count = reads::log_read(reads, count, s.address, s.current, s.kept);
    }
    count
}

// Appends the leaves at these places, which a scan has met, to the m rows of a leaf set; the first of them remembers the scan.
// Answers how many there are now.
pub fn log_leaves(leafset: &mut LeafSet, leaves: &Leaves, m: usize, p: Range, s: Scanned) -> usize
    requires leaf_set_held { LeafSetHeld leafset.old }
    requires leaves_room { LeavesRoom (lows_of leaves.now) m p }
    ensures { LogsLeaves leafset.old m (lows_of leaves.now) (versions_of leaves.now) p s leafset.new result }
{
    let mut count = m;
    for i in p.from..p.to {
        let leaf = queries::leaf(leaves, i);
        count = leaves::log_leaf(leafset, count, leaf, i == p.from, s);
    }
    count
}
