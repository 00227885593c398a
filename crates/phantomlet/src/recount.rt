// The phantomlet after a merge. The leaves have settled: the numbers of those that the merge did not make moved along with
// them, those of the others are 0. In nearly every merge no lock stays in its leaf, and the leaf is not joined to the one
// before: then the leaves that the merge made have no entry, and 0 is right. Otherwise their numbers, and that of the leaf
// before them, are counted by one walk over the slots.
ghost use Rattle.std.specs.Prelude.{◌≡◌, ◌+◌, ◌-◌, ◌^◌, ◌<◌, ◌≤◌, not, slice_index};
ghost use Rattle.lists.specs.Tests.{pick, both, present, same, at_most};
ghost use Rattle.lists.specs.Rows.{look};
ghost use Rattle.spec.specs.Slots.{slot_count};
ghost use Rattle.indexlet.specs.Words.{content_in};
ghost use Rattle.index.specs.Views.{leaf_places, RecordsSorted, records_of};
ghost use Rattle.index.specs.LeafColumns.{lows_of, hidden_of, pending_of};
ghost use Rattle.phantomlet.specs.Phantoms.{hides_some};
ghost use Rattle.phantomlet.specs.LeafWrites.{Cleared, Raised};
ghost use Rattle.phantomlet.specs.LeafCounts.{ReachIs, Ranging, reached};
ghost use Rattle.phantomlet.specs.MergeCounts.{Recounting, Tallying, Tallied, Numbering};

use index::leaves::LeafWords;
use index::{Leaves, Records, leaves, records};
use indexlet::{SLOTS, Slots};
use spec::{Address, HIGHEST};

// Which leaves are counted: the places from `from` up to, not including, `to`, which hold the address `low` and the `span`
// addresses behind it.
#[derive(Clone, Copy)]
pub struct Reach {
    pub from: usize,
    pub to: usize,
    pub low: u64,
    pub span: u64,
}

// Writes 0 for the numbers of the leaves at the places from `from` up to, not including, `to`.
fn clear(leaves: &mut Leaves, from: usize, to: usize)
    requires { (from ≤ to) × (to ≤ leaf_places) }
    ensures { Cleared leaves.old leaves.new from to }
{
    for x in from..to {
        let none = LeafWords {
            hidden: 0,
            pending: 0,
            ..leaves::leaf_at(leaves, x)
        };
        leaves::put_leaf(leaves, x, none);
    }
}

// The addresses of the leaves at these places.
pub fn addresses_of(leaves: &Leaves, m: usize, from: usize, to: usize) -> Reach
    requires { Ranging (lows_of leaves.now) m from to }
    ensures { (ReachIs (lows_of leaves.now) m result) × (result.from ≡ from) × (result.to ≡ to) }
{
    let low = leaves::leaf_at(leaves, from).low;
    let last = if to < m {
        leaves::leaf_at(leaves, to).low.saturating_sub(1)
    } else {
        HIGHEST as u64
    };
    Reach {
        from,
        to,
        low,
        span: last.saturating_sub(low),
    }
}

// The address lies in those leaves. One comparison, since in a walk over the slots two are guessed wrong every other time.
pub fn reaches(r: Reach, key: u64) -> bool
    requires { r.low + r.span < 2 ^ 64 }
    ensures { result ≡ reached r key }
{
    std::num::wrapping_sub_u64(key, r.low) <= r.span
}

// 1 if a write is pending.
pub fn waits(c: indexlet::Content) -> u64
    ensures { result ≡ pick (present (content_in c).pending) 1 0 }
{
    if c.kind == 0 { 0 } else { 1 }
}

// The index has no record at the address.
pub fn lacks(rows: &Records, n: usize, a: Address) -> bool
    requires { RecordsSorted rows.now n }
    ensures { result ≡ not (present (look (records_of rows.now n) a)) }
{
    records::find(rows, n, a).is_none()
}

// What is said hides its address from somebody: a put is pending, or somebody has a lock for a put.
pub fn hides_some(c: indexlet::Content) -> bool
    ensures { result ≡ hides_some (content_in c) }
{
    c.kind == 1 || c.lock != 0 && c.forput == 1
}

// 1 if what is said of the address hides it from somebody, and the index lacks it.
pub fn hides_at(rows: &Records, n: usize, a: Address, c: indexlet::Content) -> u64
    requires { RecordsSorted rows.now n }
    ensures { result ≡ pick (both (not (present (look (records_of rows.now n) a))) (hides_some (content_in c))) 1 0 }
{
    if hides_some(c) && lacks(rows, n, a) {
        1
    } else {
        0
    }
}

// Adds to the two numbers of the leaf at a place.
fn raise(leaves: &mut Leaves, at: usize, x: u64, w: u64)
    requires at_lt_leaf_places { at < leaf_places }
    requires x_bound { (slice_index (hidden_of leaves.old) at + x < 2 ^ 64) × (slice_index (pending_of leaves.old) at + w < 2 ^ 64) }
    ensures { Raised leaves.old leaves.new at x w }
{
    let l = leaves::leaf_at(leaves, at);
    let more = LeafWords {
        hidden: l.hidden + x,
        pending: l.pending + w,
        ..l
    };
    leaves::put_leaf(leaves, at, more);
}

// The walk at slot j: an entry in one of the leaves counts for it.
fn tally_slot(
    leaves: &mut Leaves,
    rows: &Records,
    slots: &Slots,
    n: usize,
    m: usize,
    r: Reach,
    j: usize,
)
    requires tallying { Tallying rows.now (lows_of leaves.old) slots.now n m r (hidden_of leaves.old) (pending_of leaves.old) j }
    requires j_lt_slot_count { j < slot_count }
    ensures { Tallied rows.now leaves.old slots.now n m r (j + 1) leaves.new }
{
    let s = indexlet::slot_at(slots, j);
    if !reaches(r, s.key) || indexlet::idle(s.content) {
        return;
    }
    let a = s.key as Address;
    let at = leaves::find_leaf(leaves, m, a);
    let x = hides_at(rows, n, a, s.content);
    let w = waits(s.content);
    raise(leaves, at, x, w);
}

// Counts the entries of the leaves.
fn tally_all(leaves: &mut Leaves, rows: &Records, slots: &Slots, n: usize, m: usize, r: Reach)
    requires { Tallying rows.now (lows_of leaves.old) slots.now n m r (hidden_of leaves.old) (pending_of leaves.old) 0 }
    ensures { Numbering rows.now leaves.old slots.now n m leaves.new }
{
    for j in 0..SLOTS {
        tally_slot(leaves, rows, slots, n, m, r, j);
    }
}

// The leaves that a merge made have no entry: it left none in its leaf, and did not join the leaf to the one before it.
fn bare(left: usize, m: usize, old: usize) -> bool
    ensures { result ≡ both (same left 0) (at_most old m) }
{
    left == 0 && old <= m
}

// The phantomlet after a merge at place i of `old` leaves, of which there are m now; the merge left `left` entries in its
// leaf.
pub fn recount(
    leaves: &mut Leaves,
    rows: &Records,
    slots: &Slots,
    n: usize,
    m: usize,
    i: usize,
    old: usize,
    left: usize,
)
    requires { Recounting rows.now leaves.old slots.now n m i old left }
    ensures { Numbering rows.now leaves.old slots.now n m leaves.new }
{
    if bare(left, m, old) {
        return;
    }
    let from = i.saturating_sub(1);
    let to = i + 1 + m - old;
    clear(leaves, from, to);
    let r = addresses_of(leaves, m, from, to);
    tally_all(leaves, rows, slots, n, m, r);
}
