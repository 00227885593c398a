// The merge (document 01: fold): a leaf's pending writes enter the index, and the leaf settles around its records.
//
// `take_leaf` takes the leaf's pending writes in and counts the entries that stay for their lock: by a walk over the slots, or,
// if the leaf has one pending write and that is the one at the address asked for, by one search. `settle` settles the leaf;
// `recount` brings the phantomlet up to date. Nearly always no lock stays, and then `recount` needs no walk of its own.
ghost use Rattle.std.specs.Prelude.{◌≡◌, true, false, ◌+◌, ◌-◌, ◌^◌, ◌<◌, ◌≤◌, length, drop};
ghost use Rattle.std.proofs.Math.Option.{some};
ghost use Rattle.lists.specs.Tests.{pick, present};
ghost use Rattle.lists.specs.Rows.{assign};
ghost use Rattle.spec.specs.Records.{standard};
ghost use Rattle.spec.specs.Slots.{slot_count};
ghost use Rattle.laws.specs.VersionBounds.{versions_per_merge};
ghost use Rattle.indexlet.specs.Words.{content_in};
ghost use Rattle.indexlet.specs.Promises as indexlet-promises;
ghost use Rattle.index.specs.Views as index-views;
ghost use Rattle.index.specs.LeafColumns.{lows_of};
ghost use Rattle.phantomlet.specs.LeafTests.{placed};
ghost use Rattle.phantomlet.specs.LeafCounts.{OneLeaf};
ghost use Rattle.phantomlet.specs.LeafRows.{Lows};
ghost use Rattle.map.specs.Views.{lent};
ghost use Rattle.map.specs.MapHeld.{MapHeld};
ghost use Rattle.merging.specs.Merges.{Merges};
ghost use Rattle.merging.specs.MergeWalks.{leaving, hiders, OutsideFits, OutsideNow, Underway, WalksSlot, Starting, StartingFirst, Took, TookFirst};
ghost use Rattle.merging.specs.MergeSpans.{LeafSpan, Raised, Lowered};
ghost use Rattle.merging.specs.MergeShortcuts.{Skips, Alone, Numbered};

use crate::walk;
use counters::Counters;
use index::{leaves, settles};
use indexlet::{SLOTS, Slot};
use map::{Leaves, Records, Sizes, Slots};
use phantomlet::recount;
use phantomlet::recount::Reach;
use spec::{Address, PayloadWords};

// How far a walk over the slots has come: records of the index, entries of the indexlet, pending writes taken in, entries of
// the leaf that stay, for their lock, and entries outside of the index.
#[derive(Clone, Copy)]
struct Walk {
    records: usize,
    entries: usize,
    count: usize,
    left: usize,
    outside: usize,
}

// The rows of a leaf: from row `from` up to, not including, row `to`.
#[derive(Clone, Copy)]
struct Span {
    from: usize,
    to: usize,
}

// What a merge leaves: the sizes and counters, and how many pending writes it took in.
#[derive(Clone, Copy)]
pub struct Merged {
    pub sizes: Sizes,
    pub counters: Counters,
    pub count: usize,
}

// A pending write enters the index: kind 1 puts a record, any other drops it. Answers how many records there are now.
fn take_write(
    rows: &mut Records,
    n: usize,
    a: Address,
    kind: u64,
    payload: PayloadWords,
    commit: u64,
) -> usize
    requires records_sorted { index-views.RecordsSorted rows.old n }
    requires n_len_bound { length (assign a (some (index-views.record_from payload commit)) (index-views.records_of rows.old n)) ≤ index-views.record_places }
    ensures records_are { index-views.RecordsAre rows.new result (assign a (leaving kind payload commit) (index-views.records_of rows.old n)) }
    ensures rows_unchanged { drop result rows.new ≡ drop result rows.old }
{
    if kind == 1 {
        index::records::put(rows, n, a, payload, commit)
    } else {
        index::records::drop(rows, n, a)
    }
}

// 1 if somebody holds a lock.
fn locked(c: indexlet::Content) -> usize
    ensures { result ≡ pick (present (content_in c).holder) 1 0 }
{
    if c.lock == 0 { 0 } else { 1 }
}

// How many entries lie outside of the index, after a write entered it. A put brings its address into the index; a deletion
// takes it out, and its entry stays for a lock alone. The number of records tells whether the index had the address.
fn outside_now(out: usize, before: usize, after: usize, kind: u64, lock: usize) -> usize
    requires { OutsideFits out before after kind lock }
    ensures { OutsideNow out before after kind lock result }
{
    if kind == 1 {
        out + before - after
    } else {
        out + lock + before - after - 1
    }
}

// The walk at slot j: a write that is pending there, in the leaf at place i, whose addresses are r, enters the index; a lock
// stays.
fn take_slot(
    rows: &mut Records,
    slots: &mut Slots,
    leaves: &Leaves,
    w: Walk,
    r: Reach,
    m: usize,
    i: usize,
    j: usize,
) -> Walk
    requires underway { Underway (placed (lows_of leaves.now) m i) rows.old slots.old w j }
    requires one_leaf { OneLeaf (lows_of leaves.now) m i r }
    requires j_lt_slot_count { j < slot_count }
    ensures { WalksSlot (placed (lows_of leaves.now) m i) rows.old slots.old w j rows.new slots.new result }
{
    let s = indexlet::slot_at(slots, j);
    if !recount::reaches(r, s.key) {
        return w;
    }
    let c = s.content;
    let lock = locked(c);
    let left = w.left + lock;
    if c.kind == 0 {
        return Walk { left, ..w };
    }
    let a = s.key as Address;
    let n = take_write(rows, w.records, a, c.kind, c.payload, c.commit);
    let rest = indexlet::Content {
        kind: 0,
        payload: PayloadWords { value: 0, owner: 0 },
        commit: 0,
        since: 0,
        ..c
    };
    let e = indexlet::enter(slots, w.entries, a, j, rest);
    let outside = outside_now(w.outside, w.records, n, c.kind, lock);
    Walk {
        records: n,
        entries: e,
        count: w.count + 1,
        left,
        outside,
    }
}

// The next slot, from this one on, that has an entry among the addresses r; 256 if there is none.
fn next_reached(slots: &Slots, r: Reach, from: usize) -> usize
    requires slots_held { indexlet-promises.SlotsHeld slots.now }
    requires from_le_slot_count { (from ≤ slot_count) × (r.low + r.span < 2 ^ 64) }
    ensures { Skips slots.now r from result }
{
    walk::next(slots, |s: Slot| recount::reaches(r, s.key), from)
}

// All pending writes of the leaf at place i enter the first n rows of the index; no record behind these lies in the leaf. The
// walk goes on behind the last write, since any slot can have a lock that stays.
fn take_all(
    rows: &mut Records,
    slots: &mut Slots,
    leaves: &Leaves,
    n: usize,
    e: usize,
    out: usize,
    m: usize,
    i: usize,
    r: Reach,
) -> Walk
    requires starting_first { StartingFirst (placed (lows_of leaves.now) m i) rows.old slots.old n e out }
    requires one_leaf { OneLeaf (lows_of leaves.now) m i r }
    ensures { TookFirst (placed (lows_of leaves.now) m i) rows.old slots.old n out rows.new slots.new result }
{
    let mut w = Walk {
        records: n,
        entries: e,
        count: 0,
        left: 0,
        outside: out,
    };
    // No range gives the places of a walk that jumps.
    let mut j = 0;
    while j < SLOTS {
        j = next_reached(slots, r, j);
        if j < SLOTS {
            w = take_slot(rows, slots, leaves, w, r, m, i, j);
            j += 1;
        }
    }
    w
}

// Slot j has a pending write of the leaf at place i, whose addresses are r, and no other entry of the leaf hides its address;
// `hidden` is the leaf's number of those that do. A no says nothing: the walk is right for any leaf.
fn hides_alone(
    rows: &Records,
    slots: &Slots,
    leaves: &Leaves,
    n: usize,
    m: usize,
    i: usize,
    r: Reach,
    j: usize,
    hidden: u64,
) -> bool
    requires records_sorted { (index-views.RecordsSorted rows.now n) × (indexlet-promises.SlotsHeld slots.now) }
    requires one_leaf { OneLeaf (lows_of leaves.now) m i r }
    requires j_lt_slot_count { (j < slot_count) × (hidden ≡ hiders (placed (lows_of leaves.now) m i) rows.now n slots.now) }
    ensures { result ≡ true → Alone (placed (lows_of leaves.now) m i) rows.now n slots.now j }
{
    let s = indexlet::slot_at(slots, j);
    let c = s.content;
    if !recount::reaches(r, s.key) || c.kind == 0 {
        return false;
    }
    hidden == 0 || recount::hides_at(rows, n, s.key as Address, c) == hidden
}

// The rows of the leaf at place i.
fn leaf_rows(rows: &Records, leaves: &Leaves, n: usize, m: usize, i: usize) -> Span
    requires records_sorted { index-views.RecordsSorted rows.now n }
    requires lows { Lows (lows_of leaves.now) m }
    requires i_lt_m { i < m }
    ensures { LeafSpan (lows_of leaves.now) rows.now n m i result.from result.to }
{
    let low = leaves::leaf_at(leaves, i).low;
    let from = index::records::locate(rows, n, low as Address);
    let to = if i + 1 < m {
        let next = leaves::leaf_at(leaves, i + 1).low;
        index::records::locate(rows, n, next as Address)
    } else {
        n
    };
    Span { from, to }
}

// Moves n rows, from row `from` on, up to row `to`.
fn move_up(rows: &mut Records, from: usize, to: usize, n: usize)
    requires from_le_to { from ≤ to }
    requires n_bound { to + n ≤ index-views.record_places }
    ensures { Raised rows.old rows.new from to n }
{
    if from < to {
        index::rows::move_rows(rows, from, to, n);
    }
}

// Moves n rows, from row `from` on, down to row `to`. Two functions, since they promise different things: `Raised` and `Lowered`.
fn move_down(rows: &mut Records, from: usize, to: usize, n: usize)
    requires to_le_from { to ≤ from }
    requires n_bound { from + n ≤ index-views.record_places }
    ensures { Lowered rows.old rows.new from to n }
{
    if to < from {
        index::rows::move_rows(rows, from, to, n);
    }
}

// All pending writes of the leaf at place i, which holds the rows s, enter the index. The records behind the leaf move out of
// the way before and back after, not with each write. `hidden` is the leaf's number of entries that hide their address: no more
// puts than that bring a record.
fn take_many(
    rows: &mut Records,
    slots: &mut Slots,
    leaves: &Leaves,
    z: Sizes,
    i: usize,
    r: Reach,
    s: Span,
    hidden: u64,
) -> Walk
    requires starting { Starting rows.old slots.old z.records z.entries z.outside }
    requires one_leaf { OneLeaf (lows_of leaves.now) z.leaves i r }
    requires leaf_span { LeafSpan (lows_of leaves.now) rows.old z.records z.leaves i s.from s.to }
    requires hidden_value { hidden ≡ hiders (placed (lows_of leaves.now) z.leaves i) rows.old z.records slots.old }
    ensures { Took (placed (lows_of leaves.now) z.leaves i) rows.old slots.old z.records rows.new slots.new result }
{
    let to = s.to;
    let behind = z.records - to;
    let top = to + (hidden as usize);
    move_up(rows, to, top, behind);
    let w = take_all(
        rows, slots, leaves, to, z.entries, z.outside, z.leaves, i, r,
    );
    move_down(rows, top, w.records, behind);
    Walk {
        records: w.records + behind,
        ..w
    }
}

// The pending writes of the leaf at place i, which holds the address and the rows s, enter the index. Most merges come right
// after the install that made them due, at its address: with one pending write in the leaf, that one is tried first, and if
// nothing else of the leaf matters no slot is walked over.
fn take_leaf(
    rows: &mut Records,
    slots: &mut Slots,
    leaves: &Leaves,
    z: Sizes,
    i: usize,
    r: Reach,
    s: Span,
    a: Address,
) -> Walk
    requires starting { Starting rows.old slots.old z.records z.entries z.outside }
    requires one_leaf { OneLeaf (lows_of leaves.now) z.leaves i r }
    requires leaf_span { LeafSpan (lows_of leaves.now) rows.old z.records z.leaves i s.from s.to }
    requires numbered { Numbered leaves.now rows.old slots.old z.leaves z.records i }
    ensures { Took (placed (lows_of leaves.now) z.leaves i) rows.old slots.old z.records rows.new slots.new result }
{
    let m = z.leaves;
    let n = z.records;
    let own = leaves::leaf_at(leaves, i);
    if own.pending == 1 {
        let j = indexlet::find(slots, a);
        if j < SLOTS && hides_alone(rows, slots, leaves, n, m, i, r, j, own.hidden) {
            let w = Walk {
                records: n,
                entries: z.entries,
                count: 0,
                left: 0,
                outside: z.outside,
            };
            return take_slot(rows, slots, leaves, w, r, m, i, j);
        }
    }
    take_many(rows, slots, leaves, z, i, r, s, own.hidden)
}

// A merge at an address: all pending writes of the leaf that holds it enter the index. With none, nothing changes.
pub fn merge(
    rows: &mut Records,
    leaves: &mut Leaves,
    slots: &mut Slots,
    z: Sizes,
    k: Counters,
    a: Address,
) -> Merged
    requires map_held { MapHeld (lent rows.old leaves.old slots.old) z k.version }
    requires standard_bound { k.version + versions_per_merge standard < 2 ^ 64 }
    ensures { Merges (lent rows.old leaves.old slots.old) z k a (lent rows.new leaves.new slots.new) result }
{
    let m = z.leaves;
    let i = leaves::find_leaf(leaves, m, a);
    let own = leaves::leaf_at(leaves, i);
    if own.pending == 0 {
        return Merged {
            sizes: z,
            counters: k,
            count: 0,
        };
    }
    let r = recount::addresses_of(leaves, m, i, i + 1);
    let span = leaf_rows(rows, leaves, z.records, m, i);
    let w = take_leaf(rows, slots, leaves, z, i, r, span, a);
    let to = span.to + w.records - z.records;
    let s = settles::settle(leaves, rows, m, i, span.from, to, k.version);
    recount::recount(leaves, rows, slots, w.records, s.leaves, i, m, w.left);
    let sizes = Sizes {
        records: w.records,
        leaves: s.leaves,
        entries: w.entries,
        outside: w.outside,
    };
    let taken = counters::take_versions(k, s.version - k.version);
    Merged {
        sizes,
        counters: taken.counters,
        count: w.count,
    }
}
