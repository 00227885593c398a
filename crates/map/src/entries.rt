// What is said of one address: the indexlet changes, and the phantomlet with it. And an empty map.
ghost use Rattle.std.specs.Prelude.{◌≡◌};
ghost use Rattle.spec.specs.Widths.{address_size};
ghost use Rattle.spec.specs.Slots.{content_of, enter};
ghost use Rattle.spec.specs.Maps.{fresh_map};
ghost use Rattle.laws.specs.SlotLaws.{EntryRoom};
ghost use Rattle.indexlet.specs.Words.{content_in, slots_of};
ghost use Rattle.indexlet.specs.Promises as indexlet;
ghost use Rattle.index.specs.Views as index;
ghost use Rattle.index.specs.LeafPlaces.{AtLeaf};
ghost use Rattle.index.specs.LeafColumns.{lows_of, hidden_of, pending_of};
ghost use Rattle.map.specs.Views.{lent};
ghost use Rattle.map.specs.MapHeld.{Tables};
ghost use Rattle.map.specs.Entries.{MapBecomes, ContentSet, Adjustable, Adjusts, Terms, hidden_term, outside_term, still_as};

use crate::{Leaves, Records, Sizes, Slots};
use counters::Counters;
use index::leaves;
use index::leaves::LeafWords;
use phantomlet::recount;
use spec::Address;

// An empty map: one leaf with version 0, no record, no entry.
pub fn fresh_map(rows: &mut Records, leaves: &mut Leaves, slots: &mut Slots) -> Sizes
    ensures { MapBecomes (lent rows.new leaves.new slots.new) result 0 fresh_map }
{
    let first = LeafWords {
        low: 0,
        version: 0,
        hidden: 0,
        pending: 0,
    };
    leaves::put_leaf(leaves, 0, first);
    indexlet::fresh_slots(slots);
    Sizes {
        records: 0,
        leaves: 1,
        entries: 0,
        outside: 0,
    }
}

// 1 if there is an entry, at an address that the index lacks.
fn outside_term(lacks: bool, c: indexlet::Content) -> u64
    ensures { result ≡ outside_term lacks (content_in c) }
{
    if lacks && !indexlet::idle(c) { 1 } else { 0 }
}

// 1 if what is said of an address that the index lacks hides it from somebody.
fn hidden_term(lacks: bool, c: indexlet::Content) -> u64
    ensures { result ≡ hidden_term lacks (content_in c) }
{
    if lacks && recount::hides_some(c) {
        1
    } else {
        0
    }
}

// An entry neither comes nor goes, and it hides its address as before.
fn still(old: indexlet::Content, c: indexlet::Content) -> bool
    ensures { result ≡ still_as (content_in old) (content_in c) }
{
    indexlet::idle(old) == indexlet::idle(c) && recount::hides_some(old) == recount::hides_some(c)
}

// What an address adds to the phantomlet's numbers, at the place of its leaf, and what it takes away: pending writes, and
// hidden keys; and the same of the entries outside of the index.
#[derive(Clone, Copy)]
pub struct Change {
    pub at: usize,
    pub pend: u64,
    pub unpend: u64,
    pub hide: u64,
    pub unhide: u64,
    pub join: u64,
    pub leave: u64,
}

// The phantomlet's two numbers of a leaf change.
fn adjust(leaves: &mut Leaves, t: Change)
    requires adjustable { Adjustable (pending_of leaves.old) t.at t.pend t.unpend }
    requires adjustable_2 { Adjustable (hidden_of leaves.old) t.at t.hide t.unhide }
    ensures { Adjusts leaves.old t leaves.new }
{
    let l = leaves::leaf_at(leaves, t.at);
    let changed = LeafWords {
        hidden: l.hidden + t.hide - t.unhide,
        pending: l.pending + t.pend - t.unpend,
        ..l
    };
    leaves::put_leaf(leaves, t.at, changed);
}

// What changes if c is said of an address of which `old` is said, and whose leaf has place `at`. Where nothing of the entry changes
// that counts, the index is not searched. This and the next function are called one after the other, since each by itself is small
// enough for the compiler to put it where it is called, and there most of it is known.
pub fn terms(
    rows: &Records,
    leaves: &Leaves,
    z: Sizes,
    a: Address,
    old: indexlet::Content,
    c: indexlet::Content,
    at: usize,
) -> Change
    requires records_sorted { index.RecordsSorted rows.now z.records }
    requires at_leaf { AtLeaf (lows_of leaves.now) z.leaves a at }
    ensures { Terms (content_in old) rows.now (lows_of leaves.now) z a (content_in c) result }
{
    let pend = recount::waits(c);
    let unpend = recount::waits(old);
    if still(old, c) {
        return Change {
            at,
            pend,
            unpend,
            hide: 0,
            unhide: 0,
            join: 0,
            leave: 0,
        };
    }
    let absent = recount::lacks(rows, z.records, a);
    Change {
        at,
        pend,
        unpend,
        hide: hidden_term(absent, c),
        unhide: hidden_term(absent, old),
        join: outside_term(absent, c),
        leave: outside_term(absent, old),
    }
}

// The sizes after a change, and the place of the leaf that was changed: where to look first for the next address.
#[derive(Clone, Copy)]
pub struct Placed {
    pub sizes: Sizes,
    pub at: usize,
}

// `c` is said of the address, for which slot `at` was found; the phantomlet's two numbers of its leaf change by t, which tells what
// comes of it.
pub fn set_content(
    leaves: &mut Leaves,
    slots: &mut Slots,
    rows: &Records,
    z: Sizes,
    k: Counters,
    a: Address,
    at: usize,
    c: indexlet::Content,
    t: Change,
) -> Placed
    requires tables { Tables (lent rows.now leaves.old slots.old) z k.version }
    requires finds { indexlet.Finds slots.old a at }
    requires entry_room { EntryRoom (slots_of slots.old) a (content_in c) }
    requires terms { Terms (content_of (slots_of slots.old) a) rows.now (lows_of leaves.old) z a (content_in c) t }
    ensures { ContentSet (lent rows.now leaves.old slots.old) (lent rows.now leaves.new slots.new) z result.sizes k.version (enter address_size (slots_of slots.old) a (content_in c)) }
{
    adjust(leaves, t);
    let entries = indexlet::enter(slots, z.entries, a, at, c);
    let sizes = Sizes {
        entries,
        outside: z.outside + t.join as usize - t.leave as usize,
        ..z
    };
    Placed { sizes, at: t.at }
}
