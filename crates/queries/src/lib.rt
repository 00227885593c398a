// Looking: current records, what a scan walks over, hidden keys, and the contents. Nothing here changes an array.
#![tactic(auto)]

ghost use Rattle.std.specs.Prelude.{◌≡◌, false, ℕ, ◌<◌, ◌≤◌};
ghost use Rattle.spec.specs.Slots.{slot_count};
ghost use Rattle.spec.specs.Maps.{phantom_in};
ghost use Rattle.indexlet.specs.Bitmaps.{word_end, BitsFrom};
ghost use Rattle.index.specs.LeafPlaces.{Listed};
ghost use Rattle.map.specs.Views.{lows_of, versions_of, lent, map_of};
ghost use Rattle.map.specs.Parts.{RecordsHeld, SlotsHeld, LeavesListed, LeafListed};
ghost use Rattle.sets.specs.Writes.{entry_in};
ghost use Rattle.map.specs.WriteWalks.{Writing};
ghost use Rattle.queries.specs.Held.{RecordsHeld-prop};
ghost use Rattle.queries.specs.QueryViews.{Sees, SeesUnder, Examines, Spans, SeenAt, Meets, LeafAt, LoggedAt};
ghost use Rattle.queries.specs.NextViews.{IndexFrom, Nearer, Walked, SlotFrom, CandidateFrom, Follows};
ghost use Rattle.queries.specs.PhantomViews.{Holding, Owns, Logged, own_put, lock_only_count};

use index::{leaves, records, rows};
use indexlet::SLOTS;
use map::{Leaves, Records, Sizes, Slots};
use sets::leaves::LoggedLeaf;
use sets::reads::Observed;
use sets::writes::{Entry, Write};
use sets::{WriteSet, writes};
use spec::{Address, PayloadWords, RecordWords};

// Places from one up to, not including, another.
#[derive(Clone, Copy)]
pub struct Range {
    pub from: usize,
    pub to: usize,
}

// The current record of an address, if it has one, what a log keeps of it if not (`Observed`), and how many slots of the indexlet
// the look-up examined (request 103).
#[derive(Clone, Copy)]
pub struct Seen {
    pub current: Option<RecordWords>,
    pub kept: RecordWords,
    pub examined: usize,
}

// A record of the contents.
#[derive(Clone, Copy)]
pub struct NextRecord {
    pub address: Address,
    pub record: RecordWords,
}

// The map as it is looked at: the rows of its index, how many of them are records, and its slots, all as they should be.
#[derive(Clone, Copy)]
pub struct View<'a> {
    pub rows: &'a Records,
    pub slots: &'a Slots,
    pub records: usize,
    ghost records_held: { RecordsHeld rows.now records } by { RecordsHeld-prop rows.now records },
    ghost slots_held: { SlotsHeld slots.now },
}

// What a log keeps of an address without a record: the words of the deletion that waits there, or of nothing.
fn kept_of(c: indexlet::Content) -> RecordWords {
    if c.kind == 0 {
        return RecordWords {
            payload: PayloadWords { value: 0, owner: 0 },
            commit: 0,
        };
    }
    RecordWords {
        payload: c.payload,
        commit: c.commit,
    }
}

impl<'a> View<'a> {
    // The current record of an address of which the indexlet says c: what a pending write leaves there, else what the index has.
    fn under(self, a: Address, c: indexlet::Content) -> Option<RecordWords>
        ensures { SeesUnder self.entry.rows.now self.entry.records a c result }
    {
        match c.kind {
            0 => records::find(self.rows, self.records, a),
            1 => Some(RecordWords {
                payload: c.payload,
                commit: c.commit,
            }),
            _ => None,
        }
    }

    // The current record of an address, and how many slots a search for it examines.
    pub fn see(self, a: Address) -> Seen
        ensures { Examines self.entry.rows.now self.entry.records self.entry.slots.now a result }
    {
        let looked = indexlet::look_up(self.slots, a);
        let c = looked.content;
        let current = self.under(a, c);
        Seen {
            current,
            kept: kept_of(c),
            examined: looked.examined,
        }
    }

    // The current record alone: nothing is counted.
    pub fn current_record(self, a: Address) -> Option<RecordWords>
        ensures { Sees self.entry.rows.now self.entry.records self.entry.slots.now a result }
    {
        let at = indexlet::find(self.slots, a);
        let c = indexlet::content_at(self.slots, at);
        self.under(a, c)
    }

    // The record at place i of the index: its address, and its current record. With nothing pending there it is the row itself,
    // so nothing is searched in the index.
    pub fn seen_at(self, i: usize) -> Observed
        requires i_lt_records { i < self.records }
        ensures { SeenAt self.entry.rows.now self.entry.records self.entry.slots.now i result }
    {
        let there = rows::get(self.rows, i);
        let address = there.address as Address;
        let at = indexlet::find(self.slots, address);
        let c = indexlet::content_at(self.slots, at);
        let kept = kept_of(c);
        let current = match c.kind {
            0 => Some(RecordWords {
                payload: there.payload,
                commit: there.commit,
            }),
            1 => Some(RecordWords {
                payload: c.payload,
                commit: c.commit,
            }),
            _ => None,
        };
        Observed {
            address,
            current,
            kept,
        }
    }
}

// The places of the records from lo to hi. No method of `View`: it asks nothing of the slots.
pub fn records_between(rows: &Records, n: usize, lo: Address, hi: Address) -> Range
    requires records_held { RecordsHeld rows.now n }
    requires lo_le_hi { lo ≤ hi }
    ensures { Spans rows.now n lo hi result }
{
    let from = records::locate(rows, n, lo);
    let to = records::locate(rows, n, hi);
    if n <= to {
        return Range { from, to };
    }
    let last = rows::get(rows, to);
    if last.address == hi as u64 {
        return Range { from, to: to + 1 };
    }
    Range { from, to }
}

// The places of the leaves that meet lo to hi.
pub fn leaves_meeting(leaves: &Leaves, m: usize, lo: Address, hi: Address) -> Range
    requires leaves_listed { LeavesListed (lows_of leaves.now) m }
    requires lo_le_hi { lo ≤ hi }
    ensures { Meets (lows_of leaves.now) m lo hi result }
{
    let from = leaves::find_leaf(leaves, m, lo);
    let last = leaves::find_leaf(leaves, m, hi);
    Range { from, to: last + 1 }
}

// The place of the leaf that holds an address.
fn place_of(leaves: &Leaves, m: usize, a: Address) -> usize
    requires { Listed (lows_of leaves.now) m }
    ensures { LeafAt (lows_of leaves.now) m a result }
{
    leaves::find_leaf(leaves, m, a)
}

// The leaf at place i.
pub fn leaf(leaves: &Leaves, i: usize) -> LoggedLeaf
    requires { LeafListed (lows_of leaves.now) i }
    ensures { LoggedAt (lows_of leaves.now) (versions_of leaves.now) i result }
{
    let l = leaves::leaf_at(leaves, i);
    LoggedLeaf {
        version: l.version,
        low: l.low as Address,
    }
}

// The write is a put in the leaf at place i, at an address that the index lacks and at which no put is pending.
fn lock_only_at(view: View, leaves: &Leaves, m: usize, i: usize, e: Entry) -> bool
    requires { Listed (lows_of leaves.now) m }
    ensures { result ≡ own_put view.entry.rows.now (lows_of leaves.now) view.entry.slots.now view.entry.records m i (entry_in e) }
{
    let Write::Put(_) = e.write else {
        return false;
    };
    let p = leaves::find_leaf(leaves, m, e.address);
    if p != i {
        return false;
    }
    let at = indexlet::find(view.slots, e.address);
    let c = indexlet::content_at(view.slots, at);
    c.kind != 1 && records::find(view.rows, view.records, e.address).is_none()
}

// How many of a write set are so.
fn count_lock_only(
    view: View,
    leaves: &Leaves,
    ws: &WriteSet,
    m: usize,
    i: usize,
    count: usize,
) -> usize
    requires listed { Listed (lows_of leaves.now) m }
    requires writing { Writing ws.now count }
    ensures { result ≡ lock_only_count view.entry.rows.now (lows_of leaves.now) view.entry.slots.now view.entry.records m i ws.now count }
{
    let mut own = 0;
    for x in 0..count {
        let e = writes::write_at(ws, x);
        own += usize::from(lock_only_at(view, leaves, m, i, e));
    }
    own
}

// A logged leaf is gone, or hides a key from the worker whose locks are the addresses of the write set. The leaf is the
// one of the low that was logged with it, or it is gone. Of the keys that it hides from somebody, the worker's own puts hide
// nothing from itself.
pub fn phantom(
    rows: &Records,
    leaves: &Leaves,
    slots: &Slots,
    ws: &WriteSet,
    z: Sizes,
    n: usize,
    version: u64,
    low: Address,
) -> bool
    requires holding { Holding (lent rows.now leaves.now slots.now) z }
    requires writing { Writing ws.now n }
    requires logged { Logged (map_of (lent rows.now leaves.now slots.now) z).leaves version low }
    ensures { (w : ℕ) → Owns slots.now ws.now n w → result ≡ phantom_in (map_of (lent rows.now leaves.now slots.now) z) w version }
{
    let i = place_of(leaves, z.leaves, low);
    let l = leaves::leaf_at(leaves, i);
    if l.version != version {
        return true;
    }
    let out = l.hidden;
    if out == 0 {
        return false;
    }
    let view = View {
        rows,
        slots,
        records: z.records,
    };
    let own = count_lock_only(view, leaves, ws, z.leaves, i, n);
    (own as u64) < out
}

// The candidates below are addresses at which the next record may stand: the index has them, or the indexlet says something of
// them.

// The key, if it lies from `from` on and before the candidate; else the candidate.
fn nearer(key: Address, from: Address, best: Option<Address>) -> Option<Address>
    ensures { Nearer key from best result }
{
    match best {
        _ if key < from => best,
        Some(a) if a <= key => best,
        _ => Some(key),
    }
}

impl<'a> View<'a> {
    // The first address of the index from an address on.
    fn index_from(self, from: Address) -> Option<Address>
        ensures { IndexFrom self.entry.rows.now self.entry.records from result }
    {
        let p = records::locate(self.rows, self.records, from);
        if self.records <= p {
            return None;
        }
        let r = rows::get(self.rows, p);
        Some(r.address as Address)
    }

    // The nearest key from `from` on: `best` is that of the slots before `next`, and from there on to the end of the word the slots
    // whose bits these are have an entry.
    fn nearest_in(
        self,
        from: Address,
        best: Option<Address>,
        next: usize,
        bits: u64,
    ) -> Option<Address>
        requires { (next < slot_count) × (BitsFrom false self.slots.now next bits) × (Walked self.slots.now from next best) }
        ensures { Walked self.entry.slots.now from (word_end next) result }
    {
        // A word's bits that are set: no range gives their places.
        let mut nearest = best;
        let mut w = bits;
        while w != 0 {
            let s = indexlet::slot_at(self.slots, next + indexlet::lowest_bit(w));
            let key = s.key as Address;
            nearest = nearer(key, from, nearest);
            w = indexlet::other_bits(w);
        }
        nearest
    }

    // The first address from an address on of which the indexlet says something. Slots without an entry are not looked at.
    fn slot_from(self, from: Address) -> Option<Address>
        ensures { SlotFrom self.entry.slots.now from result }
    {
        // A word of bits goes by at a turn.
        let mut best = None;
        let mut next = 0;
        while next < SLOTS {
            let w = indexlet::bits_from(self.slots, next);
            best = self.nearest_in(from, best, next, w);
            next = indexlet::word_end(next);
        }
        best
    }

    // The first candidate from an address on.
    fn candidate_from(self, from: Address) -> Option<Address>
        ensures { CandidateFrom self.entry.rows.now self.entry.records self.entry.slots.now from result }
    {
        let a = self.index_from(from);
        match self.slot_from(from) {
            Some(b) => nearer(b, from, a),
            None => a,
        }
    }

    // The first record of the contents from an address on. A candidate without a current record is passed over.
    pub fn next_record(self, from: Address) -> Option<NextRecord>
        ensures { Follows self.entry.rows.now self.entry.records self.entry.slots.now from result }
    {
        // Nothing tells before the walk how many candidates there are.
        let mut at = from;
        while let Some(address) = self.candidate_from(at) {
            if let Some(record) = self.current_record(address) {
                return Some(NextRecord { address, record });
            }
            at = address.checked_add(1)?;
        }
        None
    }
}
