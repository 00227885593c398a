// A write set's locks: tests, lock, unlock and install, one address after the other.
ghost use Rattle.std.specs.Prelude.{◌≡◌, false, ℕ, ◌+◌, ◌^◌, ◌<◌, length};
ghost use Rattle.lists.specs.Tests.{pick};
ghost use Rattle.lists.specs.Rows.{any, keys, Rising};
ghost use Rattle.spec.specs.Widths.{address_size};
ghost use Rattle.spec.specs.Slots.{slot_count, is_idle, entries, content_of};
ghost use Rattle.spec.specs.Slots as model;
ghost use Rattle.spec.specs.Maps.{held_by_other, lock_row, unlock_key, waiting_since, install_row, lock_all, unlock_all, install_all};
ghost use Rattle.laws.specs.MapLaws.{Installable, installed_as};
ghost use Rattle.sets.specs.Writes.{entry_in, writes_of};
ghost use Rattle.indexlet.specs.Words.{content_in, slots_of};
ghost use Rattle.indexlet.specs.Promises as indexlet;
ghost use Rattle.index.specs.Views as index;
ghost use Rattle.map.specs.Views.{lent, map_of};
ghost use Rattle.map.specs.MapHeld.{Tables, MapHeld};
ghost use Rattle.map.specs.Entries.{MapBecomes, ContentSet};
ghost use Rattle.map.specs.WriteWalks.{Writing, write_at};
ghost use Rattle.map.specs.LockLaws.{held_by, holding, Lockable};
ghost use Rattle.map.specs.AddressCounts.{entryless, unknown, Waits, Addressed, WaitsBeyond, AddressedBeyond, Counted};

use crate::entries::Placed;
use crate::{Leaves, Records, Sizes, Slots, entries, holders};
use counters::Counters;
use index::leaves;
use phantomlet::recount;
use sets::writes::Entry;
use sets::{WriteSet, writes};
use spec::{Address, MAP_LIMIT, WAITING_LIMIT};

// The address of row i.
fn key_at(ws: &WriteSet, n: usize, i: usize) -> Address
    requires writing { Writing ws.now n }
    requires i_lt_n { i < n }
    ensures { result ≡ (write_at ws.now i).key }
{
    writes::write_at(ws, i).address
}

// Worker w has the lock.
fn by_own(c: indexlet::Content, w: u64) -> bool
    ensures { result ≡ held_by w (content_in c) }
{
    holders::holder(c) == Some(w)
}

// Another worker has the lock of the address in row i.
fn held_at(slots: &Slots, ws: &WriteSet, n: usize, i: usize, w: u64) -> bool
    requires slots_held { indexlet.SlotsHeld slots.now }
    requires writing { Writing ws.now n }
    requires i_lt_n { i < n }
    ensures { result ≡ held_by_other w (content_of (slots_of slots.now) (write_at ws.now i).key) }
{
    let a = key_at(ws, n, i);
    holders::locked_by_other(slots, a, w)
}

// Another worker has the lock of an address of the write set (refusal 9).
pub fn held(slots: &Slots, ws: &WriteSet, n: usize, w: u64) -> bool
    requires slots_held { indexlet.SlotsHeld slots.now }
    requires writing { Writing ws.now n }
    ensures { result ≡ any (λ (k : ℕ). held_by_other w (content_of (slots_of slots.now) k)) (keys (writes_of ws.now n)) }
{
    for i in 0..n {
        if held_at(slots, ws, n, i, w) {
            return true;
        }
    }
    false
}

// The content with another lock, for a write of this kind.
fn with_lock(c: indexlet::Content, lock: u64, kind: u64) -> indexlet::Content
    ensures { content_in result ≡ holding lock kind (content_in c) }
{
    indexlet::Content {
        lock,
        forput: kind,
        ..c
    }
}

// Worker w locks the address in row i.
fn lock_one(
    leaves: &mut Leaves,
    slots: &mut Slots,
    rows: &Records,
    ws: &WriteSet,
    z: Sizes,
    k: Counters,
    n: usize,
    i: usize,
    w: u64,
    near: usize,
) -> Placed
    requires tables { Tables (lent rows.now leaves.old slots.old) z k.version }
    requires writing { Writing ws.now n }
    requires i_lt_n { (i < n) × (w + 1 < 2 ^ 64) × (length (entries (slots_of slots.old)) < slot_count) }
    ensures { ContentSet (lent rows.now leaves.old slots.old) (lent rows.now leaves.new slots.new) z result.sizes k.version (lock_row address_size w (slots_of slots.old) (write_at ws.now i)) }
{
    let row = writes::write_at(ws, i);
    let a = row.address;
    let at = indexlet::find(slots, a);
    let old = indexlet::content_at(slots, at);
    let c = with_lock(old, w + 1, row.write.kind());
    let leaf = leaves::find_near(leaves, z.leaves, a, near);
    let t = entries::terms(rows, leaves, z, a, old, c, leaf);
    entries::set_content(leaves, slots, rows, z, k, a, at, c, t)
}

// Worker w's lock on the address in row i goes, if w has it.
fn unlock_one(
    leaves: &mut Leaves,
    slots: &mut Slots,
    rows: &Records,
    ws: &WriteSet,
    z: Sizes,
    k: Counters,
    n: usize,
    i: usize,
    w: u64,
    near: usize,
) -> Placed
    requires tables { Tables (lent rows.now leaves.old slots.old) z k.version }
    requires writing { Writing ws.now n }
    requires i_lt_n { i < n }
    ensures { ContentSet (lent rows.now leaves.old slots.old) (lent rows.now leaves.new slots.new) z result.sizes k.version (unlock_key address_size w (slots_of slots.old) (write_at ws.now i).key) }
{
    let a = key_at(ws, n, i);
    let at = indexlet::find(slots, a);
    let old = indexlet::content_at(slots, at);
    if by_own(old, w) {
        let c = with_lock(old, 0, 0);
        let leaf = leaves::find_near(leaves, z.leaves, a, near);
        let t = entries::terms(rows, leaves, z, a, old, c, leaf);
        return entries::set_content(leaves, slots, rows, z, k, a, at, c, t);
    }
    Placed { sizes: z, at: near }
}

// The install since which an address waits, once install t has left a write there: where one waits, its waiting goes on.
fn waiting_since(t: u64, old: indexlet::Content) -> u64
    ensures { result ≡ waiting_since t (content_in old).pending }
{
    if old.kind == 0 {
        return t;
    }
    old.since
}

// What install t says of an address, where `old` was said: the write is pending under the commit number, and no lock is
// left.
fn installed(r: Entry, number: u64, t: u64, old: indexlet::Content) -> indexlet::Content
    ensures { content_in result ≡ installed_as number t (entry_in r) (content_in old) }
{
    indexlet::Content {
        kind: r.write.kind(),
        payload: r.write.payload(),
        commit: number,
        since: waiting_since(t, old),
        lock: 0,
        forput: 0,
    }
}

// The write of row i is installed under the commit number, by install t.
fn install_one(
    leaves: &mut Leaves,
    slots: &mut Slots,
    rows: &Records,
    ws: &WriteSet,
    z: Sizes,
    k: Counters,
    n: usize,
    i: usize,
    number: u64,
    t: u64,
    near: usize,
) -> Placed
    requires tables { Tables (lent rows.now leaves.old slots.old) z k.version }
    requires writing { Writing ws.now n }
    requires i_lt_n { (i < n) × (is_idle (content_of (slots_of slots.old) (write_at ws.now i).key) ≡ false) }
    ensures { ContentSet (lent rows.now leaves.old slots.old) (lent rows.now leaves.new slots.new) z result.sizes k.version (install_row address_size number t (slots_of slots.old) (write_at ws.now i)) }
{
    let row = writes::write_at(ws, i);
    let a = row.address;
    let at = indexlet::find(slots, a);
    let old = indexlet::content_at(slots, at);
    let c = installed(row, number, t, old);
    let leaf = leaves::find_near(leaves, z.leaves, a, near);
    let t = entries::terms(rows, leaves, z, a, old, c, leaf);
    entries::set_content(leaves, slots, rows, z, k, a, at, c, t)
}

// The three loops below stay three: a step lent to one loop as a closure would borrow the leaves and the slots that the loop changes.

// Worker w locks the addresses of the write set, by rising address. The tests of refusals 9 to 11 come before.
pub fn lock_all(
    leaves: &mut Leaves,
    slots: &mut Slots,
    rows: &Records,
    ws: &WriteSet,
    z: Sizes,
    k: Counters,
    n: usize,
    w: u64,
) -> Sizes
    requires map_held { MapHeld (lent rows.now leaves.old slots.old) z k.version }
    requires writing { Writing ws.now n }
    requires w_bound { w + 1 < 2 ^ 64 }
    requires lockable { Lockable (map_of (lent rows.now leaves.old slots.old) z) (writes_of ws.now n) }
    ensures { MapBecomes (lent rows.now leaves.new slots.new) result k.version (lock_all w (map_of (lent rows.now leaves.old slots.old) z) (writes_of ws.now n)) }
{
    let mut placed = Placed { sizes: z, at: 0 };
    for i in 0..n {
        placed = lock_one(leaves, slots, rows, ws, placed.sizes, k, n, i, w, placed.at);
    }
    placed.sizes
}

// The locks that worker w has on the addresses of the write set go.
pub fn unlock_all(
    leaves: &mut Leaves,
    slots: &mut Slots,
    rows: &Records,
    ws: &WriteSet,
    z: Sizes,
    k: Counters,
    n: usize,
    w: u64,
) -> Sizes
    requires map_held { MapHeld (lent rows.now leaves.old slots.old) z k.version }
    requires writing { Writing ws.now n }
    ensures { MapBecomes (lent rows.now leaves.new slots.new) result k.version (unlock_all w (map_of (lent rows.now leaves.old slots.old) z) (keys (writes_of ws.now n))) }
{
    let mut placed = Placed { sizes: z, at: 0 };
    for i in 0..n {
        placed = unlock_one(leaves, slots, rows, ws, placed.sizes, k, n, i, w, placed.at);
    }
    placed.sizes
}

// The writes of the write set are pending from now on, under the commit number, left by install t, and its locks go.
pub fn install_all(
    leaves: &mut Leaves,
    slots: &mut Slots,
    rows: &Records,
    ws: &WriteSet,
    z: Sizes,
    k: Counters,
    n: usize,
    number: u64,
    t: u64,
) -> Sizes
    requires map_held { MapHeld (lent rows.now leaves.old slots.old) z k.version }
    requires writing { Writing ws.now n }
    requires installable { Installable (slots_of slots.old) (writes_of ws.now n) }
    ensures { MapBecomes (lent rows.now leaves.new slots.new) result k.version (install_all number t (map_of (lent rows.now leaves.old slots.old) z) (writes_of ws.now n)) }
{
    let mut placed = Placed { sizes: z, at: 0 };
    for i in 0..n {
        placed = install_one(
            leaves,
            slots,
            rows,
            ws,
            placed.sizes,
            k,
            n,
            i,
            number,
            t,
            placed.at,
        );
    }
    placed.sizes
}

// 1 if the address in row i has no entry.
fn entryless_at(slots: &Slots, ws: &WriteSet, n: usize, i: usize) -> usize
    requires slots_held { indexlet.SlotsHeld slots.now }
    requires writing { Writing ws.now n }
    requires i_lt_n { i < n }
    ensures { result ≡ pick (entryless slots.now (write_at ws.now i).key) 1 0 }
{
    let a = key_at(ws, n, i);
    let at = indexlet::find(slots, a);
    let c = indexlet::content_at(slots, at);
    if indexlet::idle(c) {
        return 1;
    }
    0
}

// How many addresses are waiting or locked, those of the write set included (refusal 10); `entries` is the number of
// entries.
fn waiting_with(slots: &Slots, ws: &WriteSet, n: usize, entries: usize) -> usize
    requires slots_held { indexlet.SlotsHeld slots.now }
    requires entries_value { entries ≡ length (model.entries (slots_of slots.now)) }
    requires writing { Writing ws.now n }
    requires rising { Rising (writes_of ws.now n) }
    ensures { Waits slots.now ws.now n result }
{
    let mut sum = entries;
    for i in 0..n {
        sum += entryless_at(slots, ws, n, i);
    }
    sum
}

// Whether they are too many (refusal 10). If even all addresses of the write set as new ones fit, nothing is searched.
pub fn waits_beyond(slots: &Slots, ws: &WriteSet, n: usize, entries: usize) -> bool
    requires slots_held { indexlet.SlotsHeld slots.now }
    requires entries_value { entries ≡ length (model.entries (slots_of slots.now)) }
    requires writing { Writing ws.now n }
    requires rising { Rising (writes_of ws.now n) }
    ensures { WaitsBeyond slots.now ws.now n result }
{
    if entries + n <= WAITING_LIMIT {
        return false;
    }
    WAITING_LIMIT < waiting_with(slots, ws, n, entries)
}

// 1 if the address in row i has no entry and the index lacks it.
fn unknown_at(
    rows: &Records,
    slots: &Slots,
    ws: &WriteSet,
    records: usize,
    n: usize,
    i: usize,
) -> usize
    requires records_sorted { index.RecordsSorted rows.now records }
    requires slots_held { indexlet.SlotsHeld slots.now }
    requires writing { Writing ws.now n }
    requires i_lt_n { i < n }
    ensures { result ≡ pick (unknown rows.now records slots.now (write_at ws.now i).key) 1 0 }
{
    let a = key_at(ws, n, i);
    if recount::lacks(rows, records, a) {
        return entryless_at(slots, ws, n, i);
    }
    0
}

// How many addresses the index, the indexlet and the write set have together (refusal 11).
fn addresses_with(rows: &Records, slots: &Slots, ws: &WriteSet, n: usize, z: Sizes) -> usize
    requires counted { Counted rows.now slots.now z }
    requires writing { Writing ws.now n }
    requires rising { Rising (writes_of ws.now n) }
    ensures { Addressed rows.now slots.now ws.now z n result }
{
    let mut sum = z.records + z.outside;
    for i in 0..n {
        sum += unknown_at(rows, slots, ws, z.records, n, i);
    }
    sum
}

// Whether they are too many (refusal 11). If even all addresses of the write set as new ones fit, nothing is searched.
pub fn addresses_beyond(rows: &Records, slots: &Slots, ws: &WriteSet, n: usize, z: Sizes) -> bool
    requires counted { Counted rows.now slots.now z }
    requires writing { Writing ws.now n }
    requires rising { Rising (writes_of ws.now n) }
    ensures { AddressedBeyond rows.now slots.now ws.now z n result }
{
    if z.records + z.outside + n <= MAP_LIMIT {
        return false;
    }
    MAP_LIMIT < addresses_with(rows, slots, ws, n, z)
}
