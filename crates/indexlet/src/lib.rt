// The indexlet: 256 slots in lent rows. A row of words is a slot: its key, its overflow count, what is said of the key. Behind the
// slots is a filter, which tells at once of most addresses that they have no entry, and of others where it is; and behind that
// a bitmap of the slots that have an entry, so that a walk over the slots passes the others.
// The promises speak of the model's slots (`slots_of`, which reads the words) and of what the model does to them.
#![tactic(auto)]

ghost use Rattle.std.specs.Prelude.{◌≡◌, true, false, ◌+◌, ◌-◌, ◌*◌, ◌/◌, ◌%◌, ◌^◌, ◌<◌, ◌≤◌, length, get_or};
ghost use Rattle.std.specs.Int.Count.{count_trailing_zeros};
ghost use Rattle.spec.specs.Widths.{address_size};
ghost use Rattle.spec.specs.Slots.{slot_count, home_slot, is_idle, vacant, holds, empty_slot, entries};
ghost use Rattle.spec.specs.Slots as model;
ghost use Rattle.laws.specs.Probes.{gap, First};
ghost use Rattle.laws.specs.SlotLaws.{EntryRoom};
ghost use Rattle.indexlet.specs.Words.{content_in, slot_in, row_at, saying, store, slots_of};
ghost use Rattle.indexlet.specs.Filters.{bucket_count, bucket_of, cell_at, cell_put};
ghost use Rattle.indexlet.specs.Bits.{bit, rest};
ghost use Rattle.indexlet.specs.Bitmaps.{word_bits, bitmap_at, bitmap_put, Turns, word_end, BitsFrom};
ghost use Rattle.indexlet.specs.Promises.{Sized, SlotsHeld, SlotsBecome, Going, shifted, Countable, SlotsFresh, IsSlot, Looks, unsaid, content_at, Finds, TakenOut, TakenIn, Enters, Stands, sought};

use spec::{Address, PayloadWords};

// How many slots there are, and how many words a slot has.
pub const SLOTS: usize = 256;

pub const SLOT_WORDS: usize = 9;

// How many buckets the filter has, and how many of their cells stand in a row.
const BUCKETS: usize = 2048;

const ROW_CELLS: usize = 8;

// The row of the bitmap, behind those of the slots and of the filter.
const BITMAP_ROW: usize = SLOTS + BUCKETS / ROW_CELLS;

// How many slots have their bit in a word of it.
const WORD_BITS: usize = 64;

// All rows.
pub const SLOT_ROWS: usize = BITMAP_ROW + 1;

pub type Slots = [[u64; SLOT_WORDS]; SLOT_ROWS];

// What is said of a key: a pending write (kind 0: none, 1: a put, else a deletion), what it gives and its commit number, the
// install since which the key waits, the lock (0: free, else its holder and one more), and whether the lock is for a put (1) or not.
#[derive(Clone, Copy)]
pub struct Content {
    pub kind: u64,
    pub payload: PayloadWords,
    pub commit: u64,
    pub since: u64,
    pub lock: u64,
    pub forput: u64,
}

// A row of words. It has an entry if it says anything.
#[derive(Clone, Copy)]
pub struct Slot {
    pub key: u64,
    pub content: Content,
    pub overflow: u64,
}

// What a search finds: what is said of the address, and how many slots the search examined.
#[derive(Clone, Copy)]
pub struct Looked {
    pub content: Content,
    pub examined: usize,
}

// Where a search ends: at the slot with the entry, or at 256; and how many slots it examined.
#[derive(Clone, Copy)]
struct Sought {
    at: usize,
    examined: usize,
}

// Neither waiting nor locked.
pub fn idle(c: Content) -> bool
    ensures { result ≡ is_idle (content_in c) }
{
    c.kind == 0 && c.lock == 0
}

// The slot has the entry of the address. The key is compared first: nearly always that decides, so it is guessed right.
fn holds_key(s: Slot, a: Address) -> bool
    ensures { result ≡ holds a (slot_in s) }
{
    s.key == a as u64 && !idle(s.content)
}

// The row of slot i. Only this function, the next, and those of cells and of the bitmap touch words.
fn get(t: &Slots, i: usize) -> Slot
    requires { i < slot_count }
    ensures { result ≡ row_at t.now i }
{
    let [
        key,
        overflow,
        kind,
        lock,
        forput,
        value,
        owner,
        commit,
        since,
    ] = t[i];
    let content = Content {
        kind,
        payload: PayloadWords { value, owner },
        commit,
        since,
        lock,
        forput,
    };
    Slot {
        key,
        content,
        overflow,
    }
}

// Another row at slot i.
fn put(t: &mut Slots, i: usize, s: Slot)
    requires { i < slot_count }
    ensures { t.new ≡ store t.old i s }
{
    let c = s.content;
    let v = c.payload;
    t[i] = [
        s.key, s.overflow, c.kind, c.lock, c.forput, v.value, v.owner, c.commit, c.since,
    ];
}

// All slots are empty. What says that a slot is empty is its content; its key is 0, and an address all the same. In the rows behind
// the slots that word is not used.
pub fn fresh_slots(t: &mut Slots)
    ensures { SlotsFresh t.new }
{
    *t = [[0; SLOT_WORDS]; SLOT_ROWS];
}

// The bucket of an address.
fn bucket(a: Address) -> usize
    ensures { result ≡ bucket_of a }
{
    (a as u64 * 2654435769 / 2097152) as usize % BUCKETS
}

// The cell of a bucket: 256 for each of its entries, and the slot that the newest of them took.
fn cell(t: &Slots, b: usize) -> u64
    requires { b < bucket_count }
    ensures { result ≡ cell_at t.now b }
{
    t[SLOTS + b / ROW_CELLS][b % ROW_CELLS + 1]
}

// Another cell.
fn put_cell(t: &mut Slots, b: usize, w: u64)
    requires { b < bucket_count }
    ensures { t.new ≡ cell_put t.old b w }
{
    t[SLOTS + b / ROW_CELLS][b % ROW_CELLS + 1] = w;
}

// The bucket of an address has one entry more, in slot i.
fn count_in(t: &mut Slots, a: Address, i: usize)
    requires { (i < slot_count) × (cell_at t.old (bucket_of a) / 256 ≤ slot_count) }
    ensures { t.new ≡ cell_put t.old (bucket_of a) ((cell_at t.old (bucket_of a) / 256 + 1) * 256 + i) }
{
    let b = bucket(a);
    let w = cell(t, b);
    put_cell(t, b, (w / 256 + 1) * 256 + i as u64);
}

// It has one less.
fn count_out(t: &mut Slots, a: Address)
    requires { 256 ≤ cell_at t.old (bucket_of a) }
    ensures { t.new ≡ cell_put t.old (bucket_of a) (cell_at t.old (bucket_of a) - 256) }
{
    let b = bucket(a);
    let w = cell(t, b);
    put_cell(t, b, w - 256);
}

// Word k of the bitmap.
fn word(t: &Slots, k: usize) -> u64
    requires { k < 4 }
    ensures { result ≡ bitmap_at t.now k }
{
    t[BITMAP_ROW][k + 1]
}

// Another word of the bitmap.
fn put_word(t: &mut Slots, k: usize, w: u64)
    requires { k < 4 }
    ensures { t.new ≡ bitmap_put t.old k w }
{
    t[BITMAP_ROW][k + 1] = w;
}

// The bit of slot i within its word.
fn bit_of(i: usize) -> u64
    ensures { result ≡ 2 ^ (i % word_bits) }
{
    1u64 << (i % WORD_BITS)
}

// Slot i has an entry now.
fn set_bit(t: &mut Slots, i: usize)
    requires { (i < slot_count) × (bit (i % word_bits) (bitmap_at t.old (i / word_bits)) ≡ 0) }
    ensures { t.new ≡ bitmap_put t.old (i / word_bits) (bitmap_at t.old (i / word_bits) + 2 ^ (i % word_bits)) }
{
    let k = i / WORD_BITS;
    let w = word(t, k);
    let m = bit_of(i);
    put_word(t, k, w + m);
}

// Slot i has none any more. A function for both, by a flag, would be no plainer.
fn clear_bit(t: &mut Slots, i: usize)
    requires { (i < slot_count) × (bit (i % word_bits) (bitmap_at t.old (i / word_bits)) ≡ 1) }
    ensures { t.new ≡ bitmap_put t.old (i / word_bits) (bitmap_at t.old (i / word_bits) - 2 ^ (i % word_bits)) }
{
    let k = i / WORD_BITS;
    let w = word(t, k);
    let m = bit_of(i);
    put_word(t, k, w - m);
}

// The bits of the slots with an entry, from this slot on, up to the end of its word: the lowest is its own.
pub fn bits_from(t: &Slots, from: usize) -> u64
    requires slots_held { SlotsHeld t.now }
    requires from_lt_slot_count { from < slot_count }
    ensures { BitsFrom false t.now from result }
{
    let w = word(t, from / WORD_BITS);
    w >> (from % WORD_BITS)
}

// The lowest bit that is set: how many slots its own is from the first of them.
pub fn lowest_bit(w: u64) -> usize
    ensures { result ≡ count_trailing_zeros 64 w }
{
    u64::trailing_zeros(w) as usize
}

// The bits without the lowest that is set.
pub fn other_bits(w: u64) -> u64
    requires { 0 < w }
    ensures { result ≡ rest w }
{
    w & (w - 1)
}

// The first slot whose bit stands in the word behind that of slot i.
pub fn word_end(i: usize) -> usize
    requires { i < slot_count }
    ensures { result ≡ word_end i }
{
    (i / WORD_BITS + 1) * WORD_BITS
}

// The row of slot i, for a walk over the slots.
pub fn slot_at(t: &Slots, i: usize) -> Slot
    requires slots_held { SlotsHeld t.now }
    requires i_lt_slot_count { i < slot_count }
    ensures { IsSlot t.now i result }
{
    get(t, i)
}

// The search rule of document 01: from the home slot h on, up to the slot with the entry or a count of 0.
fn seek(t: &Slots, a: Address, h: usize) -> Sought
    requires { h ≡ home_slot address_size a }
    ensures { result ≡ sought (slots_of t.now) a }
{
    for d in 0..SLOTS {
        let i = (h + d) % SLOTS;
        let s = get(t, i);
        if holds_key(s, a) {
            return Sought {
                at: i,
                examined: d + 1,
            };
        }
        if s.overflow == 0 {
            return Sought {
                at: SLOTS,
                examined: d + 1,
            };
        }
    }
    Sought {
        at: SLOTS,
        examined: SLOTS,
    }
}

// What is said where nothing is.
fn nothing() -> Content
    ensures { result ≡ unsaid }
{
    Content {
        kind: 0,
        payload: PayloadWords { value: 0, owner: 0 },
        commit: 0,
        since: 0,
        lock: 0,
        forput: 0,
    }
}

// What is said in slot `at`; from 256 on, nothing.
pub fn content_at(t: &Slots, at: usize) -> Content
    ensures { result ≡ content_at t.now at }
{
    if at < SLOTS {
        get(t, at).content
    } else {
        nothing()
    }
}

// The slot of an address's entry, or 256. Only the slot is answered: it comes in a register, and what is said there would come
// in memory; `content_at` reads it. The filter tells of most addresses without an entry that they have none, and of most
// entries where they are; else the slots are searched.
pub fn find(t: &Slots, a: Address) -> usize
    requires { SlotsHeld t.now }
    ensures { Finds t.now a result }
{
    let b = bucket(a);
    let w = cell(t, b);
    if w < 256 {
        return SLOTS;
    }
    let j = (w % 256) as usize;
    let s = get(t, j);
    if holds_key(s, a) {
        return j;
    }
    let h = homes::home(a);
    let f = seek(t, a, h);
    f.at
}

// How many slots lie between the home slot h and slot j.
fn passed(h: usize, j: usize) -> usize
    requires { (h < slot_count) × (j < slot_count) }
    ensures { result ≡ gap h j }
{
    (j + (SLOTS - h)) % SLOTS
}

// What is said of an address, and how many slots a search for it examines.
pub fn look_up(t: &Slots, a: Address) -> Looked
    requires { SlotsHeld t.now }
    ensures { Looks t.now a result }
{
    let at = find(t, a);
    let content = content_at(t, at);
    let h = homes::home(a);
    let examined = if at < SLOTS {
        passed(h, at) + 1
    } else {
        seek(t, a, h).examined
    };
    Looked { content, examined }
}

// The counts of n slots from this one on, up to the last slot at most: each has `up` added and `down` taken away.
fn recount(t: &mut Slots, from: usize, n: usize, up: u64, down: u64)
    requires sized { (Sized t.old) × (from < slot_count) × (from + n ≤ slot_count) }
    requires countable { Countable up down (slots_of t.old) from n }
    ensures { Going (shifted up down) t.old from t.new n }
{
    for d in 0..n {
        let s = get(t, from + d);
        let other = Slot {
            overflow: s.overflow + up - down,
            ..s
        };
        put(t, from + d, other);
    }
}

// The same of n slots from the home slot h on, where the first slot follows the last: in two parts, so that no slot's number
// is computed.
fn recount_passed(t: &mut Slots, h: usize, n: usize, up: u64, down: u64)
    requires sized { (Sized t.old) × (h < slot_count) × (n < slot_count) }
    requires countable { Countable up down (slots_of t.old) h n }
    ensures { Going (shifted up down) t.old h t.new n }
{
    if h + n <= SLOTS {
        recount(t, h, n, up, down);
    } else {
        let m = SLOTS - h;
        recount(t, h, m, up, down);
        recount(t, 0, n - m, up, down);
    }
}

// The bits of the slots without an entry, from this slot on, up to the end of its word: the lowest is its own. One function for
// these and `bits_from`, by a flag, would be no plainer.
fn free_from(t: &Slots, from: usize) -> u64
    requires slots_held { SlotsHeld t.now }
    requires from_lt_slot_count { from < slot_count }
    ensures { BitsFrom true t.now from result }
{
    let w = word(t, from / WORD_BITS);
    !w >> (from % WORD_BITS)
}

// How many slots a new entry passes from the home slot h on: those up to the first without an entry, where the first slot follows
// the last.
fn passed_by_new(t: &Slots, h: usize) -> usize
    requires slots_held { SlotsHeld t.now }
    requires h_lt_slot_count { (h < slot_count) × (length (entries (slots_of t.now)) < slot_count) }
    ensures { (First vacant (slots_of t.now) h 0 result) × (result < slot_count) }
{
    // A word of bits goes by at a time, so no range gives these places.
    let mut d = 0;
    while d < SLOTS {
        let i = (h + d) % SLOTS;
        let w = free_from(t, i);
        if w != 0 {
            return d + lowest_bit(w);
        }
        d += word_end(i) - i;
    }
    0
}

// Slot i says c of the address, and its count stays.
fn say_at(t: &mut Slots, i: usize, a: Address, c: Content)
    requires { i < slot_count }
    ensures { t.new ≡ store t.old i (saying a c (row_at t.old i)) }
{
    let own = Slot {
        key: a as u64,
        content: c,
        ..get(t, i)
    };
    put(t, i, own);
}

// A new entry takes the first empty slot from the home slot h, and each slot passed adds one. Answers the slot. Most take the home
// slot itself.
fn take(t: &mut Slots, a: Address, h: usize, c: Content) -> usize
    requires slots_held { SlotsHeld t.old }
    requires h_value { h ≡ home_slot address_size a }
    requires t_len_bound { length (entries (slots_of t.old)) < slot_count }
    requires c_value { is_idle (content_in c) ≡ false }
    ensures slots_become { (SlotsBecome t.old t.new (model.take address_size (slots_of t.old) a (content_in c))) × (result < slot_count) }
    ensures turns { Turns true false (slots_of t.old) (model.take address_size (slots_of t.old) a (content_in c)) result }
{
    if idle(get(t, h).content) {
        say_at(t, h, a, c);
        return h;
    }
    let d = passed_by_new(t, h);
    recount_passed(t, h, d, 1, 0);
    let i = (h + d) % SLOTS;
    say_at(t, i, a, c);
    i
}

// The entry of an address, which stands `passed` slots after the home slot h, is taken out, and each slot passed subtracts
// one. Its key goes too, so that a search for it is not led to look further here.
fn release(t: &mut Slots, a: Address, h: usize, passed: usize)
    requires slots_held { SlotsHeld t.old }
    requires h_value { h ≡ home_slot address_size a }
    requires stands { Stands (slots_of t.old) a passed }
    ensures { SlotsBecome t.old t.new (model.release address_size (slots_of t.old) a) }
{
    recount_passed(t, h, passed, 0, 1);
    let i = (h + passed) % SLOTS;
    let none = Slot {
        key: 0,
        content: nothing(),
        ..get(t, i)
    };
    put(t, i, none);
}

// The entry of the address, in slot `at`, is taken out, its bit is cleared, and its bucket has one less.
fn take_out(t: &mut Slots, a: Address, at: usize)
    requires slots_held { SlotsHeld t.old }
    requires at_lt_slot_count { (at < slot_count) × (holds a (get_or (slots_of t.old) at empty_slot) ≡ true) }
    ensures { TakenOut t.old a at t.new }
{
    let h = homes::home(a);
    let n = passed(h, at);
    release(t, a, h, n);
    clear_bit(t, at);
    count_out(t, a);
}

// The address, which has no entry, gets one, its bit is set, and its bucket has one more.
fn take_in(t: &mut Slots, a: Address, c: Content)
    requires slots_held { SlotsHeld t.old }
    requires t_len_bound { (length (entries (slots_of t.old)) < slot_count) × (is_idle (content_in c) ≡ false) }
    ensures { TakenIn t.old a (content_in c) t.new }
{
    let h = homes::home(a);
    let i = take(t, a, h, c);
    set_bit(t, i);
    count_in(t, a, i);
}

// `c` is said of the address, whose entry is in slot `at`, or nowhere from 256 on: it is written, taken or taken out. `n` is the
// number of entries; the new number is returned.
pub fn enter(t: &mut Slots, n: usize, a: Address, at: usize, c: Content) -> usize
    requires slots_held { SlotsHeld t.old }
    requires n_value { n ≡ length (entries (slots_of t.old)) }
    requires entry_room { EntryRoom (slots_of t.old) a (content_in c) }
    requires finds { Finds t.old a at }
    ensures { Enters t.old a c t.new result }
{
    if idle(c) {
        if at < SLOTS {
            take_out(t, a, at);
            return n - 1;
        }
        return n;
    }
    if at < SLOTS {
        say_at(t, at, a, c);
        return n;
    }
    take_in(t, a, c);
    n + 1
}
