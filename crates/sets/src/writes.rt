// A write set (document 01: the edits). A row: the address, the kind of the write (1: a put, else a deletion), its
// value and its owner, by rising address.
ghost use Rattle.std.specs.Prelude.{◌≡◌, ◌⊎◌, true, ◌+◌, ◌-◌, ◌<◌, ◌≤◌, set};
ghost use Rattle.lists.specs.Tests.{present};
ghost use Rattle.lists.specs.Rows.{look};
ghost use Rattle.lists.specs.Shifts.{moved};
ghost use Rattle.spec.specs.Widths.{addresses};
ghost use Rattle.spec.specs.Records.{limits};
ghost use Rattle.sets.specs.Writes.{edit_in, kind_of, given_by, write_of, row_words, line_at, words_of, writes_of, found_in, WriteSetHeld, WriteSetOrdered, WritesBecome, PutsWrite, GivesWrite};
ghost use Rattle.sets.specs.WritePlaces.{PlaceOf, WritesHave};

use crate::WriteSet;
use spec::{Address, PayloadWords};

// A write: a put with what it gives, or a deletion.
#[derive(Clone, Copy)]
pub enum Write {
    Put(PayloadWords),
    Deletion,
}

// A row of a write set.
#[derive(Clone, Copy)]
pub struct Entry {
    pub address: Address,
    pub write: Write,
}

// A row as it stands in words: the kind is 1 (a put) or 2 (a deletion).
#[derive(Clone, Copy)]
struct WriteRow {
    address: u64,
    kind: u64,
    payload: PayloadWords,
}

impl Write {
    // Its kind as a word.
    pub fn kind(self) -> u64
        ensures { result ≡ kind_of self }
    {
        match self {
            Write::Put(_) => 1,
            Write::Deletion => 2,
        }
    }

    // What it gives: a deletion gives nothing.
    pub fn payload(self) -> PayloadWords
        ensures { result ≡ given_by self }
    {
        match self {
            Write::Put(payload) => payload,
            Write::Deletion => PayloadWords { value: 0, owner: 0 },
        }
    }
}

impl WriteRow {
    // The words of a write at an address.
    fn of(a: Address, write: Write) -> WriteRow
        ensures { result ≡ row_words a write }
    {
        WriteRow {
            address: a as u64,
            kind: write.kind(),
            payload: write.payload(),
        }
    }

    // The write that the words say.
    fn write(self) -> Write
        ensures { edit_in result ≡ write_of self.kind self.payload }
    {
        if self.kind == 1 {
            Write::Put(self.payload)
        } else {
            Write::Deletion
        }
    }
}

// Row i. Only this function and the next touch words.
fn get(writes: &WriteSet, i: usize) -> WriteRow
    requires { i < limits.write_limit }
    ensures { result ≡ line_at writes.now i }
{
    let row = writes[i];
    let payload = PayloadWords {
        value: row[2],
        owner: row[3],
    };
    WriteRow {
        address: row[0],
        kind: row[1],
        payload,
    }
}

// Another row at place i.
fn store(writes: &mut WriteSet, i: usize, r: WriteRow)
    requires { i < limits.write_limit }
    ensures { writes.new ≡ set writes.old i (words_of r) }
{
    writes[i] = [r.address, r.kind, r.payload.value, r.payload.owner];
}

// Moves the rows from place p on up by one.
fn raise(writes: &mut WriteSet, n: usize, p: usize)
    requires write_set_held { WriteSetHeld writes.old }
    requires p_le_n { (p ≤ n) × (n < limits.write_limit) }
    ensures { WritesBecome (moved writes.old p (p + 1) (n - p)) writes.new }
{
    writes.copy_within(p..n, p + 1);
}

// Puts a row in at place p, before the rows that stand there and after it.
fn insert(writes: &mut WriteSet, n: usize, p: usize, r: WriteRow)
    requires write_set_held { WriteSetHeld writes.old }
    requires p_le_n { (p ≤ n) × (n < limits.write_limit) × (r.address < addresses) }
    ensures { WritesBecome (set (moved writes.old p (p + 1) (n - p)) p (words_of r)) writes.new }
{
    raise(writes, n, p);
    store(writes, p, r);
}

// How many of the n writes have an address below a: where a scan from a on begins.
pub fn writes_below(writes: &WriteSet, n: usize, a: Address) -> usize
    requires { WriteSetOrdered writes.now n }
    ensures { PlaceOf writes.now n a result }
{
    let key = a as u64;
    for i in 0..n {
        if key <= get(writes, i).address {
            return i;
        }
    }
    n
}

// Whether the write at place p is that of the address.
fn stands(writes: &WriteSet, n: usize, a: Address, p: usize) -> bool
    requires write_set_ordered { WriteSetOrdered writes.now n }
    requires place_of { PlaceOf writes.now n a p }
    ensures { WritesHave writes.now n a result }
{
    p < n && get(writes, p).address == a as u64
}

// The worker's own write at an address, if there is one.
pub fn find_write(writes: &WriteSet, n: usize, a: Address) -> Option<Write>
    requires { WriteSetOrdered writes.now n }
    ensures { found_in result ≡ look (writes_of writes.now n) a }
{
    let p = writes_below(writes, n, a);
    if stands(writes, n, a, p) {
        Some(get(writes, p).write())
    } else {
        None
    }
}

// Puts a write among the n writes, in place of one at the same address. Answers how many there are now.
pub fn put_write(writes: &mut WriteSet, n: usize, a: Address, write: Write) -> usize
    requires write_set_ordered { WriteSetOrdered writes.old n }
    requires fact { (n < limits.write_limit) ⊎ (present (look (writes_of writes.old n) a) ≡ true) }
    ensures { PutsWrite writes.old n a write writes.new result }
{
    let p = writes_below(writes, n, a);
    let line = WriteRow::of(a, write);
    if stands(writes, n, a, p) {
        store(writes, p, line);
        return n;
    }
    insert(writes, n, p, line);
    n + 1
}

// Write i, by rising address.
pub fn write_at(writes: &WriteSet, i: usize) -> Entry
    requires write_set_held { WriteSetHeld writes.now }
    requires i_lt_write_limit { i < limits.write_limit }
    ensures { GivesWrite writes.now i result }
{
    let r = get(writes, i);
    Entry {
        address: r.address as Address,
        write: r.write(),
    }
}
