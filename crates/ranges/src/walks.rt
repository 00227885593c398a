// The walk of a scan: the records of the index and the worker's own writes together, by rising address. At one address
// the write decides.
ghost use Rattle.std.specs.Prelude.{◌≡◌, ◌+◌, ◌<◌, ◌≤◌, length};
ghost use Rattle.lists.specs.Tests.{less};
ghost use Rattle.buffers.specs.Buffers.{buffers};
ghost use Rattle.ranges.specs.Scanning.{seen_by};
ghost use Rattle.ranges.specs.Walks.{ground, log_row, rest, Walks, Nears, Keeps, Inside, Stands, GoesOn, index_turn, own_turn, Fits, Shows, RecordsFit, Fills};

use queries::View;
use sets::reads::Observed;
use sets::writes::{Entry, Write};
use sets::{ReadSet, WriteSet, reads, writes};
use spec::{Address, OWNERS, PayloadWords, RecordWords};

// Where the walk ends: places of the records and of the worker's writes.
#[derive(Clone, Copy)]
pub struct Bounds {
    pub to: usize,
    pub end: usize,
}

// A record that is shown.
#[derive(Clone, Copy)]
pub struct Shown {
    pub address: Address,
    pub payload: PayloadWords,
}

// One turn: the places after it, and what is shown, if anything is.
#[derive(Clone, Copy)]
pub struct Turn {
    pub i: usize,
    pub j: usize,
    pub shown: Option<Shown>,
}

fn of_index(s: Observed, i: usize, j: usize) -> Turn
    ensures { result ≡ index_turn s i j }
{
    let shown = match s.current {
        Some(r) => Some(Shown {
            address: s.address,
            payload: r.payload,
        }),
        None => None,
    };
    Turn { i, j, shown }
}

fn of_write(e: Entry, i: usize, j: usize) -> Turn
    ensures { result ≡ own_turn e i j }
{
    let shown = match e.write {
        Write::Put(payload) => Some(Shown {
            address: e.address,
            payload,
        }),
        Write::Deletion => None,
    };
    Turn { i, j, shown }
}

// What comes next at place i of the records and place j of the writes; s stands at place i, unless the walk is past the last.
fn next(writes: &WriteSet, b: Bounds, s: Observed, i: usize, j: usize) -> Turn
    requires nears { Nears writes.now b }
    requires inside { Inside b i j }
    requires j_bound { i + j < b.to + b.end }
    ensures { GoesOn writes.now b s i j result }
{
    if b.end <= j {
        return of_index(s, i + 1, j);
    }
    let e = writes::write_at(writes, j);
    if b.to <= i {
        return of_write(e, i, j + 1);
    }
    if s.address < e.address {
        return of_index(s, i + 1, j);
    }
    if e.address < s.address {
        return of_write(e, i, j + 1);
    }
    of_write(e, i + 1, j + 1)
}

// Stands past the last place, where it is not looked at.
fn nothing() -> Observed {
    Observed {
        address: 0,
        current: None,
        kept: RecordWords {
            payload: PayloadWords { value: 0, owner: 0 },
            commit: 0,
        },
    }
}

// The record at place i of the index, unless that is past the walk's last.
fn indexed(view: View, to: usize, i: usize) -> Observed
    requires { to ≤ view.records }
    ensures { Stands (seen_by view.entry) to i result }
{
    if i < to { view.seen_at(i) } else { nothing() }
}

// The record in row first + i of the read set, unless that is past the walk's last.
fn logged(reads: &ReadSet, first: usize, to: usize, i: usize) -> Observed
    requires { Keeps reads.now first to }
    ensures { Stands (log_row reads.now first) to i result }
{
    if i < to {
        reads::read_at(reads, first + i)
    } else {
        nothing()
    }
}

// How many records the walk shows from place `from` of the index and place `start` of the writes on.
fn count_shown(view: View, writes: &WriteSet, b: Bounds, from: usize, start: usize) -> usize
    requires walks { Walks (ground (seen_by view) writes.now b) }
    requires to_le_records { b.to ≤ view.records }
    requires inside { Inside b from start }
    ensures { result ≡ length (rest (ground (seen_by view.entry) writes.now b) from start) }
{
    // One of the two places goes on, or both: no range gives them.
    let mut i = from;
    let mut j = start;
    let mut count = 0;
    while i + j < b.to + b.end {
        let s = indexed(view, b.to, i);
        let x = next(writes, b, s, i, j);
        count += usize::from(x.shown.is_some());
        i = x.i;
        j = x.j;
    }
    count
}

// Whether the walk over the index shows more than `most`. Each place of the index and of the writes shows
// at most one, so they are counted only where the places are more.
pub fn exceeds(
    view: View,
    writes: &WriteSet,
    b: Bounds,
    from: usize,
    start: usize,
    most: usize,
) -> bool
    requires walks { Walks (ground (seen_by view) writes.now b) }
    requires to_le_records { b.to ≤ view.records }
    requires inside { Inside b from start }
    ensures { result ≡ less most (length (rest (ground (seen_by view.entry) writes.now b) from start)) }
{
    if (b.to - from) + (b.end - start) <= most {
        return false;
    }
    most < count_shown(view, writes, b, from, start)
}

// Writes what is shown, if anything is, behind the first `at` places. Answers how many are written now.
fn show(
    addresses: &mut [Address],
    values: &mut [u64],
    owners: &mut [u16],
    at: usize,
    x: Option<Shown>,
) -> usize
    requires { Fits (buffers addresses.old values.old owners.old) at x }
    ensures { Shows (buffers addresses.old values.old owners.old) at x
        (buffers addresses.new values.new owners.new) result }
{
    let Some(s) = x else {
        return at;
    };
    addresses[at] = s.address;
    values[at] = s.payload.value;
    owners[at] = (s.payload.owner % OWNERS) as u16;
    at + 1
}

// Writes what the walk shows, addresses, values and owners, from the first place on. Answers how many. The index's records are
// those that the scan has just logged, from row `first` of the read set on, so that none is looked up again.
pub fn fill(
    addresses: &mut [Address],
    values: &mut [u64],
    owners: &mut [u16],
    reads: &ReadSet,
    writes: &WriteSet,
    first: usize,
    b: Bounds,
    start: usize,
) -> usize
    requires walks { Walks (ground (log_row reads.now first) writes.now b) }
    requires keeps { Keeps reads.now first b.to }
    requires inside { Inside b 0 start }
    requires records_fit { RecordsFit (buffers addresses.old values.old owners.old) (rest (ground (log_row reads.now first) writes.now b) 0 start) }
    ensures { Fills (buffers addresses.old values.old owners.old)
        (rest (ground (log_row reads.now first) writes.now b) 0 start)
        (buffers addresses.new values.new owners.new) result }
{
    // One of the two places goes on, or both: no range gives them.
    let mut i = 0;
    let mut j = start;
    let mut at = 0;
    while i + j < b.to + b.end {
        let s = logged(reads, first, b.to, i);
        let x = next(writes, b, s, i, j);
        at = show(addresses, values, owners, at, x.shown);
        i = x.i;
        j = x.j;
    }
    at
}
