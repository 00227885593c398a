// Overlaps (refusal 18): whether another section shares a byte with one that a worker puts, once all its writes are laid
// over what the deciding scan logged.
ghost use Rattle.std.specs.Prelude.{◌≡◌, false, ◌-◌, ◌≤◌, min};
ghost use Rattle.lists.specs.Rows.{any};
ghost use Rattle.spec.specs.Records.{limits};
ghost use Rattle.spec.specs.Guards.{stretch, unfit, overlapped, any_put};
ghost use Rattle.sets.specs.Reads.{observed_in, reads_of, ReadSetHeld};
ghost use Rattle.sets.specs.Leaves.{scanned_in, scans_of};
ghost use Rattle.sets.specs.Writes.{writes_of, WriteSetOrdered};
ghost use Rattle.guards.specs.Promises.{of_entry, overlaps_at, overlaps_logged, RowsHeld};

use crate::scans;
use sets::leaves::Scanned;
use sets::reads::Observed;
use sets::writes::{Entry, Write};
use sets::{LeafSet, ReadSet, WriteSet, reads, writes};
use spec::Address;

// The section of m bytes at j is another one than that at a, and shares a byte with it. By differences, since sums could wrap.
fn overlaps(a: Address, len: u64, j: Address, m: u64) -> bool
    ensures { result ≡ overlaps_at a len j m }
{
    if j == a {
        false
    } else if j < a {
        ((a - j) as u64) < m
    } else {
        ((j - a) as u64) < len
    }
}

// The worker's own write is a put that overlaps the section.
fn write_overlaps(e: Entry, a: Address, len: u64) -> bool
    ensures { result ≡ of_entry (overlaps_at a len) e }
{
    match e.write {
        Write::Put(p) => overlaps(a, len, e.address, p.value),
        Write::Deletion => false,
    }
}

// One of the n writes is a put that overlaps the section.
fn own_overlap(writes: &WriteSet, n: usize, a: Address, len: u64) -> bool
    requires { WriteSetOrdered writes.now n }
    ensures { result ≡ any_put (overlaps_at a len) (writes_of writes.now n) }
{
    for i in 0..n {
        let e = writes::write_at(writes, i);
        if write_overlaps(e, a, len) {
            return true;
        }
    }
    false
}

// The logged record overlaps the section, and the worker does not write at its address. The write set is searched last,
// since that takes longest.
fn read_overlaps(writes: &WriteSet, n: usize, o: Observed, a: Address, len: u64) -> bool
    requires { WriteSetOrdered writes.now n }
    ensures { result ≡ overlaps_logged (writes_of writes.now n) a len (observed_in o) }
{
    match o.current {
        Some(r) => {
            overlaps(a, len, o.address, r.payload.value)
                && writes::find_write(writes, n, o.address).is_none()
        }
        None => false,
    }
}

// How many of the first k rows of the read set the scan logged.
fn logged_rows(s: Scanned, k: u64) -> u64
    ensures { result ≡ min s.count (k - s.from) }
{
    s.count.min(k.saturating_sub(s.from))
}

// One of the records that the scan logged overlaps the section, and the worker does not write at its address.
fn logged_overlap(
    reads: &ReadSet,
    k: usize,
    writes: &WriteSet,
    n: usize,
    s: Scanned,
    a: Address,
    len: u64,
) -> bool
    requires read_set_held { ReadSetHeld reads.now }
    requires k_le_read_limit { k ≤ limits.read_limit }
    requires write_set_ordered { WriteSetOrdered writes.now n }
    ensures { result ≡ any (overlaps_logged (writes_of writes.now n) a len) (stretch (reads_of reads.now k) (scanned_in s)) }
{
    let from = s.from as usize;
    let count = logged_rows(s, k as u64) as usize;
    for i in 0..count {
        let o = reads::read_at(reads, from + i);
        if read_overlaps(writes, n, o, a, len) {
            return true;
        }
    }
    false
}

// The write is a put that another section overlaps.
fn overlapped_write(
    reads: &ReadSet,
    k: usize,
    leafset: &LeafSet,
    m: usize,
    writes: &WriteSet,
    n: usize,
    e: Entry,
) -> bool
    requires rows_held { RowsHeld reads.now k leafset.now m writes.now n }
    requires e_value { of_entry unfit e ≡ false }
    ensures { result ≡ of_entry (overlapped (reads_of reads.now k) (scans_of leafset.now m) (writes_of writes.now n)) e }
{
    let Write::Put(p) = e.write else {
        return false;
    };
    match scans::deciding(leafset, m, e.address, p.value) {
        Some(s) => {
            own_overlap(writes, n, e.address, p.value)
                || logged_overlap(reads, k, writes, n, s, e.address, p.value)
        }
        None => false,
    }
}

// One of the n writes is a put that another section overlaps. No put is unfit.
pub fn overlapped_put(
    reads: &ReadSet,
    k: usize,
    leafset: &LeafSet,
    m: usize,
    writes: &WriteSet,
    n: usize,
) -> bool
    requires rows_held { RowsHeld reads.now k leafset.now m writes.now n }
    requires n_value { any_put unfit (writes_of writes.now n) ≡ false }
    ensures { result ≡ any_put (overlapped (reads_of reads.now k) (scans_of leafset.now m) (writes_of writes.now n)) (writes_of writes.now n) }
{
    for i in 0..n {
        let e = writes::write_at(writes, i);
        if overlapped_write(reads, k, leafset, m, writes, n, e) {
            return true;
        }
    }
    false
}
