// The records: look-up, put and drop by address.
ghost use Rattle.std.specs.Prelude.{◌≡◌, ◌+◌, ◌/◌, ◌<◌, ◌≤◌, ◌∷◌, ◌++◌, length, take, drop};
ghost use Rattle.std.proofs.Math.Option.{none, some};
ghost use Rattle.lists.specs.Rows.{look, assign};
ghost use Rattle.lists.specs.Places.{place};
ghost use Rattle.spec.specs.Payloads.{record_in};
ghost use Rattle.index.specs.Views.{record_places, RecordsSorted, RecordsAre, records_of, record_from, row_of};
ghost use Rattle.index.specs.Nearing.{Leads};
ghost use Rattle.index.specs.RecordPlaces.{AtPlace};

use crate::rows::RecordRow;
use crate::{FEW, FEWER, HALF, Records, rows, search};
use spec::{Address, MAP_LIMIT, PayloadWords, RecordWords};

// Whether so many records have a smaller address. The row is read first, whether it holds a record or not, so that no branch
// depends on what it holds.
fn passes(rows: &Records, n: usize, key: u64, end: usize) -> bool
    requires records_sorted { RecordsSorted rows.now n }
    requires end_nonzero { (0 < end) × (end ≤ record_places) }
    ensures { Leads (place key (records_of rows.now n)) end result }
{
    rows::get(rows, end - 1).address < key && end <= n
}

// How many records have a smaller address: the place of the address, or where it would go. Few records take fewer steps; with
// many the end of a full index is tried first.
pub fn locate(rows: &Records, n: usize, a: Address) -> usize
    requires { RecordsSorted rows.now n }
    ensures { AtPlace rows.now n a result }
{
    let key = a as u64;
    let goes = |end: usize| passes(rows, n, key, end);
    if n < FEWER {
        search::descend(goes, FEWER / 2)
    } else if n < FEW {
        search::descend(goes, FEW / 2)
    } else if n < HALF {
        search::descend(goes, HALF / 2)
    } else if goes(MAP_LIMIT) {
        MAP_LIMIT
    } else {
        search::descend(goes, MAP_LIMIT / 2)
    }
}

// The record at an address, if there is one.
pub fn find(rows: &Records, n: usize, a: Address) -> Option<RecordWords>
    requires { RecordsSorted rows.now n }
    ensures { record_in result ≡ look (records_of rows.now n) a }
{
    let p = locate(rows, n, a);
    if n <= p {
        return None;
    }
    let r = rows::get(rows, p);
    if r.address != a as u64 {
        return None;
    }
    Some(RecordWords {
        payload: r.payload,
        commit: r.commit,
    })
}

// Puts a row in at place p, before the records that stand there and after it. Answers how many records there are now.
fn insert(rows: &mut Records, n: usize, p: usize, r: RecordRow) -> usize
    requires { (p ≤ n) × (n < record_places) }
    ensures value { (result ≡ n + 1) × (records_of rows.new (n + 1) ≡ take p (records_of rows.old n) ++ (row_of r ∷ drop p (records_of rows.old n))) }
    ensures rows_unchanged { drop result rows.new ≡ drop result rows.old }
{
    rows::move_rows(rows, p, p + 1, n - p);
    rows::store(rows, p, r);
    n + 1
}

// Puts a record at an address, in place of one that stands there. Answers how many records there are now; the rows behind
// them stay.
pub fn put(rows: &mut Records, n: usize, a: Address, payload: PayloadWords, commit: u64) -> usize
    requires records_sorted { RecordsSorted rows.old n }
    requires n_len_bound { length (assign a (some (record_from payload commit)) (records_of rows.old n)) ≤ record_places }
    ensures records_are { RecordsAre rows.new result (assign a (some (record_from payload commit)) (records_of rows.old n)) }
    ensures rows_unchanged { drop result rows.new ≡ drop result rows.old }
{
    let p = locate(rows, n, a);
    let row = RecordRow {
        address: a as u64,
        payload,
        commit,
    };
    if p < n && rows::get(rows, p).address == a as u64 {
        rows::store(rows, p, row);
        n
    } else {
        insert(rows, n, p, row)
    }
}

// Drops the record at an address, if there is one. Answers how many records there are now; the rows behind them stay.
pub fn drop(rows: &mut Records, n: usize, a: Address) -> usize
    requires { RecordsSorted rows.old n }
    ensures records_are { RecordsAre rows.new result (assign a none (records_of rows.old n)) }
    ensures rows_unchanged { drop result rows.new ≡ drop result rows.old }
{
    let p = locate(rows, n, a);
    if p < n && rows::get(rows, p).address == a as u64 {
        rows::move_rows(rows, p + 1, p, n - p - 1);
        n - 1
    } else {
        n
    }
}
