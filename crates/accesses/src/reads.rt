// Read: a worker's own write, or the current record, which its read set takes.
ghost use Rattle.std.specs.Prelude.{◌≡◌, ◌<◌};
ghost use Rattle.spec.specs.Records.{limits, payload_of, own_view};
ghost use Rattle.spec.specs.Steps.{read, found, is_open};
ghost use Rattle.workers.specs.Workers.{workers_of};
ghost use Rattle.spec.specs.Payloads.{record_in};
ghost use Rattle.sets.specs.Reads.{ReadSetHeld};
ghost use Rattle.sets.specs.Writes.{edit_in};
ghost use Rattle.map.specs.Views.{lent};
ghost use Rattle.transactions.specs.Views.{logs, core_of};
ghost use Rattle.transactions.specs.Ready.{Ready, Refines};
ghost use Rattle.transactions.specs.Admits.{Entered};
ghost use Rattle.accesses.specs.ReadSteps.{Loggable, Readable, LogsCurrent, Tells, TellsCurrent};
ghost use Rattle.accesses.specs.Answers.{told, value_in, found_by, read_answer};

use map::{Leaves, Records, Slots};
use queries::{Seen, View};
use sets::writes::Write;
use sets::{LeafSets, ReadSet, ReadSets, WriteSets, reads, writes};
use spec::{Address, OWNERS, PayloadWords, READ_LIMIT, RecordWords, Refusal};
use transactions::{Globals, admits};
use workers;
use workers::{Worker, Workers};

// A record's value, and whose section it is.
#[derive(Clone, Copy)]
pub struct ReadValue {
    pub value: u64,
    pub owner: u16,
}

// What a read finds: the record there, if there is one, and how many slots the look-up examined.
#[derive(Clone, Copy)]
pub struct Found {
    pub value: Option<ReadValue>,
    pub examined: usize,
}

// How many reads are logged now, and what the last one saw.
#[derive(Clone, Copy)]
struct Taken {
    count: usize,
    seen: Seen,
}

// A payload in words, as a read tells it: of the word for the owner, the lowest 16 bits.
impl From<PayloadWords> for ReadValue {
    ghost from_gives = { λ p v. v ≡ told p };

    fn from(p: PayloadWords) -> ReadValue {
        ReadValue {
            value: p.value,
            owner: (p.owner % OWNERS) as u16,
        }
    }
}

// What a read tells of the current record.
fn shown(seen: Option<RecordWords>) -> Option<ReadValue>
    ensures { value_in result ≡ payload_of (record_in seen) }
{
    match seen {
        Some(r) => Some(r.payload.into()),
        None => None,
    }
}

// What a read tells of the worker's own write, for which no slot is examined.
fn own(write: Write) -> Found
    ensures { found_by result ≡ found (own_view (edit_in write)) 0 }
{
    let value = match write {
        Write::Put(p) => Some(p.into()),
        Write::Deletion => None,
    };
    Found { value, examined: 0 }
}

// Logs the current record of an address, after the n rows of a read set.
fn take(reads: &mut ReadSet, view: View, n: usize, a: Address) -> Taken
    requires read_set_held { ReadSetHeld reads.old }
    requires n_lt_read_limit { n < limits.read_limit }
    ensures { LogsCurrent reads.old view.entry.rows.now view.entry.slots.now view.entry.records n a reads.new result }
{
    let seen = view.see(a);
    let count = reads::log_read(reads, n, a, seen.current, seen.kept);
    Taken { count, seen }
}

// The read of a worker that has no write at the address.
fn read_current(
    reads: &mut ReadSets,
    workers: &mut Workers,
    rows: &Records,
    slots: &Slots,
    c: Globals,
    w: u32,
    x: Worker,
    a: Address,
) -> Result<Found, Refusal>
    requires loggable { Loggable reads.old rows.now slots.now (core_of workers.old c) }
    requires entered { Entered is_open (workers_of workers.old) w x }
    ensures { TellsCurrent reads.old rows.now slots.now (core_of workers.old c) w x a reads.new (core_of workers.new c) result }
{
    let v = w as usize;
    let n = x.reads as usize;
    if n >= READ_LIMIT {
        return Err(Refusal::LogFull);
    }
    let view = View {
        rows,
        slots,
        records: c.sizes.records,
    };
    let taken = take(&mut reads[v], view, n, a);
    let y = Worker {
        reads: taken.count as u8,
        ..x
    };
    workers::put_worker(workers, v, y);
    Ok(Found {
        value: shown(taken.seen.current),
        examined: taken.seen.examined,
    })
}

// The step, over the arrays that it looks at.
fn tell(
    reads: &mut ReadSets,
    workers: &mut Workers,
    rows: &Records,
    slots: &Slots,
    writes: &WriteSets,
    c: Globals,
    w: u32,
    a: Address,
) -> Result<Found, Refusal>
    requires { Readable reads.old rows.now slots.now writes.now (core_of workers.old c) }
    ensures { Tells reads.old rows.now slots.now writes.now (core_of workers.old c) w a reads.new (core_of workers.new c) result }
{
    let x = admits::open(workers, w)?;
    let v = w as usize;
    match writes::find_write(&writes[v], x.writes as usize, a) {
        Some(write) => Ok(own(write)),
        None => read_current(reads, workers, rows, slots, c, w, x, a),
    }
}

// Worker w reads an address. Its own write is told as it stands, with no slot examined; else the current record is, and it is
// logged.
pub fn read(
    reads: &mut ReadSets,
    workers: &mut Workers,
    rows: &Records,
    leaves: &Leaves,
    slots: &Slots,
    leafsets: &LeafSets,
    writes: &WriteSets,
    c: Globals,
    w: u32,
    a: Address,
) -> Result<Found, Refusal>
    requires { Ready (lent rows.now leaves.now slots.now) (logs reads.old leafsets.now writes.now) (core_of workers.old c) }
    ensures { Refines (lent rows.now leaves.now slots.now)
        (logs reads.old leafsets.now writes.now) (core_of workers.old c) (read w a)
        (lent rows.now leaves.now slots.now)
        (logs reads.new leafsets.now writes.now) (core_of workers.new c) (read_answer result) }
{
    tell(reads, workers, rows, slots, writes, c, w, a)
}
