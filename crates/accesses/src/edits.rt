// Put and remove: a worker's write set takes a write.
ghost use Rattle.std.specs.Prelude.{◌≡◌};
ghost use Rattle.spec.specs.Steps.{put, remove};
ghost use Rattle.workers.specs.Workers.{workers_of};
ghost use Rattle.sets.specs.Writes.{WriteSetOrdered, edit_in};
ghost use Rattle.map.specs.Views.{lent};
ghost use Rattle.transactions.specs.declared.Globals as global;
ghost use Rattle.transactions.specs.Views.{logs, core_of};
ghost use Rattle.transactions.specs.Ready.{Ready, Refines};
ghost use Rattle.transactions.specs.Begins.{plain_in};
ghost use Rattle.transactions.specs.CoreLaws.{Writable};
ghost use Rattle.accesses.specs.Edits.{Edits, full_at};

use map::{Leaves, Records, Slots};
use sets::writes::Write;
use sets::{LeafSets, ReadSets, WriteSet, WriteSets, writes};
use spec::{Address, PayloadWords, Refusal, WRITE_LIMIT};
use transactions::{Globals, admits};
use workers;
use workers::{Worker, Workers};

// Whether a write set of n writes has neither a write at the address nor room for one.
fn full(writes: &WriteSet, n: usize, a: Address) -> bool
    requires { WriteSetOrdered writes.now n }
    ensures { result ≡ full_at writes.now n a }
{
    n >= WRITE_LIMIT && writes::find_write(writes, n, a).is_none()
}

// Both steps.
fn edit(
    writes: &mut WriteSets,
    workers: &mut Workers,
    w: u32,
    a: Address,
    write: Write,
) -> Result<(), Refusal>
    requires { Writable writes.old (workers_of workers.old) }
    ensures { (c : global.Globals) → Edits writes.old (core_of workers.old c) w a (edit_in write) writes.new (core_of workers.new c) result }
{
    let x = admits::open(workers, w)?;
    let v = w as usize;
    let n = x.writes as usize;
    if full(&writes[v], n, a) {
        return Err(Refusal::WritesFull);
    }
    let count = writes::put_write(&mut writes[v], n, a, write);
    let y = Worker {
        writes: count as u8,
        ..x
    };
    workers::put_worker(workers, v, y);
    Ok(())
}

// Worker w puts a value at an address, for an owner.
pub fn put(
    writes: &mut WriteSets,
    workers: &mut Workers,
    rows: &Records,
    leaves: &Leaves,
    slots: &Slots,
    reads: &ReadSets,
    leafsets: &LeafSets,
    c: Globals,
    w: u32,
    a: Address,
    value: u64,
    owner: u16,
) -> Result<(), Refusal>
    requires { Ready (lent rows.now leaves.now slots.now) (logs reads.now leafsets.now writes.old) (core_of workers.old c) }
    ensures { Refines (lent rows.now leaves.now slots.now)
        (logs reads.now leafsets.now writes.old) (core_of workers.old c) (put w a (record { value = value; owner = owner }))
        (lent rows.now leaves.now slots.now)
        (logs reads.now leafsets.now writes.new) (core_of workers.new c) (plain_in result) }
{
    let payload = PayloadWords {
        value,
        owner: owner as u64,
    };
    edit(writes, workers, w, a, Write::Put(payload))
}

// Worker w removes an address.
pub fn remove(
    writes: &mut WriteSets,
    workers: &mut Workers,
    rows: &Records,
    leaves: &Leaves,
    slots: &Slots,
    reads: &ReadSets,
    leafsets: &LeafSets,
    c: Globals,
    w: u32,
    a: Address,
) -> Result<(), Refusal>
    requires { Ready (lent rows.now leaves.now slots.now) (logs reads.now leafsets.now writes.old) (core_of workers.old c) }
    ensures { Refines (lent rows.now leaves.now slots.now)
        (logs reads.now leafsets.now writes.old) (core_of workers.old c) (remove w a)
        (lent rows.now leaves.now slots.now)
        (logs reads.now leafsets.now writes.new) (core_of workers.new c) (plain_in result) }
{
    edit(writes, workers, w, a, Write::Deletion)
}
