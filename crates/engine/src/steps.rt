// One step, whichever it is: an operation with its arguments, and its reply.
ghost use Rattle.map.specs.Views.{lent};
ghost use Rattle.transactions.specs.Views.{logs, core_of};
ghost use Rattle.transactions.specs.Ready.{Ready};
ghost use Rattle.buffers.specs.Buffers.{buffers};
ghost use Rattle.engine.specs.Performs.{performed_of, Quiet, Performs};

use accesses::reads::Found;
use accesses::{edits, reads, scans};
use commits::{aborts, installs, locks, validates};
use map::{Leaves, Records, Slots};
use sets::{LeafSets, ReadSets, WriteSets};
use spec::{Address, Refusal};
use transactions::{Globals, begins, merges};
use workers::Workers;

// What a worker does within an open transaction. The buffers of a scan are lent beside it.
#[derive(Clone, Copy)]
pub enum Access {
    Read(Address),
    Scan(Address, Address),
    Put(Address, u64, u16),
    Remove(Address),
}

// What brings a transaction to its end.
#[derive(Clone, Copy)]
pub enum Ending {
    Lock,
    Validate,
    Install,
    Abort,
}

// A step of document 01 and the requests; each names its worker first but the merges, at an address and of the oldest.
#[derive(Clone, Copy)]
pub enum Op {
    Begin(u32),
    Access(u32, Access),
    Ending(u32, Ending),
    Merge(Address),
    MergeOldest,
}

// What a granted step tells: nothing; what a read finds; how many places of each buffer a scan filled; the number of a
// validation; the count of a merge.
#[derive(Clone, Copy)]
pub enum Told {
    Nothing,
    Found(Found),
    Listed(usize),
    Numbered(u64),
    Counted(usize),
}

// The answer of a step.
pub type Reply = Result<Told, Refusal>;

// A step within an open transaction.
fn take_access(
    addresses: &mut [Address],
    values: &mut [u64],
    owners: &mut [u16],
    reads: &mut ReadSets,
    leafsets: &mut LeafSets,
    writes: &mut WriteSets,
    workers: &mut Workers,
    rows: &Records,
    leaves: &Leaves,
    slots: &Slots,
    c: Globals,
    w: u32,
    x: Access,
) -> Reply
    requires { Ready (lent rows.now leaves.now slots.now) (logs reads.old leafsets.old writes.old) (core_of workers.old c) }
    ensures { Performs (lent rows.now leaves.now slots.now)
        (logs reads.old leafsets.old writes.old) (core_of workers.old c) (Op.Access w x) (buffers addresses.old values.old owners.old)
        (lent rows.now leaves.now slots.now) (logs reads.new leafsets.new writes.new)
        (buffers addresses.new values.new owners.new) (record { core = core_of workers.new c; reply = result }) }
{
    match x {
        Access::Read(a) => {
            let found = reads::read(
                reads, workers, rows, leaves, slots, leafsets, writes, c, w, a,
            )?;
            Ok(Told::Found(found))
        }
        Access::Scan(lo, hi) => {
            let n = scans::scan(
                addresses, values, owners, reads, leafsets, workers, rows, leaves, slots, writes,
                c, w, lo, hi,
            )?;
            Ok(Told::Listed(n))
        }
        Access::Put(a, v, o) => {
            edits::put(
                writes, workers, rows, leaves, slots, reads, leafsets, c, w, a, v, o,
            )?;
            Ok(Told::Nothing)
        }
        Access::Remove(a) => {
            edits::remove(
                writes, workers, rows, leaves, slots, reads, leafsets, c, w, a,
            )?;
            Ok(Told::Nothing)
        }
    }
}

// A step towards a transaction's end.
fn take_ending(
    leaves: &mut Leaves,
    slots: &mut Slots,
    workers: &mut Workers,
    rows: &Records,
    reads: &ReadSets,
    leafsets: &LeafSets,
    writes: &WriteSets,
    c: &mut Globals,
    w: u32,
    x: Ending,
) -> Reply
    requires { Ready (lent rows.now leaves.old slots.old) (logs reads.now leafsets.now writes.now) (core_of workers.old c.old) }
    ensures { Quiet (lent rows.now leaves.old slots.old)
        (logs reads.now leafsets.now writes.now) (core_of workers.old c.old) (Op.Ending w x) (lent rows.now leaves.new slots.new)
        (logs reads.now leafsets.now writes.now) (performed_of workers.new c.new result) }
{
    match x {
        Ending::Lock => {
            locks::lock(leaves, slots, workers, rows, reads, leafsets, writes, c, w)?;
            Ok(Told::Nothing)
        }
        Ending::Validate => {
            let n = validates::validate(
                leaves, slots, workers, rows, reads, leafsets, writes, c, w,
            )?;
            Ok(Told::Numbered(n))
        }
        Ending::Install => {
            installs::install(leaves, slots, workers, rows, reads, leafsets, writes, c, w)?;
            Ok(Told::Nothing)
        }
        Ending::Abort => {
            aborts::abort(leaves, slots, workers, rows, reads, leafsets, writes, c, w)?;
            Ok(Told::Nothing)
        }
    }
}

// Any step. A seat may be any number, an address any, the buffers of any lengths.
pub fn perform(
    addresses: &mut [Address],
    values: &mut [u64],
    owners: &mut [u16],
    rows: &mut Records,
    leaves: &mut Leaves,
    slots: &mut Slots,
    reads: &mut ReadSets,
    leafsets: &mut LeafSets,
    writes: &mut WriteSets,
    workers: &mut Workers,
    c: &mut Globals,
    op: Op,
) -> Reply
    requires { Ready (lent rows.old leaves.old slots.old) (logs reads.old leafsets.old writes.old) (core_of workers.old c.old) }
    ensures { Performs (lent rows.old leaves.old slots.old)
        (logs reads.old leafsets.old writes.old) (core_of workers.old c.old) op (buffers addresses.old values.old owners.old)
        (lent rows.new leaves.new slots.new) (logs reads.new leafsets.new writes.new)
        (buffers addresses.new values.new owners.new) (performed_of workers.new c.new result) }
{
    match op {
        Op::Begin(w) => {
            begins::begin(workers, w)?;
            Ok(Told::Nothing)
        }
        Op::Access(w, x) => take_access(
            addresses, values, owners, reads, leafsets, writes, workers, rows, leaves, slots, *c,
            w, x,
        ),
        Op::Ending(w, x) => take_ending(
            leaves, slots, workers, rows, reads, leafsets, writes, c, w, x,
        ),
        Op::Merge(a) => {
            let n = merges::merge_at(rows, leaves, slots, reads, leafsets, writes, workers, c, a);
            Ok(Told::Counted(n))
        }
        Op::MergeOldest => {
            let n = merges::merge_oldest(rows, leaves, slots, reads, leafsets, writes, workers, c);
            Ok(Told::Counted(n))
        }
    }
}
