// Lock: the addresses of a write set, all or none, and the tests before it; in a guarded map first those of its puts.
ghost use Rattle.std.specs.Prelude.{◌≡◌, [], ◌<◌, length, get_or};
ghost use Rattle.spec.specs.Records.{limits};
ghost use Rattle.spec.specs.Slots.{entries};
ghost use Rattle.spec.specs.Steps as model;
ghost use Rattle.sets.specs.Reads.{reads_in};
ghost use Rattle.sets.specs.Leaves.{scans_in};
ghost use Rattle.sets.specs.Writes.{writes_in, WriteSetOrdered};
ghost use Rattle.guards.specs.Judging.{refusal_in, Guardable};
ghost use Rattle.map.specs.Views.{lent, slots_in};
ghost use Rattle.map.specs.MapHeld as map;
ghost use Rattle.map.specs.AddressCounts.{Counted};
ghost use Rattle.transactions.specs.Views.{logs, core_of};
ghost use Rattle.transactions.specs.Ready.{worker_at, Ready, Refines};
ghost use Rattle.transactions.specs.Begins.{plain_in};
ghost use Rattle.commits.specs.Locks.{guard_tests, Tested, LocksOpen};

use map::{Leaves, Records, Sizes, Slots};
use sets::{LeafSets, ReadSets, WriteSet, WriteSets};
use spec::Refusal;
use transactions::{Globals, admits};
use workers;
use workers::{Worker, Workers};

// The tests of a write set before its addresses are locked: refusals 9, 10 and 11.
fn lock_tests(
    rows: &Records,
    slots: &Slots,
    ws: &WriteSet,
    z: Sizes,
    n: usize,
    w: u64,
) -> Result<(), Refusal>
    requires counted { Counted rows.now slots.now z }
    requires entries_value { z.entries ≡ length (entries (slots_in slots.now)) }
    requires write_set_ordered { WriteSetOrdered ws.now n }
    ensures { Tested rows.now slots.now ws.now z n w result }
{
    if map::locks::held(slots, ws, n, w) {
        return Err(Refusal::Held);
    }
    if map::locks::waits_beyond(slots, ws, n, z.entries) {
        return Err(Refusal::IndexletFull);
    }
    if map::locks::addresses_beyond(rows, slots, ws, n, z) {
        return Err(Refusal::MapFull);
    }
    Ok(())
}

// The lock of worker w, which is open: all of its addresses, or none.
fn lock_open(
    leaves: &mut Leaves,
    slots: &mut Slots,
    workers: &mut Workers,
    rows: &Records,
    writes: &WriteSets,
    c: &mut Globals,
    w: usize,
) -> Result<(), Refusal>
    requires map_held { map.MapHeld (lent rows.now leaves.old slots.old) c.old.sizes c.old.counters.version }
    requires w_lt_workers { w < limits.workers }
    requires write_set_ordered { WriteSetOrdered (get_or writes.now w []) (worker_at (core_of workers.old c.old) w).writes }
    ensures { LocksOpen (lent rows.now leaves.old slots.old) writes.now (core_of workers.old c.old) w (lent rows.now leaves.new slots.new) (core_of workers.new c.new) result }
{
    let x = workers::worker_at(workers, w);
    let n = x.writes as usize;
    lock_tests(rows, slots, &writes[w], c.sizes, n, w as u64)?;
    c.sizes = map::locks::lock_all(
        leaves, slots, rows, &writes[w], c.sizes, c.counters, n, w as u64,
    );
    let locked = x.lock();
    workers::put_worker(workers, w, locked);
    Ok(())
}

// The guard's tests of worker w's puts, refusals 16, 17 and 18 (request 102). An unguarded map has none.
fn guard(
    reads: &ReadSets,
    leafsets: &LeafSets,
    writes: &WriteSets,
    guarded: bool,
    w: usize,
    x: Worker,
) -> Result<(), Refusal>
    requires w_lt_workers { w < limits.workers }
    requires guardable { Guardable (get_or reads.now w []) (get_or leafsets.now w []) (get_or writes.now w []) x }
    ensures { refusal_in result ≡ guard_tests guarded (reads_in reads.now w x.reads) (scans_in leafsets.now w x.leaves) (writes_in writes.now w x.writes) }
{
    if guarded {
        return guards::judge(&reads[w], &leafsets[w], &writes[w], x);
    }
    Ok(())
}

// Worker w locks the addresses of its write set.
pub fn lock(
    leaves: &mut Leaves,
    slots: &mut Slots,
    workers: &mut Workers,
    rows: &Records,
    reads: &ReadSets,
    leafsets: &LeafSets,
    writes: &WriteSets,
    c: &mut Globals,
    w: u32,
) -> Result<(), Refusal>
    requires { Ready (lent rows.now leaves.old slots.old) (logs reads.now leafsets.now writes.now) (core_of workers.old c.old) }
    ensures { Refines (lent rows.now leaves.old slots.old)
        (logs reads.now leafsets.now writes.now) (core_of workers.old c.old) (model.lock w) (lent rows.now leaves.new slots.new)
        (logs reads.now leafsets.now writes.now) (core_of workers.new c.new) (plain_in result) }
{
    let x = admits::open(workers, w)?;
    let v = w as usize;
    guard(reads, leafsets, writes, c.guarded == 1, v, x)?;
    lock_open(leaves, slots, workers, rows, writes, c, v)
}
