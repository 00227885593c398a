// Install: the writes of a validated transaction enter the map.
ghost use Rattle.std.specs.Prelude.{[], ◌+◌, ◌^◌, ◌<◌, get_or};
ghost use Rattle.spec.specs.Records.{limits};
ghost use Rattle.spec.specs.Steps as model;
ghost use Rattle.spec.specs.Steps.{State, effect};
ghost use Rattle.laws.specs.MapLaws.{Installable};
ghost use Rattle.sets.specs.Writes.{writes_in, WriteSetOrdered};
ghost use Rattle.map.specs.Views.{lent, slots_in};
ghost use Rattle.map.specs.MapHeld as map;
ghost use Rattle.transactions.specs.Views.{logs, core_of};
ghost use Rattle.transactions.specs.Ready.{worker_at, Ready, Refines};
ghost use Rattle.transactions.specs.Begins.{plain_in};
ghost use Rattle.commits.specs.Commits.{Reaches};

use map::{Leaves, Records, Slots};
use sets::{LeafSets, ReadSets, WriteSets};
use spec::Refusal;
use transactions::{Globals, admits};
use workers;
use workers::Workers;

// The writes of worker w's transaction are pending from now on, under its commit number, and the worker is free.
fn install_transaction(
    leaves: &mut Leaves,
    slots: &mut Slots,
    workers: &mut Workers,
    rows: &Records,
    writes: &WriteSets,
    c: &mut Globals,
    w: usize,
)
    requires map_held { map.MapHeld (lent rows.now leaves.old slots.old) c.old.sizes c.old.counters.version }
    requires w_lt_workers { w < limits.workers }
    requires write_set_ordered { WriteSetOrdered (get_or writes.now w []) (worker_at (core_of workers.old c.old) w).writes }
    requires installable { Installable (slots_in slots.old) (writes_in writes.now w (worker_at (core_of workers.old c.old) w).writes) }
    requires installs_bound { c.old.counters.installs + 1 < 2 ^ 64 }
    ensures { Reaches (λ (σ : State). effect σ (model.install w)) (lent rows.now leaves.old slots.old) writes.now (core_of workers.old c.old) (lent rows.now leaves.new slots.new) (core_of workers.new c.new) }
{
    let counted = counters::count_install(c.counters);
    let x = workers::worker_at(workers, w);
    c.sizes = map::locks::install_all(
        leaves,
        slots,
        rows,
        &writes[w],
        c.sizes,
        c.counters,
        x.writes as usize,
        x.number as u64,
        counted.installs,
    );
    c.counters = counted;
    let free = x.free();
    workers::put_worker(workers, w, free);
}

// Worker w's writes enter the map, under the commit number of its validation.
pub fn install(
    leaves: &mut Leaves,
    slots: &mut Slots,
    workers: &mut Workers,
    rows: &Records,
    reads: &ReadSets,
    leafsets: &LeafSets,
    writes: &WriteSets,
    c: &mut Globals,
    w: u32,
) -> Result<(), Refusal>
    requires { Ready (lent rows.now leaves.old slots.old) (logs reads.now leafsets.now writes.now) (core_of workers.old c.old) }
    ensures { Refines (lent rows.now leaves.old slots.old)
        (logs reads.now leafsets.now writes.now) (core_of workers.old c.old) (model.install w) (lent rows.now leaves.new slots.new)
        (logs reads.now leafsets.now writes.now) (core_of workers.new c.new) (plain_in result) }
{
    admits::checked(workers, w)?;
    install_transaction(leaves, slots, workers, rows, writes, c, w as usize);
    Ok(())
}
