// The end of a transaction without effect, by abort or by validate.
ghost use Rattle.std.specs.Prelude.{◌<◌, get_or, []};
ghost use Rattle.spec.specs.Records.{limits};
ghost use Rattle.spec.specs.Steps.{State, dropped};
ghost use Rattle.sets.specs.Writes.{WriteSetOrdered};
ghost use Rattle.map.specs.Views.{lent};
ghost use Rattle.map.specs.MapHeld as map;
ghost use Rattle.transactions.specs.Views.{core_of};
ghost use Rattle.transactions.specs.Ready.{worker_at};
ghost use Rattle.commits.specs.Commits.{Reaches};

use map::{Leaves, Records, Slots};
use sets::WriteSets;
use transactions::Globals;
use workers;
use workers::Workers;

// Worker w's transaction is over without effect: its locks go, and the worker is free.
pub fn drop_transaction(
    leaves: &mut Leaves,
    slots: &mut Slots,
    workers: &mut Workers,
    rows: &Records,
    writes: &WriteSets,
    c: &mut Globals,
    w: usize,
)
    requires map_held { map.MapHeld (lent rows.now leaves.old slots.old) c.old.sizes c.old.counters.version }
    requires w_lt_workers { w < limits.workers }
    requires write_set_ordered { WriteSetOrdered (get_or writes.now w []) (worker_at (core_of workers.old c.old) w).writes }
    ensures { Reaches (λ (σ : State). dropped σ w) (lent rows.now leaves.old slots.old) writes.now (core_of workers.old c.old) (lent rows.now leaves.new slots.new) (core_of workers.new c.new) }
{
    let x = workers::worker_at(workers, w);
    c.sizes = map::locks::unlock_all(
        leaves,
        slots,
        rows,
        &writes[w],
        c.sizes,
        c.counters,
        x.writes as usize,
        w as u64,
    );
    let free = x.free();
    workers::put_worker(workers, w, free);
}
