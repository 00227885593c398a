// A step with a part of the lent scan buffers.
ghost use Rattle.map.specs.Views.{lent};
ghost use Rattle.transactions.specs.Views.{logs, core_of};
ghost use Rattle.transactions.specs.Ready.{Ready};
ghost use Rattle.buffers.specs.Buffers.{buffers, places_of, counted_places, Lends};
ghost use Rattle.engine.specs.Performs.{performed_of};
ghost use Rattle.replay.specs.CodedSteps.{PerformsFirst};

use buffers::Places;
use engine::steps;
use engine::steps::{Op, Reply};
use map::{Leaves, Records, Slots};
use sets::{LeafSets, ReadSets, WriteSets};
use spec::Address;
use transactions::Globals;
use workers::Workers;

// Performs a step with the first places of the buffers, as many of each as it wants.
pub fn perform_first(
    addresses: &mut [Address],
    values: &mut [u64],
    owners: &mut [u16],
    rows: &mut Records,
    leaves: &mut Leaves,
    slots: &mut Slots,
    reads: &mut ReadSets,
    leafsets: &mut LeafSets,
    writes: &mut WriteSets,
    workers: &mut Workers,
    c: &mut Globals,
    op: Op,
    wanted: Places,
) -> Reply
    requires ready { Ready (lent rows.old leaves.old slots.old) (logs reads.old leafsets.old writes.old) (core_of workers.old c.old) }
    requires lends { Lends (places_of (buffers addresses.old values.old owners.old)) (counted_places wanted) }
    ensures { PerformsFirst (lent rows.old leaves.old slots.old)
        (logs reads.old leafsets.old writes.old) (core_of workers.old c.old) op (counted_places wanted)
        (buffers addresses.old values.old owners.old)
        (lent rows.new leaves.new slots.new) (logs reads.new leafsets.new writes.new)
        (buffers addresses.new values.new owners.new) (performed_of workers.new c.new result) }
{
    steps::perform(
        &mut addresses[..wanted.addresses],
        &mut values[..wanted.values],
        &mut owners[..wanted.owners],
        rows,
        leaves,
        slots,
        reads,
        leafsets,
        writes,
        workers,
        c,
        op,
    )
}
