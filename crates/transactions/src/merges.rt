// Merges (document 01: fold), at an address or at the oldest pending write: no worker takes part, and they are never refused.
ghost use Rattle.spec.specs.Steps as model;
ghost use Rattle.map.specs.Views.{lent};
ghost use Rattle.transactions.specs.Views.{logs, core_of};
ghost use Rattle.transactions.specs.Ready.{Ready, Refines};

use crate::Globals;
use map::{Leaves, Records, Slots};
use merging::{merge, oldest};
use sets::{LeafSets, ReadSets, WriteSets};
use spec::Address;
use workers::Workers;

// The pending writes of the leaf that holds the address enter the index. Answers how many.
pub fn merge_at(
    rows: &mut Records,
    leaves: &mut Leaves,
    slots: &mut Slots,
    reads: &ReadSets,
    leafsets: &LeafSets,
    writes: &WriteSets,
    workers: &Workers,
    c: &mut Globals,
    a: Address,
) -> usize
    requires { Ready (lent rows.old leaves.old slots.old) (logs reads.now leafsets.now writes.now) (core_of workers.now c.old) }
    ensures { Refines (lent rows.old leaves.old slots.old)
        (logs reads.now leafsets.now writes.now) (core_of workers.now c.old) (model.merge a) (lent rows.new leaves.new slots.new)
        (logs reads.now leafsets.now writes.now) (core_of workers.now c.new) (model.counted result) }
{
    let r = merge::merge(rows, leaves, slots, c.sizes, c.counters, a);
    c.sizes = r.sizes;
    c.counters = r.counters;
    r.count
}

// The pending writes of the leaf of the write that has waited longest enter the index (request 101); none, where nothing is
// pending. Answers how many.
pub fn merge_oldest(
    rows: &mut Records,
    leaves: &mut Leaves,
    slots: &mut Slots,
    reads: &ReadSets,
    leafsets: &LeafSets,
    writes: &WriteSets,
    workers: &Workers,
    c: &mut Globals,
) -> usize
    requires { Ready (lent rows.old leaves.old slots.old) (logs reads.now leafsets.now writes.now) (core_of workers.now c.old) }
    ensures { Refines (lent rows.old leaves.old slots.old)
        (logs reads.now leafsets.now writes.now) (core_of workers.now c.old) model.merge_oldest (lent rows.new leaves.new slots.new)
        (logs reads.now leafsets.now writes.now) (core_of workers.now c.new) (model.counted result) }
{
    let a = oldest::oldest_waiting(slots);
    merge_at(rows, leaves, slots, reads, leafsets, writes, workers, c, a)
}
