// Abort: a transaction is given up.
ghost use Rattle.spec.specs.Steps as model;
ghost use Rattle.map.specs.Views.{lent};
ghost use Rattle.transactions.specs.Views.{logs, core_of};
ghost use Rattle.transactions.specs.Ready.{Ready, Refines};
ghost use Rattle.transactions.specs.Begins.{plain_in};

use crate::drops;
use map::{Leaves, Records, Slots};
use sets::{LeafSets, ReadSets, WriteSets};
use spec::Refusal;
use transactions::{Globals, admits};
use workers::Workers;

// Worker w gives its transaction up.
pub fn abort(
    leaves: &mut Leaves,
    slots: &mut Slots,
    workers: &mut Workers,
    rows: &Records,
    reads: &ReadSets,
    leafsets: &LeafSets,
    writes: &WriteSets,
    c: &mut Globals,
    w: u32,
) -> Result<(), Refusal>
    requires { Ready (lent rows.now leaves.old slots.old) (logs reads.now leafsets.now writes.now) (core_of workers.old c.old) }
    ensures { Refines (lent rows.now leaves.old slots.old)
        (logs reads.now leafsets.now writes.now) (core_of workers.old c.old) (model.abort w) (lent rows.now leaves.new slots.new)
        (logs reads.now leafsets.now writes.now) (core_of workers.new c.new) (plain_in result) }
{
    admits::busy(workers, w)?;
    drops::drop_transaction(leaves, slots, workers, rows, writes, c, w as usize);
    Ok(())
}
