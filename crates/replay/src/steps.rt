// One step in coded form.
ghost use Rattle.map.specs.Views.{lent};
ghost use Rattle.transactions.specs.Views.{logs, core_of};
ghost use Rattle.transactions.specs.Ready.{Ready};
ghost use Rattle.buffers.specs.Buffers.{buffers};
ghost use Rattle.replay.specs.CodedSteps.{step_end_of, CodedStep};

use crate::parts;
use buffers::Places;
use codes::{Code, Coded, decodes, words};
use map::{Leaves, Records, Slots};
use sets::{LeafSets, ReadSets, WriteSets};
use spec::Address;
use transactions::Globals;
use workers::Workers;

// One step in coded form. A scan's buffers are the first places of the lent ones, as many as it wants. A code with no meaning,
// one that wants more than are lent among them, is refused, and changes nothing.
pub fn step(
    addresses: &mut [Address],
    values: &mut [u64],
    owners: &mut [u16],
    rows: &mut Records,
    leaves: &mut Leaves,
    slots: &mut Slots,
    reads: &mut ReadSets,
    leafsets: &mut LeafSets,
    writes: &mut WriteSets,
    workers: &mut Workers,
    c: &mut Globals,
    k: Code,
) -> Coded
    requires { Ready (lent rows.old leaves.old slots.old) (logs reads.old leafsets.old writes.old) (core_of workers.old c.old) }
    ensures { CodedStep (lent rows.old leaves.old slots.old)
        (logs reads.old leafsets.old writes.old) (core_of workers.old c.old) k
        (buffers addresses.old values.old owners.old)
        (lent rows.new leaves.new slots.new) (logs reads.new leafsets.new writes.new)
        (buffers addresses.new values.new owners.new) (step_end_of workers.new c.new result) }
{
    let lent = Places {
        addresses: addresses.len(),
        values: values.len(),
        owners: owners.len(),
    };
    match decodes::decode(k, lent) {
        Some((op, wanted)) => {
            let reply = parts::perform_first(
                addresses, values, owners, rows, leaves, slots, reads, leafsets, writes, workers,
                c, op, wanted,
            );
            words::encode(reply)
        }
        None => words::no_meaning(),
    }
}
