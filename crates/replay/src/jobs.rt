// One code of a job's step, in a list of steps.
ghost use Rattle.std.specs.Prelude.{List, ℕ, Option, ◌<◌, ◌≤◌, length};
ghost use Rattle.map.specs.Views.{lent};
ghost use Rattle.transactions.specs.Views.{logs, core_of};
ghost use Rattle.transactions.specs.Ready.{Ready};
ghost use Rattle.buffers.specs.Buffers.{buffers};
ghost use Rattle.exports.specs.declared.Export.{Export};
ghost use Rattle.exports.specs.Exporting.{ExportedRows, ExportHeld, space};
ghost use Rattle.replay.specs.Replays.{whole};
ghost use Rattle.replay.specs.RunLaws.{TakesCode};

use crate::stops::{After, Stop};
use crate::{parts, stops};
use buffers::Places;
use codes::{Code, decodes, words};
use map::{Leaves, Records, Slots};
use sets::{LeafSets, ReadSets, WriteSets};
use spec::Address;
use transactions::Globals;
use workers::Workers;

// Takes the step and writes the answer, or says why not. It is not handed the export, whatever that is.
pub fn take_job(
    out: &mut [u64],
    addresses: &mut [Address],
    values: &mut [u64],
    owners: &mut [u16],
    rows: &mut Records,
    leaves: &mut Leaves,
    slots: &mut Slots,
    reads: &mut ReadSets,
    leafsets: &mut LeafSets,
    writes: &mut WriteSets,
    workers: &mut Workers,
    c: &mut Globals,
    k: Code,
    at: usize,
) -> After
    requires ready { Ready (lent rows.old leaves.old slots.old) (logs reads.old leafsets.old writes.old) (core_of workers.old c.old) }
    requires at_in_bounds { (at ≤ length out.old) × (k.kind < 11) }
    ensures { (xs : ExportedRows) (x : Option Export) (bs : List ℕ) → ExportHeld x → TakesCode
        (whole (lent rows.old leaves.old slots.old)
        (logs reads.old leafsets.old writes.old) (core_of workers.old c.old) xs x) k
        (space (buffers addresses.old values.old owners.old) bs) out.old at
        (whole (lent rows.new leaves.new slots.new)
        (logs reads.new leafsets.new writes.new) (core_of workers.new c.new) xs x)
        (space (buffers addresses.new values.new owners.new) bs) out.new result.at result.stop }
{
    let lent = Places {
        addresses: addresses.len(),
        values: values.len(),
        owners: owners.len(),
    };
    match decodes::decode(k, lent) {
        Some((op, wanted)) => {
            if !stops::fits(out.len() - at, wanted) {
                return After {
                    at,
                    stop: Stop::Full,
                };
            }
            let reply = parts::perform_first(
                addresses, values, owners, rows, leaves, slots, reads, leafsets, writes, workers,
                c, op, wanted,
            );
            After {
                at: words::put_answer_words(out, at, addresses, values, owners, reply),
                stop: Stop::Complete,
            }
        }
        None => After {
            at,
            stop: Stop::Meaningless,
        },
    }
}
