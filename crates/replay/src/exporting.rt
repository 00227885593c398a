// One code of an export step, in a list of steps.
ghost use Rattle.std.specs.Prelude.{◌≡◌, ◌≤◌, length};
ghost use Rattle.spec.specs.Records.{limits};
ghost use Rattle.spec.specs.Maps.{contents};
ghost use Rattle.map.specs.Views.{Lent, map_of};
ghost use Rattle.map.specs.Parts.{RecordsHeld, SlotsHeld};
ghost use Rattle.queries.specs.Contents.{all_records};
ghost use Rattle.buffers.specs.Buffers.{buffers};
ghost use Rattle.exports.specs.Exporting.{ExportHeld, space};
ghost use Rattle.transactions.specs.Cores.{Core};
ghost use Rattle.transactions.specs.Views.{Logs};
ghost use Rattle.transactions.specs.Ready.{Ready};
ghost use Rattle.replay.specs.Replays.{whole};
ghost use Rattle.replay.specs.RunLaws.{TakesCode};

use crate::stops;
use crate::stops::{After, Stop};
use buffers::Places;
use codes::{Code, decodes, words};
use exports::{Export, Exported, ops};
use map::{Records, Slots};
use spec::Address;

// Takes the step and writes the answer, or says why not. Of the map it is handed what opening reads, and changes nothing.
pub fn take_export(
    out: &mut [u64],
    addresses: &mut [Address],
    values: &mut [u64],
    owners: &mut [u16],
    bytes: &mut [u8],
    exported: &mut Exported,
    rows: &Records,
    slots: &Slots,
    count: usize,
    x: &mut Option<Export>,
    k: Code,
    at: usize,
) -> After
    requires records_held { RecordsHeld rows.now count }
    requires slots_held { SlotsHeld slots.now }
    requires slots_len_bound { (length (all_records rows.now count slots.now) ≤ limits.map_limit) × ExportHeld x.old }
    requires at_in_bounds { (at ≤ length out.old) × (11 ≤ k.kind) }
    ensures { (l : Lent) (g : Logs) (c : Core) → Ready l g c
        → contents (map_of l c.sizes) ≡ all_records rows.now count slots.now → TakesCode
        (whole l g c exported.old x.old) k
        (space (buffers addresses.old values.old owners.old) bytes.old) out.old at
        (whole l g c exported.new x.new)
        (space (buffers addresses.new values.new owners.new) bytes.new) out.new result.at result.stop }
{
    let lent = Places {
        addresses: addresses.len(),
        values: values.len(),
        owners: owners.len(),
    };
    match decodes::decode_export(k, lent, bytes.len()) {
        Some((op, wanted)) => {
            if !stops::fits(out.len() - at, wanted) {
                return After {
                    at,
                    stop: Stop::Full,
                };
            }
            let told = ops::perform_export(
                addresses, values, owners, bytes, exported, rows, slots, count, x, op, wanted,
            );
            After {
                at: words::put_export_words(out, at, addresses, values, owners, told),
                stop: Stop::Complete,
            }
        }
        None => After {
            at,
            stop: Stop::Meaningless,
        },
    }
}
