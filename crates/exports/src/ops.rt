// Any step of an export, as one operation with the first places of the lent buffers and the first of the lent bytes.
ghost use Rattle.std.specs.Prelude.{List, ℕ, ◌≤◌, length};
ghost use Rattle.lists.specs.Rows.{Row};
ghost use Rattle.spec.specs.Records.{limits, Record};
ghost use Rattle.spec.specs.Exports as model;
ghost use Rattle.map.specs.Parts.{RecordsHeld, SlotsHeld};
ghost use Rattle.queries.specs.Contents.{all_records};
ghost use Rattle.buffers.specs.Buffers.{Buffers, buffers, places_of, counted_places, Lends};
ghost use Rattle.exports.specs.Exporting.{ExportHeld, space, ExportStepped, export_step_in, LendsTo};

use crate::{Export, ExportAnswer, Exported};
use buffers::Places;
use map::{Records, Slots};
use spec::Address;

// A step. A portion is handed the places that it wants beside it, a file the bytes.
#[derive(Clone, Copy)]
pub enum ExportOp {
    Open,
    Portion,
    File(usize),
    Close,
}

// A portion to the first places of the buffers, as many of each as it wants.
fn portion_first(
    addresses: &mut [Address],
    values: &mut [u64],
    owners: &mut [u16],
    exported: &Exported,
    x: &mut Option<Export>,
    wanted: Places,
) -> ExportAnswer
    requires export_held { ExportHeld x.old }
    requires lends { Lends (places_of (buffers addresses.old values.old owners.old)) (counted_places wanted) }
    ensures { (contents : List (Row Record)) (bs : List ℕ) → ExportStepped contents (model.portion (counted_places wanted))
        exported.now x.old (space (buffers addresses.old values.old owners.old) bs)
        exported.now x.new (space (buffers addresses.new values.new owners.new) bs) result }
{
    crate::portion(
        &mut addresses[..wanted.addresses],
        &mut values[..wanted.values],
        &mut owners[..wanted.owners],
        exported,
        x,
    )
}

// A file to the first n bytes.
fn file_first(bytes: &mut [u8], exported: &Exported, x: Option<Export>, n: usize) -> ExportAnswer
    requires export_held { ExportHeld x }
    requires n_in_bounds { n ≤ length bytes.old }
    ensures { (contents : List (Row Record)) (b : Buffers) → ExportStepped contents (model.file n)
        exported.now x (space b bytes.old) exported.now x (space b bytes.new) result }
{
    crate::file(&mut bytes[..n], exported, x)
}

// Performs a step that wants so many places of each buffer.
pub fn perform_export(
    addresses: &mut [Address],
    values: &mut [u64],
    owners: &mut [u16],
    bytes: &mut [u8],
    exported: &mut Exported,
    rows: &Records,
    slots: &Slots,
    count: usize,
    x: &mut Option<Export>,
    op: ExportOp,
    wanted: Places,
) -> ExportAnswer
    requires records_held { RecordsHeld rows.now count }
    requires slots_held { SlotsHeld slots.now }
    requires slots_len_bound { (length (all_records rows.now count slots.now) ≤ limits.map_limit) × ExportHeld x.old }
    requires lends_to { LendsTo (space (buffers addresses.old values.old owners.old) bytes.old) op (counted_places wanted) }
    ensures { ExportStepped (all_records rows.now count slots.now) (export_step_in op (counted_places wanted))
        exported.old x.old (space (buffers addresses.old values.old owners.old) bytes.old)
        exported.new x.new (space (buffers addresses.new values.new owners.new) bytes.new) result }
{
    match op {
        ExportOp::Open => crate::open_export(exported, rows, slots, count, x),
        ExportOp::Portion => portion_first(addresses, values, owners, exported, x, wanted),
        ExportOp::File(size) => file_first(bytes, exported, *x, size),
        ExportOp::Close => crate::close_export(x),
    }
}
