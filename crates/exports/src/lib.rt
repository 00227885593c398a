// Request 107: an export beside the map. It is the contents at its opening, copied to an array that the caller lends, with
// two numbers beside it: how many records it has, and how many of them portions have given. No job touches it.
//
// Crate `contents` fills the array and reads it; `copies` fills the buffers of a portion; `files` writes the file. `ops` takes
// any step as one operation.
#![tactic(auto)]

ghost use Rattle.std.specs.Prelude.{◌≡◌, List, ℕ, ◌≤◌, length};
ghost use Rattle.std.proofs.Math.Option.{none};
ghost use Rattle.lists.specs.Rows.{Row};
ghost use Rattle.spec.specs.Records.{limits, Record};
ghost use Rattle.spec.specs.Exports as model;
ghost use Rattle.map.specs.Parts.{RecordsHeld, SlotsHeld};
ghost use Rattle.queries.specs.Contents.{all_records};
ghost use Rattle.buffers.specs.Buffers.{Buffers, buffers, places_of};
ghost use Rattle.exports.specs.Exporting.{ExportedRows, export_in, ExportHeld, Space, space, ExportStepped};

use map::{Records, Slots};
use spec::{Address, Refusal};

mod copies;
mod files;
pub mod ops;

// The records of an export, a row each.
pub type Exported = contents::CopyRows;

// An open export: how many records it has, and how many of them portions have given.
#[derive(Clone, Copy)]
pub struct Export {
    pub count: usize,
    pub taken: usize,
}

// What a granted step tells: how many records the export has; how many a portion gave, and how many remain; how many bytes a
// file has; that it is closed.
#[derive(Clone, Copy)]
pub enum ExportTold {
    Opened(usize),
    Given(usize, usize),
    Filed(usize),
    Closed,
}

// The answer to a step.
pub type ExportAnswer = Result<ExportTold, Refusal>;

// None is open.
pub fn no_export() -> Option<Export>
    ensures { ((rows : ExportedRows) → export_in rows result ≡ none) × ExportHeld result }
{
    None
}

// Opens an export of the contents.
pub fn open_export(
    exported: &mut Exported,
    rows: &Records,
    slots: &Slots,
    n: usize,
    x: &mut Option<Export>,
) -> ExportAnswer
    requires records_held { RecordsHeld rows.now n }
    requires slots_held { SlotsHeld slots.now }
    requires slots_len_bound { (length (all_records rows.now n slots.now) ≤ limits.map_limit) × ExportHeld x.old }
    ensures { (s : Space) → ExportStepped (all_records rows.now n slots.now) model.open_export
        exported.old x.old s exported.new x.new s result }
{
    if x.is_some() {
        return Err(Refusal::ExportOpen);
    }
    let count = contents::copy_contents(exported, rows, slots, n);
    *x = Some(Export { count, taken: 0 });
    Ok(ExportTold::Opened(count))
}

// Gives the next records, as many as there are and as the shortest buffer holds.
pub fn portion(
    addresses: &mut [Address],
    values: &mut [u64],
    owners: &mut [u16],
    exported: &Exported,
    x: &mut Option<Export>,
) -> ExportAnswer
    requires { ExportHeld x.old }
    ensures { (contents : List (Row Record)) (bs : List ℕ) → ExportStepped contents
        (model.portion (places_of (buffers addresses.old values.old owners.old)))
        exported.now x.old (space (buffers addresses.old values.old owners.old) bs)
        exported.now x.new (space (buffers addresses.new values.new owners.new) bs) result }
{
    let Some(open) = x else {
        return Err(Refusal::NoExport);
    };
    let left = open.count - open.taken;
    let n = left
        .min(addresses.len())
        .min(values.len())
        .min(owners.len());
    copies::give(addresses, values, owners, exported, open.taken, n);
    open.taken += n;
    Ok(ExportTold::Given(n, left - n))
}

// Writes the whole export as a file, whatever portions were taken.
pub fn file(bytes: &mut [u8], exported: &Exported, x: Option<Export>) -> ExportAnswer
    requires { ExportHeld x }
    ensures { (contents : List (Row Record)) (b : Buffers) → ExportStepped contents (model.file (length bytes.old))
        exported.now x (space b bytes.old) exported.now x (space b bytes.new) result }
{
    let Some(open) = x else {
        return Err(Refusal::NoExport);
    };
    if bytes.len() < files::HEADER_BYTES + files::RECORD_BYTES * open.count {
        return Err(Refusal::ShortBuffer);
    }
    let n = files::put_file(bytes, exported, open.count);
    Ok(ExportTold::Filed(n))
}

// Closes the export.
pub fn close_export(x: &mut Option<Export>) -> ExportAnswer
    requires { ExportHeld x.old }
    ensures { (contents : List (Row Record)) (rows : ExportedRows) (s : Space) → ExportStepped contents model.close_export
        rows x.old s rows x.new s result }
{
    if x.is_none() {
        return Err(Refusal::NoExport);
    }
    *x = None;
    Ok(ExportTold::Closed)
}
