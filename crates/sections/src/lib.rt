// The map for programs in other languages, as a static library. All state lies in arrays that the caller lends: the engine's
// six of rows and its workers, the globals (`saved::GlobalWords`), and of an export (request 107) its numbers
// (`saved::ExportWords`) and its records (`exports::Exported`). The caller keeps them as the last call left them, and begins with `sections_fresh`.
#![tactic(auto)]

mod saved;

ghost use Rattle.std.specs.Prelude.{◌≡◌, List, ℕ, length};
ghost use Rattle.lists.specs.Rows.{Row};
ghost use Rattle.spec.specs.Records.{standard_map, Record};
ghost use Rattle.spec.specs.Exports as model;
ghost use Rattle.map.specs.Views.{lent};
ghost use Rattle.transactions.specs.Views.{logs};
ghost use Rattle.transactions.specs.Ready.{Ready};
ghost use Rattle.transactions.specs.Starts.{Fresh};
ghost use Rattle.buffers.specs.Buffers.{Buffers, buffers, places_of};
ghost use Rattle.exports.specs.Exporting.{ExportedRows, ExportHeld, Space, space};
ghost use Rattle.sections.specs.Saved.{saved_core, saved_export};
ghost use Rattle.sections.specs.Entries.{code_in, coded_in, StepEntry, stop_number, CountsAre, ReplayEntry, contents_in, NextRecord, NoneIn, DoneIn, ExportEntry};

use crate::saved::{ExportWords, GlobalWords};
use codes::{Code, Coded, StepWords, words};
use exports::{Export, ExportAnswer, Exported};
use map::{Leaves, Records, Slots};
use queries::View;
use replay::stops::Stop;
use replay::{runs, steps};
use sets::{LeafSets, ReadSets, WriteSets};
use spec::{ADDRESSES, Address, OWNERS};
use transactions::starts;
use workers::Workers;

// An answer in words.
pub const ANSWER_WORDS: usize = 5;

pub type AnswerWords = [u64; ANSWER_WORDS];

// How many steps were taken, and how many words of answers were written.
pub const COUNT_WORDS: usize = 2;

pub type CountWords = [u64; COUNT_WORDS];

// A record in words: address, value, owner, serial number.
pub const FOUND_WORDS: usize = 4;

pub type FoundWords = [u64; FOUND_WORDS];

// Makes the arrays a fresh map, guarded or not (request 102), with no export open, whatever they hold.
#[unsafe(no_mangle)]
pub extern "C" fn sections_fresh(
    globals: &mut GlobalWords,
    export: &mut ExportWords,
    rows: &mut Records,
    leaves: &mut Leaves,
    slots: &mut Slots,
    reads: &mut ReadSets,
    leafsets: &mut LeafSets,
    writes: &mut WriteSets,
    workers: &mut Workers,
    guarded: bool,
)
    ensures fresh { Fresh (lent rows.new leaves.new slots.new) (logs reads.new leafsets.new writes.new) (standard_map guarded) (saved_core workers.new globals.new) }
    ensures none_in { NoneIn export.new }
{
    let c = starts::fresh_state(
        rows, leaves, slots, reads, leafsets, writes, workers, guarded,
    );
    saved::store(globals, c);
    saved::store_export(export, exports::no_export());
}

fn put_answer(answer: &mut AnswerWords, a: Coded)
    ensures { coded_in answer.new ≡ a }
{
    *answer = [a.number, a.told, a.value, a.beside, a.examined];
}

fn code_in(step: &StepWords) -> Code
    ensures { result ≡ code_in step.now }
{
    Code {
        kind: step[0],
        a: step[1],
        b: step[2],
        c: step[3],
        d: step[4],
        e: step[5],
        f: step[6],
    }
}

// One step in coded form (`codes::Code`), its answer in five numbers (`Coded`), and a scan's records in the first
// places of its buffers.
#[unsafe(no_mangle)]
pub extern "C" fn sections_step(
    answer: &mut AnswerWords,
    addresses: &mut [Address],
    values: &mut [u64],
    owners: &mut [u16],
    globals: &mut GlobalWords,
    rows: &mut Records,
    leaves: &mut Leaves,
    slots: &mut Slots,
    reads: &mut ReadSets,
    leafsets: &mut LeafSets,
    writes: &mut WriteSets,
    workers: &mut Workers,
    step: &StepWords,
)
    requires { Ready (lent rows.old leaves.old slots.old) (logs reads.old leafsets.old writes.old) (saved_core workers.old globals.old) }
    ensures { StepEntry (lent rows.old leaves.old slots.old)
        (logs reads.old leafsets.old writes.old) workers.old globals.old (code_in step.now) (buffers addresses.old values.old owners.old)
        (lent rows.new leaves.new slots.new) (logs reads.new leafsets.new writes.new) workers.new globals.new
        (buffers addresses.new values.new owners.new) answer.new }
{
    let mut after = saved::load(globals);
    let k = code_in(step);
    let told = steps::step(
        addresses, values, owners, rows, leaves, slots, reads, leafsets, writes, workers,
        &mut after, k,
    );
    saved::store(globals, after);
    put_answer(answer, told);
}

// The number of a stop in the C interface. No `From`: `Stop` is of another crate.
fn stop_number(s: Stop) -> u64
    ensures { result ≡ stop_number s }
{
    match s {
        Stop::Complete => 0,
        Stop::Meaningless => 1,
        Stop::Full => 2,
    }
}

fn put_counts(counts: &mut CountWords, taken: usize, written: usize)
    ensures { CountsAre counts.new taken written }
{
    *counts = [taken as u64, written as u64];
}

// A list of steps, seven numbers to each, those of exports among them, from a fresh map, guarded or not, with no export open
// (`replay::runs::replay`, whose promise is demand 3). It counts the steps taken and the words of answers written, and returns
// why no more were taken: 0 there are none, 1 a code has no meaning, 2 no room for answers.
#[unsafe(no_mangle)]
pub extern "C" fn sections_replay(
    counts: &mut CountWords,
    out: &mut [u64],
    addresses: &mut [Address],
    values: &mut [u64],
    owners: &mut [u16],
    bytes: &mut [u8],
    globals: &mut GlobalWords,
    export: &mut ExportWords,
    exported: &mut Exported,
    rows: &mut Records,
    leaves: &mut Leaves,
    slots: &mut Slots,
    reads: &mut ReadSets,
    leafsets: &mut LeafSets,
    writes: &mut WriteSets,
    workers: &mut Workers,
    steps: &[u64],
    guarded: bool,
) -> u64
    ensures { ReplayEntry (standard_map guarded) steps.now
        (space (buffers addresses.old values.old owners.old) bytes.old) out.old
        (lent rows.new leaves.new slots.new) (logs reads.new leafsets.new writes.new) exported.new
        (space (buffers addresses.new values.new owners.new) bytes.new) out.new
        workers.new globals.new export.new counts.new result }
{
    let p = runs::replay(
        out, addresses, values, owners, bytes, rows, leaves, slots, reads, leafsets, writes,
        workers, exported, steps, guarded,
    );
    saved::store(globals, p.globals);
    saved::store_export(export, p.export);
    put_counts(counts, p.taken, p.written);
    stop_number(p.stop)
}

// The first record of the contents from an address on: its address, value, owner and serial number, and true. If there is
// none, false, and the words are left.
#[unsafe(no_mangle)]
pub extern "C" fn sections_next(
    found: &mut FoundWords,
    globals: &GlobalWords,
    rows: &Records,
    leaves: &Leaves,
    slots: &Slots,
    reads: &ReadSets,
    leafsets: &LeafSets,
    writes: &WriteSets,
    workers: &Workers,
    from: u64,
) -> bool
    requires { Ready (lent rows.now leaves.now slots.now) (logs reads.now leafsets.now writes.now) (saved_core workers.now globals.now) }
    ensures { NextRecord (lent rows.now leaves.now slots.now) globals.now from found.old found.new result }
{
    let c = saved::load(globals);
    if from >= ADDRESSES {
        return false;
    }
    let view = View {
        rows,
        slots,
        records: c.sizes.records,
    };
    match view.next_record(from as Address) {
        Some(next) => {
            let r = next.record;
            *found = [
                next.address as u64,
                r.payload.value,
                r.payload.owner % OWNERS,
                r.commit,
            ];
            true
        }
        None => false,
    }
}

// Keeps the numbers of the export after a step, and tells its answer in five numbers (`Coded`).
fn put_done(
    answer: &mut AnswerWords,
    export: &mut ExportWords,
    x: Option<Export>,
    told: ExportAnswer,
)
    ensures { DoneIn export.new answer.new x told }
{
    saved::store_export(export, x);
    put_answer(answer, words::encode_export(told));
}

// Opens an export of the contents (request 107): its records go to `exported`, which no step of a job touches.
#[unsafe(no_mangle)]
pub extern "C" fn sections_open_export(
    answer: &mut AnswerWords,
    export: &mut ExportWords,
    exported: &mut Exported,
    globals: &GlobalWords,
    rows: &Records,
    leaves: &Leaves,
    slots: &Slots,
    reads: &ReadSets,
    leafsets: &LeafSets,
    writes: &WriteSets,
    workers: &Workers,
)
    requires ready { Ready (lent rows.now leaves.now slots.now) (logs reads.now leafsets.now writes.now) (saved_core workers.now globals.now) }
    requires export_held { ExportHeld (saved_export export.old) }
    ensures { (s : Space) → ExportEntry (contents_in (lent rows.now leaves.now slots.now) globals.now) model.open_export
        exported.old export.old s exported.new export.new s answer.new }
{
    let c = saved::load(globals);
    let mut x = saved::load_export(export);
    let told = exports::open_export(exported, rows, slots, c.sizes.records, &mut x);
    put_done(answer, export, x, told);
}

// Gives the next records of the export in the first places of the buffers, as many as there are and as the shortest holds.
#[unsafe(no_mangle)]
pub extern "C" fn sections_portion(
    answer: &mut AnswerWords,
    addresses: &mut [Address],
    values: &mut [u64],
    owners: &mut [u16],
    export: &mut ExportWords,
    exported: &Exported,
)
    requires { ExportHeld (saved_export export.old) }
    ensures { (contents : List (Row Record)) (bs : List ℕ) → ExportEntry contents
        (model.portion (places_of (buffers addresses.old values.old owners.old)))
        exported.now export.old (space (buffers addresses.old values.old owners.old) bs)
        exported.now export.new (space (buffers addresses.new values.new owners.new) bs) answer.new }
{
    let mut x = saved::load_export(export);
    let told = exports::portion(addresses, values, owners, exported, &mut x);
    put_done(answer, export, x, told);
}

// Writes the whole export as a file into the first bytes, whatever portions were taken.
#[unsafe(no_mangle)]
pub extern "C" fn sections_file(
    answer: &mut AnswerWords,
    bytes: &mut [u8],
    export: &mut ExportWords,
    exported: &Exported,
)
    requires { ExportHeld (saved_export export.old) }
    ensures { (contents : List (Row Record)) (b : Buffers) → ExportEntry contents (model.file (length bytes.old))
        exported.now export.old (space b bytes.old)
        exported.now export.new (space b bytes.new) answer.new }
{
    let x = saved::load_export(export);
    let told = exports::file(bytes, exported, x);
    put_done(answer, export, x, told);
}

// Closes the export.
#[unsafe(no_mangle)]
pub extern "C" fn sections_close_export(answer: &mut AnswerWords, export: &mut ExportWords)
    requires { ExportHeld (saved_export export.old) }
    ensures { (contents : List (Row Record)) (rows : ExportedRows) (s : Space) → ExportEntry contents model.close_export
        rows export.old s rows export.new s answer.new }
{
    let mut x = saved::load_export(export);
    let told = exports::close_export(&mut x);
    put_done(answer, export, x, told);
}
