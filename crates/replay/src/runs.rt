// A list of steps in coded form, run from a fresh map with no export open.
ghost use Rattle.std.specs.Prelude.{◌≡◌, ◌+◌, ◌*◌, ◌%◌, ◌^◌, ◌<◌, ◌≤◌, length};
ghost use Rattle.spec.specs.Records.{standard_map};
ghost use Rattle.map.specs.Views.{lent};
ghost use Rattle.transactions.specs.Views.{logs, core_of, made_of};
ghost use Rattle.transactions.specs.Ready.{Ready};
ghost use Rattle.transactions.specs.Starts.{Fresh};
ghost use Rattle.buffers.specs.Buffers.{buffers};
ghost use Rattle.exports.specs.Exporting.{ExportHeld, space};
ghost use Rattle.replay.specs.Replays.{step_words, whole, replay_end_of, Replays};
ghost use Rattle.replay.specs.RunLaws.{code_at, TakesCode};
ghost use Rattle.replay.specs.LoopLaws.{rest_stop};

use crate::stops::{After, Stop};
use crate::{exporting, jobs};
use codes::{Code, FIRST_EXPORT, STEP_WORDS};
use exports::{Export, Exported};
use map::{Leaves, Records, Slots};
use sets::{LeafSets, ReadSets, WriteSets};
use spec::Address;
use transactions::{Globals, starts};
use workers::Workers;

// The globals and the export's numbers after the steps, how many were taken, how many words of answers were written, and why no
// more.
#[derive(Clone, Copy)]
pub struct Replayed {
    pub globals: Globals,
    pub export: Option<Export>,
    pub taken: usize,
    pub written: usize,
    pub stop: Stop,
}

// The code at place i, which is not the largest number.
fn code_at(steps: &[u64], i: usize) -> Code
    requires { step_words * i + step_words ≤ length steps.now }
    ensures value { result ≡ code_at steps.now i }
    ensures i_bound { i + 1 < 2 ^ 64 }
{
    Code {
        kind: steps[STEP_WORDS * i],
        a: steps[STEP_WORDS * i + 1],
        b: steps[STEP_WORDS * i + 2],
        c: steps[STEP_WORDS * i + 3],
        d: steps[STEP_WORDS * i + 4],
        e: steps[STEP_WORDS * i + 5],
        f: steps[STEP_WORDS * i + 6],
    }
}

// One code: a job's step, which leaves the export, or an export's, which leaves the map.
fn take_code(
    out: &mut [u64],
    addresses: &mut [Address],
    values: &mut [u64],
    owners: &mut [u16],
    bytes: &mut [u8],
    rows: &mut Records,
    leaves: &mut Leaves,
    slots: &mut Slots,
    reads: &mut ReadSets,
    leafsets: &mut LeafSets,
    writes: &mut WriteSets,
    workers: &mut Workers,
    exported: &mut Exported,
    c: &mut Globals,
    x: &mut Option<Export>,
    k: Code,
    at: usize,
) -> After
    requires ready { Ready (lent rows.old leaves.old slots.old) (logs reads.old leafsets.old writes.old) (core_of workers.old c.old) }
    requires at_in_bounds { (at ≤ length out.old) × ExportHeld x.old }
    ensures { TakesCode (whole (lent rows.old leaves.old slots.old)
        (logs reads.old leafsets.old writes.old) (core_of workers.old c.old) exported.old x.old) k
        (space (buffers addresses.old values.old owners.old) bytes.old) out.old at
        (whole (lent rows.new leaves.new slots.new)
        (logs reads.new leafsets.new writes.new) (core_of workers.new c.new) exported.new x.new)
        (space (buffers addresses.new values.new owners.new) bytes.new) out.new result.at result.stop }
{
    if k.kind < FIRST_EXPORT {
        return jobs::take_job(
            out, addresses, values, owners, rows, leaves, slots, reads, leafsets, writes, workers,
            c, k, at,
        );
    }
    exporting::take_export(
        out,
        addresses,
        values,
        owners,
        bytes,
        exported,
        rows,
        slots,
        c.sizes.records,
        x,
        k,
        at,
    )
}

// Words past the last whole code have no meaning.
fn last_stop(steps: &[u64]) -> Stop
    ensures { result ≡ rest_stop (length steps.now % step_words) }
{
    if steps.len() % STEP_WORDS == 0 {
        return Stop::Complete;
    }
    Stop::Meaningless
}

// All codes, one after the other, on a fresh map with no export open.
fn take_all(
    out: &mut [u64],
    addresses: &mut [Address],
    values: &mut [u64],
    owners: &mut [u16],
    bytes: &mut [u8],
    rows: &mut Records,
    leaves: &mut Leaves,
    slots: &mut Slots,
    reads: &mut ReadSets,
    leafsets: &mut LeafSets,
    writes: &mut WriteSets,
    workers: &mut Workers,
    exported: &mut Exported,
    steps: &[u64],
    start: Globals,
) -> Replayed
    requires { Fresh (lent rows.old leaves.old slots.old) (logs reads.old leafsets.old writes.old) (made_of (core_of workers.old start)) (core_of workers.old start) }
    ensures { Replays (made_of (core_of workers.old start)) steps.now
        (space (buffers addresses.old values.old owners.old) bytes.old) out.old
        (lent rows.new leaves.new slots.new) (logs reads.new leafsets.new writes.new) exported.new
        (space (buffers addresses.new values.new owners.new) bytes.new) out.new (replay_end_of workers.new result) }
{
    let count = steps.len() / STEP_WORDS;
    let mut globals = start;
    let mut export = exports::no_export();
    let mut at = 0;
    for i in 0..count {
        let k = code_at(steps, i);
        let t = take_code(
            out,
            addresses,
            values,
            owners,
            bytes,
            rows,
            leaves,
            slots,
            reads,
            leafsets,
            writes,
            workers,
            exported,
            &mut globals,
            &mut export,
            k,
            at,
        );
        match t.stop {
            Stop::Complete => at = t.at,
            Stop::Meaningless | Stop::Full => {
                return Replayed {
                    globals,
                    export,
                    taken: i,
                    written: t.at,
                    stop: t.stop,
                };
            }
        }
    }
    Replayed {
        globals,
        export,
        taken: count,
        written: at,
        stop: last_stop(steps),
    }
}

// Runs a list of steps, STEP_WORDS words to each (`Code`), from a fresh map in the lent arrays, guarded or not, whatever they hold,
// with no export open, and writes the answers one after the other. The buffers and the bytes may have any lengths.
pub fn replay(
    out: &mut [u64],
    addresses: &mut [Address],
    values: &mut [u64],
    owners: &mut [u16],
    bytes: &mut [u8],
    rows: &mut Records,
    leaves: &mut Leaves,
    slots: &mut Slots,
    reads: &mut ReadSets,
    leafsets: &mut LeafSets,
    writes: &mut WriteSets,
    workers: &mut Workers,
    exported: &mut Exported,
    steps: &[u64],
    guarded: bool,
) -> Replayed
    ensures { Replays (standard_map guarded) steps.now
        (space (buffers addresses.old values.old owners.old) bytes.old) out.old
        (lent rows.new leaves.new slots.new) (logs reads.new leafsets.new writes.new) exported.new
        (space (buffers addresses.new values.new owners.new) bytes.new) out.new (replay_end_of workers.new result) }
{
    let start = starts::fresh_state(
        rows, leaves, slots, reads, leafsets, writes, workers, guarded,
    );
    take_all(
        out, addresses, values, owners, bytes, rows, leaves, slots, reads, leafsets, writes,
        workers, exported, steps, start,
    )
}
