// Answers a script: its lines come on standard input, their answers go to standard output.
#![tactic(auto)]

ghost use Rattle.std.specs.Prelude.{◌≤◌, ◌≡◌, true, length, take};
ghost use Rattle.map.specs.Views.{lent};
ghost use Rattle.transactions.specs.Views.{logs};
ghost use Rattle.console.specs.Finishes.{longest_end};
ghost use Rattle.shell.specs.Works.{Stands, Rests, Countable, Reads, ReadDone, WriteDone, Turns, Closes, Ran};

use console::session::Session;
use console::{closing, session};
use contents::{COPY_WORDS, CopyRows};
use index::{LEAF_WORDS, LEAVES, RECORD_WORDS};
use indexlet::{SLOT_ROWS, SLOT_WORDS};
use map::{Leaves, Records, Slots};
use sets::{LEAF_SET_WORDS, LeafSets, READ_WORDS, ReadSets, WRITE_WORDS, WriteSets};
use shell::system::Calls;
use shell::{Work, system};
use spec::{LEAF_SET_LIMIT, MAP_LIMIT, READ_LIMIT, WORKERS, WRITE_LIMIT};
use std::io::{Stdin, Stdout};
use workers::Workers;

// Turns of a buffer's bytes each, so that numbers of 64 bits count all calls and their bytes.
const MOST_TURNS: u64 = u64::MAX / 131072;

// Reads the next bytes of the input. At its end there is nothing to go on with.
fn read_more(
    from: Stdin,
    input: &mut [u8],
    rows: &Records,
    leaves: &Leaves,
    slots: &Slots,
    reads: &ReadSets,
    leafsets: &LeafSets,
    writes: &WriteSets,
    workers: &Workers,
    w: Work,
) -> Work
    requires reads { Reads (lent rows.now leaves.now slots.now) (logs reads.now leafsets.now writes.now) workers.now input.old w }
    requires countable { Countable w (length input.old) }
    ensures { ReadDone w (length input.new) result }
{
    let calls = system::read_next(
        from, input, rows, leaves, slots, reads, leafsets, writes, workers, w,
    );
    shell::after_read(calls, input, w)
}

// After the lines that had room: whatever is due for them is written, before anything else is read or run.
fn settle(
    to: Stdout,
    out: &[u8],
    rows: &Records,
    leaves: &Leaves,
    slots: &Slots,
    reads: &ReadSets,
    leafsets: &LeafSets,
    writes: &WriteSets,
    workers: &Workers,
    input: &[u8],
    w: Work,
) -> Work
    requires stands { Stands (lent rows.now leaves.now slots.now) (logs reads.now leafsets.now writes.now) workers.now input.now (take w.session.at out.now) w }
    requires going_value { (w.going ≡ true) × (w.session.at ≤ length out.now) × Countable w w.session.at }
    ensures { WriteDone w result }
{
    let n = w.session.at;
    let calls = system::write_due(
        to, out, n, rows, leaves, slots, reads, leafsets, writes, workers, input, w,
    );
    shell::after_write(calls, w)
}

// One turn: more input, or the lines of what there is.
fn advance(
    from: Stdin,
    to: Stdout,
    input: &mut [u8],
    out: &mut [u8],
    rows: &mut Records,
    leaves: &mut Leaves,
    slots: &mut Slots,
    reads: &mut ReadSets,
    leafsets: &mut LeafSets,
    writes: &mut WriteSets,
    workers: &mut Workers,
    w: Work,
) -> Work
    requires rests { Rests (lent rows.old leaves.old slots.old) (logs reads.old leafsets.old writes.old) workers.old input.old w }
    requires going_value { (w.going ≡ true) × Countable w (length input.old) × Countable w (length out.old) }
    ensures turns { Turns (lent rows.old leaves.old slots.old)
        (logs reads.old leafsets.old writes.old) workers.old input.old out.old w
        (lent rows.new leaves.new slots.new) (logs reads.new leafsets.new writes.new)
        workers.new input.new out.new result }
    ensures rests_2 { Rests (lent rows.new leaves.new slots.new) (logs reads.new leafsets.new writes.new)
        workers.new input.new result }
{
    let x = w.session;
    let count = w.count;
    if count <= x.next {
        return read_more(
            from, input, rows, leaves, slots, reads, leafsets, writes, workers, w,
        );
    }
    let y = session::feed(
        out,
        rows,
        leaves,
        slots,
        reads,
        leafsets,
        writes,
        workers,
        &input[..count],
        x,
    );
    let run = Work { session: y, ..w };
    settle(
        to, out, rows, leaves, slots, reads, leafsets, writes, workers, input, run,
    )
}

// The end: the last line, unless a read or a write failed, or the turns were used up before the input was.
fn close(
    to: Stdout,
    out: &mut [u8],
    copied: &mut CopyRows,
    rows: &Records,
    leaves: &Leaves,
    slots: &Slots,
    reads: &ReadSets,
    leafsets: &LeafSets,
    writes: &WriteSets,
    workers: &Workers,
    input: &[u8],
    w: Work,
) -> Calls
    requires rests { Rests (lent rows.now leaves.now slots.now) (logs reads.now leafsets.now writes.now) workers.now input.now w }
    requires longest_end_in_bounds { (longest_end ≤ length out.old) × Countable w (length out.old) }
    ensures { Closes (lent rows.now leaves.now slots.now)
        (logs reads.now leafsets.now writes.now) workers.now input.now w result }
{
    if w.failed || w.going {
        return w.calls;
    }
    let last = closing::finish(
        out, copied, rows, leaves, slots, reads, leafsets, writes, workers, w.session,
    );
    system::write_due(
        to, out, last, rows, leaves, slots, reads, leafsets, writes, workers, input, w,
    )
}

// A whole run.
fn run(from: Stdin, to: Stdout) -> Calls
    ensures { Ran result }
{
    let mut input = io::large_buffer();
    let mut out = io::large_buffer();
    let mut rows = [[0u64; RECORD_WORDS]; MAP_LIMIT];
    let mut leaves = [[0u64; LEAF_WORDS]; LEAVES];
    let mut slots = [[0u64; SLOT_WORDS]; SLOT_ROWS];
    let mut reads = [[[0u64; READ_WORDS]; READ_LIMIT]; WORKERS];
    let mut leafsets = [[[0u64; LEAF_SET_WORDS]; LEAF_SET_LIMIT]; WORKERS];
    let mut writes = [[[0u64; WRITE_WORDS]; WRITE_LIMIT]; WORKERS];
    let mut workers = [0u64; WORKERS];
    let mut copied = [[0u64; COPY_WORDS]; MAP_LIMIT];
    let start = session::fresh_session(
        &mut rows,
        &mut leaves,
        &mut slots,
        &mut reads,
        &mut leafsets,
        &mut writes,
        &mut workers,
    );
    let mut w = Work {
        session: start,
        count: 0,
        going: true,
        failed: false,
        calls: system::none(),
    };
    // A proved loop ends: its turns are a number that no run uses up, and by which the bytes can be counted.
    for _ in 0..MOST_TURNS {
        if !w.going {
            break;
        }
        w = advance(
            from,
            to,
            &mut input,
            &mut out,
            &mut rows,
            &mut leaves,
            &mut slots,
            &mut reads,
            &mut leafsets,
            &mut writes,
            &mut workers,
            w,
        );
    }
    close(
        to,
        &mut out,
        &mut copied,
        &rows,
        &leaves,
        &slots,
        &reads,
        &leafsets,
        &writes,
        &workers,
        &input,
        w,
    )
}

fn main(rt: HostRuntime) {
    run(rt.stdin(), rt.stdout());
}
