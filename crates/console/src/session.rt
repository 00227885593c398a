// The lines of an input, one after the other.
ghost use Rattle.std.specs.Prelude.{◌≡◌, true, ℕ, ◌+◌, ◌≤◌, List, length};
ghost use Rattle.map.specs.Views.{lent};
ghost use Rattle.transactions.specs.Views.{logs, core_of};
ghost use Rattle.transactions.specs.Ready.{Ready};
ghost use Rattle.transactions.specs.Starts.{guarded_globals};
ghost use Rattle.console.specs.Program.{longest_line};
ghost use Rattle.console.specs.Sessions.{session_of, Started, can_go_on, EndsMalformed, RunsGuard, RunsLine, Runs, Begins, with_places};

use crate::{SCAN_PLACES, lines, replies};
use engine::steps;
use map::{Leaves, Records, Slots};
use script::{Event, Parser};
use sets::{LeafSets, ReadSets, WriteSets};
use spec::Address;
use transactions::{Globals, starts};
use workers::Workers;

// The longest line that is written: a letter, two numbers, a scan's triples and a line feed.
const LONGEST_LINE: usize = 44 + 63 * SCAN_PLACES;

// What is kept from line to line, beside the lent arrays: the engine's globals, the parser, the place in the input, the place
// in the output, whether a malformed line has ended the script, and whether the first line has not been read through, so that
// it may be `G`.
#[derive(Clone, Copy)]
pub struct Session {
    pub globals: Globals,
    pub parser: Parser,
    pub next: usize,
    pub at: usize,
    pub stopped: bool,
    pub first: bool,
}

// A session with a fresh map that is not guarded, whatever the arrays held.
pub fn fresh_session(
    rows: &mut Records,
    leaves: &mut Leaves,
    slots: &mut Slots,
    reads: &mut ReadSets,
    leafsets: &mut LeafSets,
    writes: &mut WriteSets,
    workers: &mut Workers,
) -> Session
    ensures { Begins (lent rows.new leaves.new slots.new) (logs reads.new leafsets.new writes.new) (session_of workers.new result) }
{
    let globals = starts::fresh_state(rows, leaves, slots, reads, leafsets, writes, workers, false);
    let parser = script::fresh_parser();
    Session {
        globals,
        parser,
        next: 0,
        at: 0,
        stopped: false,
        first: true,
    }
}

// The session at other places of its input and its output: with new input, or with its output taken away.
pub fn at_places(x: Session, next: usize, at: usize) -> Session
    ensures { result ≡ with_places x next at }
{
    Session { next, at, ..x }
}

// There is input to read, and room for the longest line. Test by test: over one chain of `&&` the proof did not close.
fn can_go_on(stopped: bool, next: usize, size: usize, at: usize, room: usize) -> bool
    ensures { result ≡ can_go_on stopped next size at room }
{
    if stopped {
        return false;
    }
    if size <= next {
        return false;
    }
    if room < LONGEST_LINE {
        return false;
    }
    if room - LONGEST_LINE < at {
        return false;
    }
    true
}

// The globals of a guarded map.
fn guarded(c: Globals) -> Globals
    ensures { result ≡ guarded_globals c }
{
    Globals { guarded: 1, ..c }
}

// A malformed line ends the script.
fn end_malformed(out: &mut [u8], x: Session, parser: Parser, next: usize) -> Session
    requires { x.at + 2 ≤ length out.old }
    ensures { (ws : List ℕ) → EndsMalformed (session_of ws x) parser next out.old out.new (session_of ws result) }
{
    Session {
        parser,
        next,
        at: answers::put_malformed(out, x.at),
        stopped: true,
        first: false,
        ..x
    }
}

// The line `G`: as the first one it makes the map, on which nothing was run, a guarded one. Any other is malformed.
fn run_guard(out: &mut [u8], x: Session, parser: Parser, next: usize) -> Session
    requires { x.at + longest_line ≤ length out.old }
    ensures { (ws : List ℕ) → RunsGuard (session_of ws x) parser next out.old out.new (session_of ws result) }
{
    if x.first {
        Session {
            globals: guarded(x.globals),
            parser,
            next,
            at: answers::put_guarded(out, x.at),
            stopped: false,
            first: false,
        }
    } else {
        end_malformed(out, x, parser, next)
    }
}

// Reads to the end of a line, performs it and writes its answer; or reads to what makes a line malformed, or to the end
// of the input.
fn run_line(
    out: &mut [u8],
    addresses: &mut [Address; SCAN_PLACES],
    values: &mut [u64; SCAN_PLACES],
    owners: &mut [u16; SCAN_PLACES],
    rows: &mut Records,
    leaves: &mut Leaves,
    slots: &mut Slots,
    reads: &mut ReadSets,
    leafsets: &mut LeafSets,
    writes: &mut WriteSets,
    workers: &mut Workers,
    input: &[u8],
    x: Session,
) -> Session
    requires ready { Ready (lent rows.old leaves.old slots.old) (logs reads.old leafsets.old writes.old) (core_of workers.old x.globals) }
    requires started { Started (lent rows.old leaves.old slots.old) (logs reads.old leafsets.old writes.old) (session_of workers.old x) }
    requires out_value { can_go_on x.stopped x.next (length input.now) x.at (length out.old) ≡ true }
    ensures { RunsLine (lent rows.old leaves.old slots.old)
        (logs reads.old leafsets.old writes.old) (session_of workers.old x) input.now out.old
        (lent rows.new leaves.new slots.new) (logs reads.new leafsets.new writes.new) (session_of workers.new result) out.new }
{
    let t = script::parse(input, x.next, x.parser);
    match t.event {
        Event::Line(l) => {
            let mut globals = x.globals;
            let reply = steps::perform(
                addresses,
                values,
                owners,
                rows,
                leaves,
                slots,
                reads,
                leafsets,
                writes,
                workers,
                &mut globals,
                lines::op_of(l),
            );
            let letter = lines::letter_of(l);
            let at = replies::write_reply(out, x.at, addresses, values, owners, letter, reply);
            Session {
                globals,
                parser: t.parser,
                next: t.next,
                at,
                stopped: false,
                first: false,
            }
        }
        Event::Guard => run_guard(out, x, t.parser, t.next),
        Event::Malformed => end_malformed(out, x, t.parser, t.next),
        Event::SliceEnd => Session {
            parser: t.parser,
            next: t.next,
            stopped: false,
            ..x
        },
    }
}

// Runs the lines of an input from a place on, until it is used up, a malformed line was met, or the output may have no
// room for the next answer.
pub fn feed(
    out: &mut [u8],
    rows: &mut Records,
    leaves: &mut Leaves,
    slots: &mut Slots,
    reads: &mut ReadSets,
    leafsets: &mut LeafSets,
    writes: &mut WriteSets,
    workers: &mut Workers,
    input: &[u8],
    start: Session,
) -> Session
    requires ready { Ready (lent rows.old leaves.old slots.old) (logs reads.old leafsets.old writes.old) (core_of workers.old start.globals) }
    requires started { Started (lent rows.old leaves.old slots.old) (logs reads.old leafsets.old writes.old) (session_of workers.old start) }
    requires at_in_bounds { start.at ≤ length out.old }
    ensures { Runs (lent rows.old leaves.old slots.old)
        (logs reads.old leafsets.old writes.old) (session_of workers.old start) input.now out.old
        (lent rows.new leaves.new slots.new) (logs reads.new leafsets.new writes.new) (session_of workers.new result) out.new }
{
    let mut addresses: [Address; SCAN_PLACES] = [0; SCAN_PLACES];
    let mut values = [0u64; SCAN_PLACES];
    let mut owners = [0u16; SCAN_PLACES];
    // A line goes by at a turn, so no range gives the places.
    let mut x = start;
    while can_go_on(x.stopped, x.next, input.len(), x.at, out.len()) {
        x = run_line(
            out,
            &mut addresses,
            &mut values,
            &mut owners,
            rows,
            leaves,
            slots,
            reads,
            leafsets,
            writes,
            workers,
            input,
            x,
        );
    }
    x
}
