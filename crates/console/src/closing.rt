// The end of the input: all records, or, after a line without its line feed, that it is malformed.
ghost use Rattle.std.specs.Prelude.{◌+◌, ◌*◌, ◌≤◌, length};
ghost use Rattle.lists.specs.Texts.{Wrote};
ghost use Rattle.spec.specs.Records.{limits};
ghost use Rattle.map.specs.Parts.{RecordsHeld, SlotsHeld};
ghost use Rattle.map.specs.Views.{lent};
ghost use Rattle.queries.specs.Contents.{all_records};
ghost use Rattle.transactions.specs.Views.{logs, core_of};
ghost use Rattle.transactions.specs.Ready.{Ready};
ghost use Rattle.answers.specs.Output.{end_line};
ghost use Rattle.console.specs.Closings.{TriplesPut};
ghost use Rattle.console.specs.Sessions.{session_of, Started};
ghost use Rattle.console.specs.Finishes.{longest_end, Finishes};

use crate::session::Session;
use contents::{CopyRows, rows};
use map::{Leaves, Records, Slots};
use sets::{LeafSets, ReadSets, WriteSets};
use workers::Workers;

// The triples of the first `count` rows of a copy.
fn put_records(out: &mut [u8], at: usize, copied: &CopyRows, count: usize) -> usize
    requires { (count ≤ limits.map_limit) × (at + 63 * count ≤ length out.old) }
    ensures { TriplesPut copied.now count out.old at out.new result }
{
    let mut place = at;
    for i in 0..count {
        let r = rows::get(copied, i);
        place = answers::put_triple(out, place, r.address as u64, r.value, r.owner);
    }
    place
}

// `E`, how many records there are, and their triples. One walk copies the records to lent rows; what is written is read off them.
fn put_contents(
    out: &mut [u8],
    copied: &mut CopyRows,
    at: usize,
    rows: &Records,
    slots: &Slots,
    n: usize,
) -> usize
    requires records_held { RecordsHeld rows.now n }
    requires slots_held { SlotsHeld slots.now }
    requires slots_len_bound { (length (all_records rows.now n slots.now) ≤ limits.map_limit) × (at + longest_end ≤ length out.old) }
    ensures { Wrote out.old at (end_line (all_records rows.now n slots.now)) out.new result }
{
    let count = contents::copy_contents(copied, rows, slots, n);
    let next = answers::put_answer(out, at, b'E', count as u64);
    let last = put_records(out, next, copied, count);
    answers::put_byte(out, last, b'\n')
}

// The last line of the output, when the input has ended. After a malformed line there is none.
pub fn finish(
    out: &mut [u8],
    copied: &mut CopyRows,
    rows: &Records,
    leaves: &Leaves,
    slots: &Slots,
    reads: &ReadSets,
    leafsets: &LeafSets,
    writes: &WriteSets,
    workers: &Workers,
    x: Session,
) -> usize
    requires ready { Ready (lent rows.now leaves.now slots.now) (logs reads.now leafsets.now writes.now) (core_of workers.now x.globals) }
    requires started { Started (lent rows.now leaves.now slots.now) (logs reads.now leafsets.now writes.now) (session_of workers.now x) }
    requires longest_end_in_bounds { x.at + longest_end ≤ length out.old }
    ensures { Finishes (lent rows.now leaves.now slots.now) (logs reads.now leafsets.now writes.now) (session_of workers.now x) out.old out.new result }
{
    if x.stopped {
        x.at
    } else if script::at_line_start(x.parser) {
        put_contents(out, copied, x.at, rows, slots, x.globals.sizes.records)
    } else {
        answers::put_malformed(out, x.at)
    }
}
