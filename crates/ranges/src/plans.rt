// A scan in two parts: its tests, which find what it has to do and write nothing, and its work.
ghost use Rattle.std.specs.Prelude.{◌≤◌, ◌≡◌};
ghost use Rattle.spec.specs.Steps.{places};
ghost use Rattle.sets.specs.Reads.{ReadSetHeld};
ghost use Rattle.sets.specs.Leaves.{LeafSetHeld};
ghost use Rattle.sets.specs.Writes.{WriteSetOrdered};
ghost use Rattle.map.specs.Views.{lows_of, versions_of};
ghost use Rattle.buffers.specs.Buffers.{buffers, places_of};
ghost use Rattle.ranges.specs.Scanning.{OwnSpans};
ghost use Rattle.ranges.specs.Plans.{Planning, Plans, Planned, Carried};

use crate::walks::Bounds;
use crate::{logs, walks};
use map::{Leaves, Records, Sizes, Slots};
use queries::{Range, View};
use sets::leaves::Scanned;
use sets::{LeafSet, ReadSet, WriteSet, writes};
use spec::{Address, LEAF_SET_LIMIT, READ_LIMIT, Refusal};
use workers::Worker;

// What a scan has to do: the places of the records, of the leaves and of the worker's writes.
#[derive(Clone, Copy)]
pub struct Task {
    pub index: Range,
    pub met: Range,
    pub own: Range,
}

// A scan carried out: the worker with the new counts, and how many records are shown.
#[derive(Clone, Copy)]
pub struct Done {
    pub worker: Worker,
    pub count: usize,
}

// The places of the worker's n writes from lo to hi.
fn writes_between(writes: &WriteSet, n: usize, lo: Address, hi: Address) -> Range
    requires write_set_ordered { WriteSetOrdered writes.now n }
    requires lo_le_hi { lo ≤ hi }
    ensures { OwnSpans writes.now n lo hi result }
{
    let from = writes::writes_below(writes, n, lo);
    let to = writes::writes_below(writes, n, hi);
    if n <= to {
        return Range { from, to };
    }
    let e = writes::write_at(writes, to);
    if e.address == hi {
        return Range { from, to: to + 1 };
    }
    Range { from, to }
}

// Tests a scan of a worker with k, m and n places for addresses, values and owners, and finds what it has to do. Nothing is written.
pub fn measure(
    rows: &Records,
    leaves: &Leaves,
    slots: &Slots,
    writes: &WriteSet,
    z: Sizes,
    x: Worker,
    lo: Address,
    hi: Address,
    k: usize,
    m: usize,
    n: usize,
) -> Result<Task, Refusal>
    requires { Planning rows.now (lows_of leaves.now) slots.now writes.now z x }
    ensures { Plans rows.now (lows_of leaves.now) slots.now writes.now z x lo hi (places k m n) result }
{
    if hi < lo {
        return Err(Refusal::Backward);
    }
    let index = queries::records_between(rows, z.records, lo, hi);
    let met = queries::leaves_meeting(leaves, z.leaves, lo, hi);
    if READ_LIMIT < x.reads as usize + (index.to - index.from) {
        return Err(Refusal::LogFull);
    }
    if LEAF_SET_LIMIT < x.leaves as usize + (met.to - met.from) {
        return Err(Refusal::LogFull);
    }
    let own = writes_between(writes, x.writes as usize, lo, hi);
    let b = Bounds {
        to: index.to,
        end: own.to,
    };
    let shortest = k.min(m).min(n);
    let view = View {
        rows,
        slots,
        records: z.records,
    };
    if walks::exceeds(view, writes, b, index.from, own.from, shortest) {
        return Err(Refusal::ShortBuffer);
    }
    Ok(Task { index, met, own })
}

// Logs what the scan from lo to hi passed, writes the records shown, and remembers the scan.
pub fn carry_out(
    addresses: &mut [Address],
    values: &mut [u64],
    owners: &mut [u16],
    reads: &mut ReadSet,
    leafset: &mut LeafSet,
    rows: &Records,
    leaves: &Leaves,
    slots: &Slots,
    writes: &WriteSet,
    z: Sizes,
    x: Worker,
    t: Task,
    lo: Address,
    hi: Address,
) -> Done
    requires planning { Planning rows.now (lows_of leaves.now) slots.now writes.now z x }
    requires planned { Planned rows.now (lows_of leaves.now) slots.now writes.now z x t (places_of (buffers addresses.old values.old owners.old)) }
    requires read_set_held { ReadSetHeld reads.old }
    requires leaf_set_held { LeafSetHeld leafset.old }
    ensures { Carried rows.now (lows_of leaves.now) (versions_of leaves.now) slots.now writes.now z x t lo hi
        (buffers addresses.old values.old owners.old) reads.old leafset.old
        (buffers addresses.new values.new owners.new) reads.new leafset.new result }
{
    let index = t.index;
    let first = x.reads as usize;
    let passed = index.to - index.from;
    let view = View {
        rows,
        slots,
        records: z.records,
    };
    let logged = logs::log_rows(reads, view, first, index);
    let b = Bounds {
        to: passed,
        end: t.own.to,
    };
    let count = walks::fill(
        addresses, values, owners, reads, writes, first, b, t.own.from,
    );
    let scan = Scanned {
        lo: lo as u64,
        hi: hi as u64,
        from: x.reads as u64,
        count: passed as u64,
    };
    let logged_leaves = logs::log_leaves(leafset, leaves, x.leaves as usize, t.met, scan);
    let worker = Worker {
        reads: logged as u8,
        leaves: logged_leaves as u8,
        ..x
    };
    Done { worker, count }
}
