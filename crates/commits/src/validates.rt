// Validate: the log is compared with what stands now, and the next commit number is taken.
ghost use Rattle.std.specs.Prelude.{◌≡◌, not, ◌<◌, ◌≤◌};
ghost use Rattle.spec.specs.Maps.{phantom_in};
ghost use Rattle.lists.specs.Rows.{any, keys};
ghost use Rattle.spec.specs.Payloads.{payload_in, record_in};
ghost use Rattle.spec.specs.Records.{limits, same_payload, same_record};
ghost use Rattle.spec.specs.Steps as model;
ghost use Rattle.map.specs.Parts.{SlotsHeld};
ghost use Rattle.map.specs.Views.{lent, map_of};
ghost use Rattle.queries.specs.PhantomViews.{Holding, Owns};
ghost use Rattle.sets.specs.Reads.{reads_of, ReadSetHeld};
ghost use Rattle.sets.specs.Leaves.{versions_of, LeafSetHeld};
ghost use Rattle.guards.specs.Judging.{refusal_in};
ghost use Rattle.transactions.specs.Views.{logs, core_of};
ghost use Rattle.transactions.specs.Ready.{Ready, Refines};
ghost use Rattle.commits.specs.Validates.{changed_in, locked_in, LoggedAll, Examinable, judged, validated_of, numbering};
ghost use Rattle.commits.specs.Answers.{validate_in};

use crate::drops;
use map::{Leaves, Records, Sizes, Slots, holders};
use queries::View;
use sets::{LeafSet, LeafSets, ReadSet, ReadSets, WriteSet, WriteSets, leaves, reads};
use spec::{LAST_NUMBER, OWNERS, PayloadWords, RecordWords, Refusal};
use transactions::{Globals, admits};
use workers;
use workers::{Worker, Workers};

// Both say the same value and the same owner.
fn same_payload(p: PayloadWords, q: PayloadWords) -> bool
    ensures { result ≡ same_payload (payload_in p) (payload_in q) }
{
    p.value == q.value && p.owner % OWNERS == q.owner % OWNERS
}

// A logged record and the current one differ: in presence, payload or commit number.
fn differs(now: Option<RecordWords>, then: Option<RecordWords>) -> bool
    ensures { result ≡ not (same_record (record_in now) (record_in then)) }
{
    match (now, then) {
        (Some(p), Some(q)) => !same_payload(p.payload, q.payload) || p.commit != q.commit,
        (None, None) => false,
        _ => true,
    }
}

// A logged address now has another record (refusal 12).
fn changed(view: View, reads: &ReadSet, k: usize) -> bool
    requires read_set_held { ReadSetHeld reads.now }
    requires k_le_read_limit { k ≤ limits.read_limit }
    ensures { result ≡ any (changed_in view.entry.rows.now view.entry.records view.entry.slots.now) (reads_of reads.now k) }
{
    for i in 0..k {
        let l = reads::read_at(reads, i);
        let now = view.current_record(l.address);
        if differs(now, l.current) {
            return true;
        }
    }
    false
}

// Another worker than w has the lock of a logged address (refusal 13).
fn under_lock(slots: &Slots, reads: &ReadSet, w: usize, k: usize) -> bool
    requires slots_held { SlotsHeld slots.now }
    requires read_set_held { ReadSetHeld reads.now }
    requires k_le_read_limit { k ≤ limits.read_limit }
    ensures { result ≡ any (locked_in slots.now w) (keys (reads_of reads.now k)) }
{
    for i in 0..k {
        let l = reads::read_at(reads, i);
        if holders::locked_by_other(slots, l.address, w as u64) {
            return true;
        }
    }
    false
}

// A logged leaf is gone or hides a key from worker w (refusal 14), whose write set has n rows.
fn phantoms(
    rows: &Records,
    leaves: &Leaves,
    slots: &Slots,
    leafset: &LeafSet,
    ws: &WriteSet,
    z: Sizes,
    n: usize,
    w: usize,
    k: usize,
) -> bool
    requires holding { Holding (lent rows.now leaves.now slots.now) z }
    requires owns { Owns slots.now ws.now n w }
    requires leaf_set_held { LeafSetHeld leafset.now }
    requires logged_all { LoggedAll (lent rows.now leaves.now slots.now) leafset.now z k }
    requires k_le_leaf_set_limit { k ≤ limits.leaf_set_limit }
    ensures { result ≡ any (phantom_in (map_of (lent rows.now leaves.now slots.now) z) w) (versions_of leafset.now k) }
{
    for i in 0..k {
        let m = leaves::logged_leaf_at(leafset, i);
        if queries::phantom(rows, leaves, slots, ws, z, n, m.version, m.low) {
            return true;
        }
    }
    false
}

// The log of worker w against the map: the whole read set for changes, then for locks, then the leaf set.
fn judge(
    rows: &Records,
    leaves: &Leaves,
    slots: &Slots,
    reads: &ReadSet,
    leafset: &LeafSet,
    writes: &WriteSet,
    z: Sizes,
    x: Worker,
    w: usize,
) -> Result<(), Refusal>
    requires { Examinable (lent rows.now leaves.now slots.now) reads.now leafset.now writes.now z x w }
    ensures { refusal_in result ≡ judged (lent rows.now leaves.now slots.now) reads.now leafset.now z x w }
{
    let view = View {
        rows,
        slots,
        records: z.records,
    };
    if changed(view, reads, x.reads as usize) {
        return Err(Refusal::Changed);
    }
    if under_lock(slots, reads, w, x.reads as usize) {
        return Err(Refusal::UnderLock);
    }
    if phantoms(
        rows,
        leaves,
        slots,
        leafset,
        writes,
        z,
        x.writes as usize,
        w,
        x.leaves as usize,
    ) {
        return Err(Refusal::Phantom);
    }
    Ok(())
}

// Worker w, of a valid log, takes the next commit number, if one is left (refusal 15). No array is touched but the workers.
fn take_number(workers: &mut Workers, c: &mut Globals, w: usize, x: Worker) -> Result<u64, Refusal>
    requires { w < limits.workers }
    ensures { validated_of workers.new c.new result ≡ numbering (core_of workers.old c.old) w x }
{
    if c.counters.number >= LAST_NUMBER {
        return Err(Refusal::Spent);
    }
    let taken = counters::take_number(c.counters);
    c.counters = taken.counters;
    let n = taken.last;
    let checked = x.check(n as u32);
    workers::put_worker(workers, w, checked);
    Ok(n)
}

// Worker w's log is compared with what stands now. If it holds, the worker has its commit number; if it does not, the
// transaction is over.
pub fn validate(
    leaves: &mut Leaves,
    slots: &mut Slots,
    workers: &mut Workers,
    rows: &Records,
    reads: &ReadSets,
    leafsets: &LeafSets,
    writes: &WriteSets,
    c: &mut Globals,
    w: u32,
) -> Result<u64, Refusal>
    requires { Ready (lent rows.now leaves.old slots.old) (logs reads.now leafsets.now writes.now) (core_of workers.old c.old) }
    ensures { Refines (lent rows.now leaves.old slots.old)
        (logs reads.now leafsets.now writes.now) (core_of workers.old c.old) (model.validate w) (lent rows.now leaves.new slots.new)
        (logs reads.now leafsets.now writes.now) (core_of workers.new c.new) (validate_in result) }
{
    let x = admits::locked(workers, w)?;
    let i = w as usize;
    let said = judge(
        rows,
        leaves,
        slots,
        &reads[i],
        &leafsets[i],
        &writes[i],
        c.sizes,
        x,
        i,
    );
    if let Err(r) = said {
        drops::drop_transaction(leaves, slots, workers, rows, writes, c, i);
        return Err(r);
    }
    take_number(workers, c, i, x)
}
