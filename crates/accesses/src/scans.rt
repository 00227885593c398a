// Scan: the records of a range, as the transaction sees them. It tests first and writes after.
ghost use Rattle.map.specs.Views.{lent};
ghost use Rattle.transactions.specs.Views.{logs, core_of};
ghost use Rattle.transactions.specs.Ready.{Ready};
ghost use Rattle.buffers.specs.Buffers.{buffers};
ghost use Rattle.accesses.specs.Scans.{Scans};

use map::{Leaves, Records, Slots};
use ranges::plans;
use sets::{LeafSets, ReadSets, WriteSets};
use spec::{Address, Refusal};
use transactions::{Globals, admits};
use workers;
use workers::Workers;

// Worker w reads the records from lo to hi into the buffers: its own writes, and for all else the present records of the
// index's addresses. What it passed is logged, and the scan is remembered. Answers how many are shown. A refused scan writes nothing.
pub fn scan(
    addresses: &mut [Address],
    values: &mut [u64],
    owners: &mut [u16],
    reads: &mut ReadSets,
    leafsets: &mut LeafSets,
    workers: &mut Workers,
    rows: &Records,
    leaves: &Leaves,
    slots: &Slots,
    writes: &WriteSets,
    c: Globals,
    w: u32,
    lo: Address,
    hi: Address,
) -> Result<usize, Refusal>
    requires { Ready (lent rows.now leaves.now slots.now) (logs reads.old leafsets.old writes.now) (core_of workers.old c) }
    ensures { Scans (lent rows.now leaves.now slots.now)
        (logs reads.old leafsets.old writes.now) (core_of workers.old c) w lo hi
        (buffers addresses.old values.old owners.old)
        (logs reads.new leafsets.new writes.now)
        (buffers addresses.new values.new owners.new) (core_of workers.new c) result }
{
    let x = admits::open(workers, w)?;
    let v = w as usize;
    let k = addresses.len();
    let m = values.len();
    let n = owners.len();
    let t = plans::measure(rows, leaves, slots, &writes[v], c.sizes, x, lo, hi, k, m, n)?;
    let done = plans::carry_out(
        addresses,
        values,
        owners,
        &mut reads[v],
        &mut leafsets[v],
        rows,
        leaves,
        slots,
        &writes[v],
        c.sizes,
        x,
        t,
        lo,
        hi,
    );
    workers::put_worker(workers, v, done.worker);
    Ok(done.count)
}
