// The guard of a guarded map (request 102): what lock tests of a worker's puts. It knows one worker's rows, and no map.
#![tactic(auto)]

ghost use Rattle.guards.specs.Judging.{Guardable, Judges};

use sets::{LeafSet, ReadSet, WriteSet};
use spec::Refusal;
use workers::Worker;

// Four loops in these test a put after another. They stay four: one loop over a closure would ask for a ghost test, two clauses
// on the closure and a pick at each call, in place of five plain lines.
mod lengths;
mod overlaps;
mod scans;

// Tests the puts of worker x: lengths and ends, then scans that cover them, then overlaps, each over all puts.
pub fn judge(
    reads: &ReadSet,
    leafset: &LeafSet,
    writes: &WriteSet,
    x: Worker,
) -> Result<(), Refusal>
    requires { Guardable reads.now leafset.now writes.now x }
    ensures { Judges reads.now leafset.now writes.now x result }
{
    let k = x.reads as usize;
    let m = x.leaves as usize;
    let n = x.writes as usize;
    if lengths::unfit_put(writes, n) {
        return Err(Refusal::Unfit);
    }
    if scans::uncovered_put(leafset, m, writes, n) {
        return Err(Refusal::Uncovered);
    }
    if overlaps::overlapped_put(reads, k, leafset, m, writes, n) {
        return Err(Refusal::Overlap);
    }
    Ok(())
}
