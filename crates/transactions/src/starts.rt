// A fresh map in any lent arrays, with every worker free.
ghost use Rattle.spec.specs.Records.{standard_map};
ghost use Rattle.map.specs.Views.{lent};
ghost use Rattle.transactions.specs.Views.{logs, core_of};
ghost use Rattle.transactions.specs.Starts.{Fresh};

use crate::Globals;
use counters::Counters;
use map::{Leaves, Records, Slots, entries};
use sets::{LEAF_SET_WORDS, LeafSets, READ_WORDS, ReadSets, WRITE_WORDS, WriteSets};
use spec::{LEAF_SET_LIMIT, READ_LIMIT, WORKERS, WRITE_LIMIT};
use workers::Workers;

// Empties the arrays. Whatever they held, the state is document 01's fresh map, guarded or not.
pub fn fresh_state(
    rows: &mut Records,
    leaves: &mut Leaves,
    slots: &mut Slots,
    reads: &mut ReadSets,
    leafsets: &mut LeafSets,
    writes: &mut WriteSets,
    workers: &mut Workers,
    guarded: bool,
) -> Globals
    ensures { Fresh (lent rows.new leaves.new slots.new) (logs reads.new leafsets.new writes.new) (standard_map guarded) (core_of workers.new result) }
{
    let sizes = entries::fresh_map(rows, leaves, slots);
    let no_read = [0u64; READ_WORDS];
    let no_reads = [no_read; READ_LIMIT];
    *reads = [no_reads; WORKERS];
    let no_leaf = [0u64; LEAF_SET_WORDS];
    let no_leaves = [no_leaf; LEAF_SET_LIMIT];
    *leafsets = [no_leaves; WORKERS];
    let no_write = [0u64; WRITE_WORDS];
    let no_writes = [no_write; WRITE_LIMIT];
    *writes = [no_writes; WORKERS];
    // Word 0 is a free worker.
    *workers = [0u64; WORKERS];
    let counters = Counters {
        number: 0,
        version: 0,
        installs: 0,
    };
    Globals {
        sizes,
        counters,
        guarded: guarded as u64,
    }
}
