// Leaves after a merge: one is kept, cut into runs, or joined to its left neighbour. A leaf that a merge makes has a fresh
// version, and 0 for the phantomlet's numbers; the other leaves keep theirs.
ghost use Rattle.std.specs.Prelude.{◌≡◌, ◌+◌, ◌-◌, ◌*◌, ◌^◌, ◌<◌, ◌≤◌};
ghost use Rattle.lists.specs.Tabulation.{tab};
ghost use Rattle.lists.specs.Shifts.{over};
ghost use Rattle.spec.specs.Records.{standard};
ghost use Rattle.cuts.specs.Making.{most_runs};
ghost use Rattle.index.specs.Views.{record_places, leaf_places, keys_between};
ghost use Rattle.index.specs.Settles.{Settling};
ghost use Rattle.index.specs.SettleRows.{made_leaf, made_row, MadeRuns, kept_rows, joined_rows, cut_rows, SettledRows};

use crate::leaves::LeafWords;
use crate::{Leaves, Records, leaves, rows};
use cuts::{MOST_RUNS, MadeLeaves};
use spec::RUN;

// What settling leaves: how many leaves there are, and the last version given.
#[derive(Clone, Copy)]
pub struct Settled {
    pub leaves: usize,
    pub version: u64,
}

// A leaf as a merge makes it.
fn made_leaf(low: u64, version: u64) -> LeafWords
    ensures { result ≡ made_leaf low version }
{
    LeafWords {
        low,
        version,
        hidden: 0,
        pending: 0,
    }
}

// The n runs after the one at row i: their lows are the addresses of their first rows, their versions the next after v.
fn make_all(rows: &Records, i: usize, n: usize, v: u64) -> MadeLeaves
    requires n_lt_most_runs { n < most_runs }
    requires run_bound { i + n * standard.run < record_places }
    requires n_bound { v + n < 2 ^ 64 }
    ensures { MadeRuns rows.now i v n result }
{
    let mut made = [cuts::MadeLeaf { low: 0, version: 0 }; MOST_RUNS];
    for x in 0..n {
        let r = rows::get(rows, i + (x + 1) * RUN);
        cuts::make_run(&mut made, x, r.address, v + 1 + x as u64);
    }
    made
}

// The first n of the leaves that were made, a row each, from place `at` on.
fn fill(leaves: &mut Leaves, made: &MadeLeaves, at: usize, n: usize)
    requires n_bound { at + n ≤ leaf_places }
    requires n_lt_most_runs { n < most_runs }
    ensures { leaves.new ≡ over leaves.old at (tab (made_row made.now) n) }
{
    for x in 0..n {
        let run = made[x];
        leaves::put_leaf(leaves, at + x, made_leaf(run.low, run.version));
    }
}

// The leaf at place p stays whole.
fn keep(leaves: &mut Leaves, m: usize, p: usize, v: u64) -> Settled
    requires { (p < leaf_places) × (v + 1 < 2 ^ 64) }
    ensures { (result.leaves ≡ m) × (result.version ≡ v + 1) × (leaves.new ≡ kept_rows leaves.old p v) }
{
    let own = leaves::leaf_at(leaves, p);
    leaves::put_leaf(leaves, p, made_leaf(own.low, v + 1));
    Settled {
        leaves: m,
        version: v + 1,
    }
}

// The leaf at place p joins its left neighbour, which gets a fresh version.
fn join(leaves: &mut Leaves, m: usize, p: usize, v: u64) -> Settled
    requires { (0 < p) × (p < m) × (m ≤ leaf_places) × (v + 1 < 2 ^ 64) }
    ensures { (result.leaves ≡ m - 1) × (result.version ≡ v + 1) × (leaves.new ≡ joined_rows leaves.old m p v) }
{
    rows::move_rows(leaves, p + 1, p, m - p - 1);
    let left = leaves::leaf_at(leaves, p - 1);
    let l = LeafWords {
        version: v + 1,
        ..left
    };
    leaves::put_leaf(leaves, p - 1, l);
    Settled {
        leaves: m - 1,
        version: v + 1,
    }
}

// The leaf at place p, with records from row i on, is cut into t runs, the last one of the rest.
fn cut(
    leaves: &mut Leaves,
    rows: &Records,
    m: usize,
    p: usize,
    i: usize,
    t: usize,
    v: u64,
) -> Settled
    requires { (p < m) × (m + t ≤ leaf_places + 1) × (1 ≤ t) × (i + t * standard.run ≤ record_places) × (v + t < 2 ^ 64) }
    ensures { (result.leaves ≡ m + t - 1) × (result.version ≡ v + t) × (leaves.new ≡ cut_rows leaves.old rows.now m p i t v) }
{
    let own = leaves::leaf_at(leaves, p);
    rows::move_rows(leaves, p + 1, p + t, m - p - 1);
    let made = make_all(rows, i, t - 1, v + 1);
    fill(leaves, &made, p + 1, t - 1);
    leaves::put_leaf(leaves, p, made_leaf(own.low, v + 1));
    Settled {
        leaves: m + t - 1,
        version: v + t as u64,
    }
}

// Settles the leaf at place p after a merge that left it with the records of rows i to j; v is the last version given.
// Left with none, it joins its left neighbour, and the first leaf stays; up to 16 records stay whole; more are cut into
// runs of 8 while 16 or more remain.
pub fn settle(
    leaves: &mut Leaves,
    rows: &Records,
    m: usize,
    p: usize,
    i: usize,
    j: usize,
    v: u64,
) -> Settled
    requires { Settling m p i j v (keys_between rows.now i j) }
    ensures { SettledRows leaves.old m p v (keys_between rows.now i j) leaves.new result.leaves result.version }
{
    let count = j - i;
    // Document 01 settles by a match on 0, 1 to 16 and the rest.
    match count {
        0 => {
            if p == 0 {
                keep(leaves, m, p, v)
            } else {
                join(leaves, m, p, v)
            }
        }
        1..=16 => keep(leaves, m, p, v),
        _ => cut(leaves, rows, m, p, i, count / RUN, v),
    }
}
