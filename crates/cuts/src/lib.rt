// The leaves that one merge makes, cut into runs: a lent slice of small structs, low address and version.
#![tactic(auto)]

ghost use Rattle.std.specs.Prelude.{◌≡◌, ◌<◌, length, set};
ghost use Rattle.cuts.specs.Making.{most_runs, with_low, with_version, leaf};

// A leaf that a merge makes: its low address and its version (document 01: leaf, low address and mark).
#[derive(Clone, Copy)]
pub struct MadeLeaf {
    pub low: u64,
    pub version: u64,
}

// The most leaves that one merge can make: 1,024 records in runs of 8, and one more (document 01: "Leaves after a fold";
// `versions_per_merge` of `laws`).
pub const MOST_RUNS: usize = 129;

// The leaves that a merge has made so far, from the left.
pub type MadeLeaves = [MadeLeaf; MOST_RUNS];

// The low address of leaf i.
fn set_low(made: &mut [MadeLeaf], i: usize, low: u64)
    requires { i < length made.old }
    ensures { made.new ≡ with_low made.old i low }
{
    made[i].low = low;
}

// The version of leaf i.
fn set_version(made: &mut [MadeLeaf], i: usize, version: u64)
    requires { i < length made.old }
    ensures { made.new ≡ with_version made.old i version }
{
    made[i].version = version;
}

// Leaf i is made.
pub fn make_run(made: &mut MadeLeaves, i: usize, low: u64, version: u64)
    requires { i < most_runs }
    ensures { made.new ≡ set made.old i (leaf low version) }
{
    set_low(made, i, low);
    set_version(made, i, version);
}
