// Rows of words: all that tells what the words of a leaf mean, and the search among leaves.
ghost use Rattle.std.specs.Prelude.{◌≡◌, ◌+◌, ◌/◌, ◌<◌, ◌≤◌, take};
ghost use Rattle.index.specs.Views.{record_places, leaf_places};
ghost use Rattle.index.specs.Nearing.{Leads};
ghost use Rattle.index.specs.LeafPlaces.{Listed, AtLeaf, Tells, low_place};
ghost use Rattle.index.specs.LeafColumns.{lows_of, leaf_at, leaf_put};

use crate::{FEW, FEWER, LEAST, Leaves, search};
use spec::{Address, MAP_LIMIT};

// A leaf in words: its low and its version (document 01: mark), and the phantomlet's numbers of the keys that it hides from somebody
// and of the pending writes in it, which only move along with their leaf here.
#[derive(Clone, Copy)]
pub struct LeafWords {
    pub low: u64,
    pub version: u64,
    pub hidden: u64,
    pub pending: u64,
}

// The leaf at place i.
pub fn leaf_at(leaves: &Leaves, i: usize) -> LeafWords
    requires { i < leaf_places }
    ensures { result ≡ leaf_at leaves.now i }
{
    let [low, version, hidden, pending] = leaves[i];
    LeafWords {
        low,
        version,
        hidden,
        pending,
    }
}

// Another leaf at place i.
pub fn put_leaf(leaves: &mut Leaves, i: usize, l: LeafWords)
    requires { i < leaf_places }
    ensures { leaves.new ≡ leaf_put leaves.old i l }
{
    leaves[i] = [l.low, l.version, l.hidden, l.pending];
}

// Whether the leaf of an address is that at place `next`, or one behind it. The row is read first, whether it holds a leaf or not,
// so that no branch depends on what it holds.
fn reaches(leaves: &Leaves, m: usize, key: u64, next: usize) -> bool
    requires listed { Listed (lows_of leaves.now) m }
    requires next_nonzero { (0 < next) × (next ≤ record_places) }
    ensures { Leads (low_place key (take m (lows_of leaves.now))) next result }
{
    leaf_at(leaves, next).low <= key && next < m
}

// The place of the leaf that holds an address. Few leaves take fewer steps; with many the last place of all is tried first.
pub fn find_leaf(leaves: &Leaves, m: usize, a: Address) -> usize
    requires { Listed (lows_of leaves.now) m }
    ensures { AtLeaf (lows_of leaves.now) m a result }
{
    let key = a as u64;
    let goes = |next: usize| reaches(leaves, m, key, next);
    if m <= LEAST {
        search::descend(goes, LEAST / 2)
    } else if m <= FEWER {
        search::descend(goes, FEWER / 2)
    } else if m <= FEW {
        search::descend(goes, FEW / 2)
    } else if goes(MAP_LIMIT) {
        MAP_LIMIT
    } else {
        search::descend(goes, MAP_LIMIT / 2)
    }
}

// Whether an address lies in the leaf at a place, which may be any.
fn lies_at(leaves: &Leaves, m: usize, key: u64, at: usize) -> bool
    requires { Listed (lows_of leaves.now) m }
    ensures { Tells (lows_of leaves.now) m key at result }
{
    if m <= at {
        return false;
    }
    let next = at + 1;
    leaf_at(leaves, at).low <= key && (next == m || key < leaf_at(leaves, next).low)
}

// The place of the leaf that holds an address. The place `near`, whatever it is, is tried first: neighbours mostly lie in
// one leaf.
pub fn find_near(leaves: &Leaves, m: usize, a: Address, near: usize) -> usize
    requires { Listed (lows_of leaves.now) m }
    ensures { AtLeaf (lows_of leaves.now) m a result }
{
    if lies_at(leaves, m, a as u64, near) {
        near
    } else {
        find_leaf(leaves, m, a)
    }
}
