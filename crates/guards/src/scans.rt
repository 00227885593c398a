// Scans (refusal 17): which of the scans that a worker remembers decides about a section.
ghost use Rattle.std.specs.Prelude.{◌≡◌, false, ◌-◌, ◌≤◌};
ghost use Rattle.spec.specs.Records.{limits};
ghost use Rattle.spec.specs.Guards.{unfit, covers, deciding, uncovered, any_put};
ghost use Rattle.sets.specs.Leaves.{scanned_in, scans_of, LeafSetHeld};
ghost use Rattle.sets.specs.Writes.{writes_of, WriteSetOrdered};
ghost use Rattle.guards.specs.Promises.{of_entry, decision_in};

use sets::leaves::Scanned;
use sets::writes::{Entry, Write};
use sets::{LeafSet, WriteSet, leaves, writes};
use spec::{Address, LONGEST};

// The lowest address from which a section can reach the address.
fn lowest_reaching(a: Address) -> u64
    ensures { result ≡ a - (limits.longest - 1) }
{
    let k = a as u64;
    if k < LONGEST {
        return 0;
    }
    k - (LONGEST - 1)
}

// The scan covers the section and all addresses from which another one could reach into it.
fn covers(s: Scanned, a: Address, len: u64) -> bool
    requires { unfit a len ≡ false }
    ensures { result ≡ covers a len (scanned_in s) }
{
    s.lo <= lowest_reaching(a) && a as u64 + len - 1 <= s.hi
}

// Which scan decides: the latest that covers the section, if one does. The m rows of the leaf set are walked from the last to the
// first, since later scans stand behind.
pub fn deciding(leafset: &LeafSet, m: usize, a: Address, len: u64) -> Option<Scanned>
    requires leaf_set_held { LeafSetHeld leafset.now }
    requires m_le_leaf_set_limit { m ≤ limits.leaf_set_limit }
    requires len_value { unfit a len ≡ false }
    ensures { decision_in result ≡ deciding (scans_of leafset.now m) a len }
{
    for i in (0..m).rev() {
        if let Some(s) = leaves::note_at(leafset, i) {
            if covers(s, a, len) {
                return Some(s);
            }
        }
    }
    None
}

// The write is a put that no scan covers.
fn uncovered_write(leafset: &LeafSet, m: usize, e: Entry) -> bool
    requires leaf_set_held { LeafSetHeld leafset.now }
    requires m_le_leaf_set_limit { m ≤ limits.leaf_set_limit }
    requires e_value { of_entry unfit e ≡ false }
    ensures { result ≡ of_entry (uncovered (scans_of leafset.now m)) e }
{
    match e.write {
        Write::Put(p) => deciding(leafset, m, e.address, p.value).is_none(),
        Write::Deletion => false,
    }
}

// One of the n writes is a put that no scan covers. No put is unfit.
pub fn uncovered_put(leafset: &LeafSet, m: usize, writes: &WriteSet, n: usize) -> bool
    requires leaf_set_held { LeafSetHeld leafset.now }
    requires m_le_leaf_set_limit { m ≤ limits.leaf_set_limit }
    requires write_set_ordered { WriteSetOrdered writes.now n }
    requires n_value { any_put unfit (writes_of writes.now n) ≡ false }
    ensures { result ≡ any_put (uncovered (scans_of leafset.now m)) (writes_of writes.now n) }
{
    for i in 0..n {
        let e = writes::write_at(writes, i);
        if uncovered_write(leafset, m, e) {
            return true;
        }
    }
    false
}
