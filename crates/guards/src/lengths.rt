// Lengths (refusal 16): whether a section that a worker puts has an allowed length and ends at an address.
ghost use Rattle.std.specs.Prelude.{◌≡◌};
ghost use Rattle.spec.specs.Guards.{unfit, any_put};
ghost use Rattle.sets.specs.Writes.{writes_of, WriteSetOrdered};
ghost use Rattle.guards.specs.Promises.{of_entry};

use sets::writes::{Entry, Write};
use sets::{WriteSet, writes};
use spec::{Address, HIGHEST, LONGEST};

// No section can have this address and length. What lies above the address is compared, since a sum could pass all numbers.
fn unfit(a: Address, len: u64) -> bool
    ensures { result ≡ unfit a len }
{
    if len == 0 || LONGEST < len {
        return true;
    }
    ((HIGHEST - a) as u64) < len - 1
}

// The write is a put of an unfit section.
fn unfit_write(e: Entry) -> bool
    ensures { result ≡ of_entry unfit e }
{
    match e.write {
        Write::Put(p) => unfit(e.address, p.value),
        Write::Deletion => false,
    }
}

// One of the n writes is a put of an unfit section.
pub fn unfit_put(writes: &WriteSet, n: usize) -> bool
    requires { WriteSetOrdered writes.now n }
    ensures { result ≡ any_put unfit (writes_of writes.now n) }
{
    for i in 0..n {
        let e = writes::write_at(writes, i);
        if unfit_write(e) {
            return true;
        }
    }
    false
}
