// Who has a lock: one address, looked up in the indexlet.
ghost use Rattle.std.specs.Prelude.{◌≡◌};
ghost use Rattle.spec.specs.Slots.{content_of};
ghost use Rattle.spec.specs.Maps.{held_by_other};
ghost use Rattle.indexlet.specs.Words.{content_in, slots_of};
ghost use Rattle.indexlet.specs.Promises as indexlet;
ghost use Rattle.map.specs.LockLaws.{holder_of};

use crate::Slots;
use spec::Address;

// Who has the lock, if somebody has it: its word is 0, or one more than the worker.
pub fn holder(c: indexlet::Content) -> Option<u64>
    ensures { holder_of result ≡ (content_in c).holder }
{
    c.lock.checked_sub(1)
}

// Another worker than w has the lock.
fn by_other(c: indexlet::Content, w: u64) -> bool
    ensures { result ≡ held_by_other w (content_in c) }
{
    match holder(c) {
        Some(h) => h != w,
        None => false,
    }
}

// Another worker than w has the lock of the address.
pub fn locked_by_other(slots: &Slots, a: Address, w: u64) -> bool
    requires { indexlet.SlotsHeld slots.now }
    ensures { result ≡ held_by_other w (content_of (slots_of slots.now) a) }
{
    let at = indexlet::find(slots, a);
    let c = indexlet::content_at(slots, at);
    by_other(c, w)
}
