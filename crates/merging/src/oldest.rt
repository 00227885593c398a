// The pending write that has waited longest (request 101).
ghost use Rattle.std.specs.Prelude.{◌≡◌, ◌<◌, ◌≤◌};
ghost use Rattle.spec.specs.Widths.{addresses};
ghost use Rattle.spec.specs.Slots.{slot_count, entries};
ghost use Rattle.spec.specs.Maps.{oldest_key, ages};
ghost use Rattle.indexlet.specs.Words.{slots_of};
ghost use Rattle.indexlet.specs.Promises as indexlet;
ghost use Rattle.merging.specs.OldestWalks.{key_so, elder, Elder, age_in, Passes};

use crate::walk;
use indexlet::{SLOTS, Slot};
use map::Slots;
use spec::Address;

// A pending write: its address, and the install since which it waits. A walk keeps the oldest of the slots walked over so far.
#[derive(Clone, Copy)]
struct Oldest {
    key: u64,
    since: u64,
}

// A write that waits at the key since that install has waited longer.
fn is_older(o: Oldest, key: u64, since: u64) -> bool
    ensures { result ≡ elder (Some o) key since }
{
    if since == o.since {
        return key < o.key;
    }
    since < o.since
}

// The oldest, slot j included.
fn with_slot(slots: &Slots, j: usize, o: Option<Oldest>) -> Option<Oldest>
    requires slots_held { indexlet.SlotsHeld slots.now }
    requires j_lt_slot_count { (j < slot_count) × (key_so o < addresses) }
    ensures { Elder (slots_of slots.now) j o result }
{
    let s = indexlet::slot_at(slots, j);
    let c = s.content;
    if c.kind == 0 {
        return o;
    }
    let own = Oldest {
        key: s.key,
        since: c.since,
    };
    match o {
        None => Some(own),
        Some(x) => {
            if is_older(x, s.key, c.since) {
                return Some(own);
            }
            o
        }
    }
}

// The install since which a write waits; the largest number where none does, so that one comparison passes both.
fn age(c: indexlet::Content) -> u64
    ensures { result ≡ age_in c }
{
    if c.kind == 0 { u64::MAX } else { c.since }
}

// The next slot, from this one on, that may have a write older than the oldest so far; 256 if there is none. Whether a slot has a
// write is hard to guess, whether it has an older one is not.
fn next_older(slots: &Slots, o: Option<Oldest>, from: usize) -> usize
    requires slots_held { indexlet.SlotsHeld slots.now }
    requires from_le_slot_count { (from ≤ slot_count) × (key_so o < addresses) }
    ensures { Passes (slots_of slots.now) o from result }
{
    match o {
        None => from,
        Some(x) => walk::next(slots, |s: Slot| age(s.content) <= x.since, from),
    }
}

// The address of the pending write that has waited longest; 0 where nothing is pending.
pub fn oldest_waiting(slots: &Slots) -> Address
    requires { indexlet.SlotsHeld slots.now }
    ensures { result ≡ oldest_key (ages (entries (slots_of slots.now))) }
{
    let mut o = None;
    // No range gives the places of a walk that jumps.
    let mut j = 0;
    while j < SLOTS {
        j = next_older(slots, o, j);
        if j < SLOTS {
            o = with_slot(slots, j, o);
            j += 1;
        }
    }
    match o {
        None => 0,
        Some(x) => x.key as Address,
    }
}
