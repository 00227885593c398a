// The walk over the slots that passes what it need not look into: nearly all slots, most of which have no entry.
ghost use Rattle.std.specs.Prelude.{false, ◌<◌, ◌≤◌};
ghost use Rattle.spec.specs.Slots.{slot_count};
ghost use Rattle.indexlet.specs.declared.Slot.{Slot as SlotWords};
ghost use Rattle.indexlet.specs.Bitmaps.{BitsFrom};
ghost use Rattle.indexlet.specs.Promises.{SlotsHeld};
ghost use Rattle.merging.specs.SlotWalks.{Passed};

use indexlet::{SLOTS, Slot};
use map::Slots;

// The next slot, from this one on, with an entry at which the walk stops, of the slots whose bits these are; the end of their word if
// there is none.
fn next_in<F: Fn(Slot) -> bool + Copy>(slots: &Slots, stops: F, from: usize, bits: u64) -> usize
    requires slots_held { SlotsHeld slots.now }
    requires from_lt_slot_count { (from < slot_count) × (BitsFrom false slots.now from bits) }
    requires asked { (s : SlotWords) → F.pre stops s }
    ensures { Passed slots.now (F.post stops) from result }
{
    // A word's bits that are set: no range gives their places.
    let mut w = bits;
    while w != 0 {
        let j = from + indexlet::lowest_bit(w);
        let s = indexlet::slot_at(slots, j);
        if stops(s) {
            return j;
        }
        w = indexlet::other_bits(w);
    }
    indexlet::word_end(from)
}

// The same of all slots from this one on; 256 if there is none. Those without an entry are not looked at.
pub fn next<F: Fn(Slot) -> bool + Copy>(slots: &Slots, stops: F, from: usize) -> usize
    requires slots_held { SlotsHeld slots.now }
    requires from_le_slot_count { from ≤ slot_count }
    requires asked { (s : SlotWords) → F.pre stops s }
    ensures { Passed slots.now (F.post stops) from result }
{
    // A word's end lies at a multiple of 64 whatever the start, so no range gives the places.
    let mut next = from;
    while next < SLOTS {
        let w = indexlet::bits_from(slots, next);
        let j = next_in(slots, stops, next, w);
        if j < indexlet::word_end(next) {
            return j;
        }
        next = j;
    }
    next
}
