// Why a run takes no more steps.
ghost use Rattle.std.specs.Prelude.{◌≡◌, not};
ghost use Rattle.lists.specs.Tests.{less};
ghost use Rattle.buffers.specs.Buffers.{counted_places};
ghost use Rattle.replay.specs.Replays.{longest_answer};

use buffers::Places;

// There are none; a code has no meaning; the answer buffer has no room for its longest answer.
#[derive(Clone, Copy)]
pub enum Stop {
    Complete,
    Meaningless,
    Full,
}

// After one code: the place after the answers, and whether it was taken (complete).
#[derive(Clone, Copy)]
pub struct After {
    pub at: usize,
    pub stop: Stop,
}

// There is room for the longest answer of a step that wants so many places: the least of these numbers is small enough.
pub fn fits(room: usize, wanted: Places) -> bool
    ensures { result ≡ not (less room (longest_answer (counted_places wanted))) }
{
    if room < 5 {
        return false;
    }
    let third = (room - 5) / 3;
    let least = wanted.addresses.min(wanted.values).min(wanted.owners);
    least <= third
}
