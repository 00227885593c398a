// The search among records and among leaves: steps that halve, from the first place on. `goes` tells of a place whether the place
// that is sought is that one or one behind it.
ghost use Rattle.std.specs.Prelude.{◌≡◌, ℕ, ◌+◌, ◌/◌, ◌<◌, ◌≤◌};
ghost use Rattle.index.specs.Views.{record_places};
ghost use Rattle.index.specs.Nearing.{Took, Nearing, Asked, Steers};

// One step: `step` places on, if that does not pass the place.
fn probe<F: Fn(usize) -> bool + Copy>(goes: F, base: usize, step: usize) -> usize
    requires room { (0 < step) × (base + step ≤ record_places) }
    requires asked { Asked (F.pre goes) }
    ensures within { result ≤ base + step }
    ensures took { (p : ℕ) → Steers (F.post goes) p → Took p base step result }
{
    let next = base + step;
    if goes(next) { next } else { base }
}

// Two steps at once: the second is tried from both ends of the first, so that three rows are read at a time, and not one after the
// other.
fn probe_two<F: Fn(usize) -> bool + Copy>(goes: F, base: usize, step: usize) -> usize
    requires room { (1 < step) × (base + step + step ≤ record_places) }
    requires asked { Asked (F.pre goes) }
    ensures within { result ≤ base + step + step / 2 }
    ensures near { (p : ℕ) → Steers (F.post goes) p → Nearing p base step → Nearing p result (step / 4) }
{
    let half = step / 2;
    let low = probe(goes, base, half);
    let high = probe(goes, base + step, half);
    let middle = probe(goes, base, step);
    if base < middle { high } else { low }
}

// The place, by steps from half of the places on which it can be.
pub fn descend<F: Fn(usize) -> bool + Copy>(goes: F, half: usize) -> usize
    requires room { half + half ≤ record_places }
    requires asked { Asked (F.pre goes) }
    ensures { (p : ℕ) → Steers (F.post goes) p → Nearing p 0 half → result ≡ p }
{
    // Steps of a quarter each: no range gives them.
    let mut base = 0;
    let mut step = half;
    while 1 < step {
        base = probe_two(goes, base, step);
        step /= 4;
    }
    if step == 1 {
        probe(goes, base, step)
    } else {
        base
    }
}
