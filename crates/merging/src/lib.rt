// Merging: `merge` takes the pending writes of a leaf into the index, `oldest` finds the pending write that has waited longest.
// The arrays come under the view and the invariant of crate `map`; none of its functions is called.
#![tactic(auto)]

pub mod merge;
pub mod oldest;
mod walk;
