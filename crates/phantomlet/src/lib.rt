// The phantomlet: two numbers for each leaf, keys that it hides from somebody and pending writes. What they count
// is in `specs/Phantoms.antt`; `recount` works them out anew after a merge.
#![tactic(auto)]

pub mod recount;
