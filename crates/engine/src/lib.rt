// One entry over the eleven steps. A crate of its own, since its check is long, and who edits one step need not wait for it.
#![tactic(auto)]

pub mod steps;
