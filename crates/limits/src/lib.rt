// What holds of the state after every step: the limits of document 01. All of it stands in specs/: this crate has no function.
#![tactic(auto)]
