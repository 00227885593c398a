// Laws of the model that the theorem and the engine share. All of it stands in specs/: this crate has no function.
#![tactic(auto)]
