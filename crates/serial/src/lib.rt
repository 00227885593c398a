// The theorem of demand 3: every list of steps is a serial run. All of it stands in specs/: this crate has no function.
#![tactic(auto)]
