// Demand 3 of any calls of the engine, whoever makes them. What they are stands in specs/, the laws in proofs/: this crate has no
// function.
#![tactic(auto)]
