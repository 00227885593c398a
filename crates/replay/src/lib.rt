// Steps in coded form: one of a job, `steps::step`, and a list of them from a fresh map, those of exports among them,
// `runs::replay`, whose promise is demand 3.
#![tactic(auto)]

mod exporting;
mod jobs;
mod parts;
pub mod runs;
pub mod steps;
pub mod stops;
