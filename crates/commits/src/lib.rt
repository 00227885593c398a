// How a transaction commits, or ends without: lock, validate, install and abort.
#![tactic(auto)]

pub mod aborts;
mod drops;
pub mod installs;
pub mod locks;
pub mod validates;
