// The steps of an open transaction: read, scan, put and remove.
#![tactic(auto)]

pub mod edits;
pub mod reads;
pub mod scans;
