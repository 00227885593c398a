// From the bytes of a script to the bytes of its answers, over the engine. What is written for an input is `output`, in
// specs/Program.antt. Nothing here reads or writes a file.
#![tactic(auto)]

// The places of a scan's three buffers (document 01, "The script program", and request 106).
pub const SCAN_PLACES: usize = 64;

pub mod closing;
mod lines;
mod replies;
pub mod session;
