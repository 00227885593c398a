// Range scans over lent arrays: what a scan of one worker has to do, its walk over the index and the worker's writes, and
// what it logs. No seat is known here.
#![tactic(auto)]

mod logs;
pub mod plans;
mod walks;
