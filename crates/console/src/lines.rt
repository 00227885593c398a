// A script's line as an operation of the engine.
ghost use Rattle.std.specs.Prelude.{◌≡◌};
ghost use Rattle.script.specs.Grammar.{letter_of};
ghost use Rattle.console.specs.Replies.{Asks};

use engine::steps::{Access, Ending, Op};
use script::Line;

// The operation that a line asks for. No `From`: both types are of other crates.
pub fn op_of(l: Line) -> Op
    ensures { Asks l result }
{
    match l {
        Line::Begin(w) => Op::Begin(w),
        Line::Read(w, k) => Op::Access(w, Access::Read(k)),
        Line::Scan(w, lo, hi) => Op::Access(w, Access::Scan(lo, hi)),
        Line::Put(w, k, v, o) => Op::Access(w, Access::Put(k, v, o)),
        Line::Remove(w, k) => Op::Access(w, Access::Remove(k)),
        Line::Lock(w) => Op::Ending(w, Ending::Lock),
        Line::Validate(w) => Op::Ending(w, Ending::Validate),
        Line::Install(w) => Op::Ending(w, Ending::Install),
        Line::Abort(w) => Op::Ending(w, Ending::Abort),
        Line::Merge(k) => Op::Merge(k),
        Line::MergeOldest => Op::MergeOldest,
    }
}

// The line's letter.
pub fn letter_of(l: Line) -> u8
    ensures { result ≡ letter_of l }
{
    match l {
        Line::Begin(_) => b'B',
        Line::Read(_, _) => b'R',
        Line::Scan(_, _, _) => b'S',
        Line::Put(_, _, _, _) => b'P',
        Line::Remove(_, _) => b'D',
        Line::Lock(_) => b'L',
        Line::Validate(_) => b'V',
        Line::Install(_) => b'I',
        Line::Abort(_) => b'A',
        Line::Merge(_) => b'M',
        Line::MergeOldest => b'T',
    }
}
