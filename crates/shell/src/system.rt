// The two calls of the system, and the count of them. Only here are they made, and only here is the count set: its fields are
// private, so nothing outside can count a call that was not made, or make up its answer.
ghost use Rattle.std.specs.Prelude.{◌+◌, ◌^◌, ◌<◌, ◌≤◌, ◌≡◌, length, take};
ghost use Rattle.map.specs.Views.{lent};
ghost use Rattle.transactions.specs.Views.{logs};
ghost use Rattle.shell.specs.Works.{no_calls, Countable, Reads, Owed, ReadMade, WriteMade};

use crate::Work;
use map::{Leaves, Records, Slots};
use sets::{LeafSets, ReadSets, WriteSets};
use std::io::{Read, Stdin, Stdout, Write};
use workers::Workers;

// How many calls were made, how many bytes they read, how many they were handed to write, and what the last one answered: how
// many bytes it brought, of which a write brings 0, or none where it failed.
#[derive(Clone, Copy)]
pub struct Calls {
    made: u64,
    fed: u64,
    told: u64,
    answer: Option<usize>,
}

// Before the first call.
pub fn none() -> Calls
    ensures { result ≡ no_calls }
{
    Calls {
        made: 0,
        fed: 0,
        told: 0,
        answer: Some(0),
    }
}

// What the last call answered.
pub fn answer(calls: Calls) -> Option<usize>
    ensures { result ≡ calls.answer }
{
    calls.answer
}

// Asks the system for more input. The arrays are lent for the contract alone: it says when there is something to ask for.
pub fn read_next(
    mut from: Stdin,
    input: &mut [u8],
    rows: &Records,
    leaves: &Leaves,
    slots: &Slots,
    reads: &ReadSets,
    leafsets: &LeafSets,
    writes: &WriteSets,
    workers: &Workers,
    w: Work,
) -> Calls
    requires reads { Reads (lent rows.now leaves.now slots.now) (logs reads.now leafsets.now writes.now) workers.now input.old w }
    requires countable { Countable w (length input.old) }
    ensures { ReadMade w.calls (length input.new) result }
{
    let c = w.calls;
    let got = from.read(input).ok();
    Calls {
        made: c.made + 1,
        fed: c.fed + got.unwrap_or(0) as u64,
        answer: got,
        ..c
    }
}

// Asks the system to write the first n bytes. The arrays are lent for the contract alone: it says that these bytes are due.
pub fn write_due(
    mut to: Stdout,
    out: &[u8],
    n: usize,
    rows: &Records,
    leaves: &Leaves,
    slots: &Slots,
    reads: &ReadSets,
    leafsets: &LeafSets,
    writes: &WriteSets,
    workers: &Workers,
    input: &[u8],
    w: Work,
) -> Calls
    requires n_in_bounds { n ≤ length out.now }
    requires owed { Owed (lent rows.now leaves.now slots.now) (logs reads.now leafsets.now writes.now) workers.now input.now w (take n out.now) }
    requires countable { Countable w n }
    ensures { WriteMade w.calls n result }
{
    let c = w.calls;
    let answer = match to.write_all(&out[..n]) {
        Ok(()) => Some(0),
        Err(_) => None,
    };
    Calls {
        made: c.made + 1,
        told: c.told + n as u64,
        answer,
        ..c
    }
}
