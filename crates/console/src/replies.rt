// The line that is written for a reply. The longest has a letter, two numbers, a scan's triples and a line feed.
ghost use Rattle.std.specs.Prelude.{[], ◌∷◌, ◌++◌, ◌+◌, ◌*◌, ◌≤◌, length, take};
ghost use Rattle.lists.specs.Texts.{Wrote};
ghost use Rattle.answers.specs.Output.{field, absent, triples_of};
ghost use Rattle.buffers.specs.Buffers.{Buffers, buffers};
ghost use Rattle.engine.specs.Performs.{places_in};
ghost use Rattle.console.specs.Program.{places, longest_line};
ghost use Rattle.console.specs.Replies.{Replies};

use crate::SCAN_PLACES;
use accesses::reads::Found;
use engine::steps::{Reply, Told};
use spec::Address;

// A read that finds a value: the value, its owner, and the slots examined.
fn put_value_line(
    out: &mut [u8],
    at: usize,
    letter: u8,
    v: u64,
    owner: u16,
    examined: usize,
) -> usize
    requires { at + 86 ≤ length out.old }
    ensures { Wrote out.old at ((letter ∷ field 0 ++ field v ++ field owner ++ field examined) ++ (10 ∷ [])) out.new result }
{
    let next = answers::put_answer(out, at, letter, 0);
    let then = answers::put_field(out, next, v);
    let count = answers::put_field(out, then, owner as u64);
    let last = answers::put_field(out, count, examined as u64);
    answers::put_byte(out, last, b'\n')
}

// A read that finds nothing.
fn put_absent_line(out: &mut [u8], at: usize, letter: u8, examined: usize) -> usize
    requires { at + 46 ≤ length out.old }
    ensures { Wrote out.old at ((letter ∷ field 0 ++ absent ++ field examined) ++ (10 ∷ [])) out.new result }
{
    let next = answers::put_answer(out, at, letter, 0);
    let count = answers::put_absent(out, next);
    let last = answers::put_field(out, count, examined as u64);
    answers::put_byte(out, last, b'\n')
}

// A scan: how many records, and their addresses, values and owners.
fn put_listed_line(
    out: &mut [u8],
    at: usize,
    addresses: &[Address],
    values: &[u64],
    owners: &[u16],
    letter: u8,
    n: usize,
) -> usize
    requires n_in_bounds { (n ≤ length addresses.now) × (n ≤ length values.now) × (n ≤ length owners.now) }
    requires n_in_bounds_2 { at + 44 + 63 * n ≤ length out.old }
    ensures { Wrote out.old at ((letter ∷ field 0 ++ field n ++ triples_of (take n addresses.now) (take n values.now) (take n owners.now)) ++ (10 ∷ [])) out.new result }
{
    let next = answers::put_answer(out, at, letter, 0);
    let first = answers::put_field(out, next, n as u64);
    let last = answers::put_triples(out, first, addresses, values, owners, n);
    answers::put_byte(out, last, b'\n')
}

// What a read finds.
fn write_found(out: &mut [u8], at: usize, letter: u8, f: Found) -> usize
    requires { at + 86 ≤ length out.old }
    ensures { (b : Buffers) → Replies letter (Ok (Told.Found f)) b out.old at out.new result }
{
    match f.value {
        Some(v) => put_value_line(out, at, letter, v.value, v.owner, f.examined),
        None => put_absent_line(out, at, letter, f.examined),
    }
}

// What a granted step tells.
fn write_told(
    out: &mut [u8],
    at: usize,
    addresses: &[Address; SCAN_PLACES],
    values: &[u64; SCAN_PLACES],
    owners: &[u16; SCAN_PLACES],
    letter: u8,
    told: Told,
) -> usize
    requires longest_line_in_bounds { at + longest_line ≤ length out.old }
    requires told_bound { places_in (Ok told) ≤ places }
    ensures { Replies letter (Ok told) (buffers addresses.now values.now owners.now) out.old at out.new result }
{
    match told {
        Told::Nothing => answers::put_line(out, at, letter, 0),
        Told::Found(f) => write_found(out, at, letter, f),
        Told::Listed(n) => put_listed_line(out, at, addresses, values, owners, letter, n),
        Told::Numbered(n) => answers::put_granted_line(out, at, letter, n),
        Told::Counted(n) => answers::put_granted_line(out, at, letter, n as u64),
    }
}

// Any reply; a scan's addresses, values and owners stand in the first places of the buffers.
pub fn write_reply(
    out: &mut [u8],
    at: usize,
    addresses: &[Address; SCAN_PLACES],
    values: &[u64; SCAN_PLACES],
    owners: &[u16; SCAN_PLACES],
    letter: u8,
    reply: Reply,
) -> usize
    requires longest_line_in_bounds { at + longest_line ≤ length out.old }
    requires reply_bound { places_in reply ≤ places }
    ensures { Replies letter reply (buffers addresses.now values.now owners.now) out.old at out.new result }
{
    match reply {
        Ok(told) => write_told(out, at, addresses, values, owners, letter, told),
        Err(r) => answers::put_line(out, at, letter, spec::number_of(r)),
    }
}
