// Answers in numbers, and put into lent words at a place: each function that does answers the place after what it wrote.
ghost use Rattle.std.specs.Prelude.{◌≡◌, List, [], ◌∷◌, ℕ, ◌+◌, ◌*◌, ◌≤◌, length};
ghost use Rattle.lists.specs.Texts.{Wrote};
ghost use Rattle.spec.specs.Steps.{shortest};
ghost use Rattle.buffers.specs.Buffers.{buffers, places_of, rows_in};
ghost use Rattle.exports.specs.Exporting.{space, export_answer_in, places_written, bytes_written};
ghost use Rattle.engine.specs.Performs.{reply_in, places_in};
ghost use Rattle.codes.specs.Codes.{coded_found, coded_of, no_meaning, listed_words, words_of};
ghost use Rattle.codes.specs.ExportCodes.{export_coded_of, export_words};
ghost use Rattle.codes.specs.Words.{head_words, Roomy, ExportRoomy};

use crate::{Coded, MEANINGLESS};
use accesses::reads::Found;
use engine::steps::{Reply, Told};
use exports::{ExportAnswer, ExportTold};
use spec::{Address, number_of};

// The answer of a granted step that tells nothing.
const GRANTED: Coded = Coded {
    number: 0,
    told: 0,
    value: 0,
    beside: 0,
    examined: 0,
};

// What a read finds.
fn encode_found(f: Found) -> Coded
    ensures { result ≡ coded_found f.value f.examined }
{
    let examined = f.examined as u64;
    match f.value {
        Some(v) => Coded {
            told: 1,
            value: v.value,
            beside: v.owner as u64,
            examined,
            ..GRANTED
        },
        None => Coded {
            told: 2,
            examined,
            ..GRANTED
        },
    }
}

// A reply in numbers.
pub fn encode(p: Reply) -> Coded
    ensures { result ≡ coded_of p }
{
    match p {
        Ok(Told::Nothing) => GRANTED,
        Ok(Told::Found(f)) => encode_found(f),
        Ok(Told::Listed(n)) => Coded {
            told: 3,
            value: n as u64,
            ..GRANTED
        },
        Ok(Told::Numbered(n)) => Coded {
            told: 4,
            value: n,
            ..GRANTED
        },
        Ok(Told::Counted(n)) => Coded {
            told: 5,
            value: n as u64,
            ..GRANTED
        },
        Err(r) => Coded {
            number: number_of(r),
            ..GRANTED
        },
    }
}

// The answer of an export step in numbers.
pub fn encode_export(p: ExportAnswer) -> Coded
    ensures { result ≡ export_coded_of p }
{
    match p {
        Ok(ExportTold::Opened(n)) => Coded {
            told: 6,
            value: n as u64,
            ..GRANTED
        },
        Ok(ExportTold::Given(n, left)) => Coded {
            told: 7,
            value: n as u64,
            beside: left as u64,
            ..GRANTED
        },
        Ok(ExportTold::Filed(n)) => Coded {
            told: 8,
            value: n as u64,
            ..GRANTED
        },
        Ok(ExportTold::Closed) => GRANTED,
        Err(r) => Coded {
            number: number_of(r),
            ..GRANTED
        },
    }
}

// The answer to a code with no meaning.
pub fn no_meaning() -> Coded
    ensures { result ≡ no_meaning }
{
    Coded {
        number: MEANINGLESS,
        ..GRANTED
    }
}

fn put_two(out: &mut [u64], at: usize, a: u64, b: u64) -> usize
    requires { at + 2 ≤ length out.old }
    ensures { Wrote out.old at (a ∷ b ∷ []) out.new result }
{
    out[at] = a;
    out[at + 1] = b;
    at + 2
}

fn put_three(out: &mut [u64], at: usize, a: u64, b: u64, c: u64) -> usize
    requires { at + 3 ≤ length out.old }
    ensures { Wrote out.old at (a ∷ b ∷ c ∷ []) out.new result }
{
    let next = put_two(out, at, a, b);
    out[next] = c;
    next + 1
}

// The five words of every answer.
fn put_head(out: &mut [u64], at: usize, a: Coded) -> usize
    requires { at + 5 ≤ length out.old }
    ensures { Wrote out.old at (head_words a) out.new result }
{
    let next = put_two(out, at, a.number, a.told);
    put_three(out, next, a.value, a.beside, a.examined)
}

// The first n places of the buffers.
fn put_rows(
    out: &mut [u64],
    at: usize,
    addresses: &[Address],
    values: &[u64],
    owners: &[u16],
    n: usize,
) -> usize
    requires n_bound { n ≤ shortest (places_of (buffers addresses.now values.now owners.now)) }
    requires n_in_bounds { at + 3 * n ≤ length out.old }
    ensures { Wrote out.old at
        (listed_words (rows_in n (buffers addresses.now values.now owners.now))) out.new result }
{
    let mut next = at;
    for i in 0..n {
        next = put_three(out, next, addresses[i] as u64, values[i], owners[i] as u64);
    }
    next
}

// How many places of the buffers a step filled.
fn listed(p: Reply) -> usize
    ensures { result ≡ places_in p }
{
    match p {
        Ok(Told::Listed(n)) => n,
        _ => 0,
    }
}

// The words of an answer: its five, and a scan's records.
pub fn put_answer_words(
    out: &mut [u64],
    at: usize,
    addresses: &[Address],
    values: &[u64],
    owners: &[u16],
    p: Reply,
) -> usize
    requires { Roomy p (buffers addresses.now values.now owners.now) out.old at }
    ensures { Wrote out.old at
        (words_of (reply_in p (buffers addresses.now values.now owners.now))) out.new result }
{
    let next = put_head(out, at, encode(p));
    put_rows(out, next, addresses, values, owners, listed(p))
}

// How many places of the buffers an export step filled.
#[tactic(auto, unfolding(exports::specs::Exporting::places_written))]
fn given(p: ExportAnswer) -> usize
    ensures { result ≡ places_written p }
{
    match p {
        Ok(ExportTold::Given(n, _)) => n,
        _ => 0,
    }
}

// The words of an export step's answer: its five, and a portion's records.
pub fn put_export_words(
    out: &mut [u64],
    at: usize,
    addresses: &[Address],
    values: &[u64],
    owners: &[u16],
    p: ExportAnswer,
) -> usize
    requires { ExportRoomy p (buffers addresses.now values.now owners.now) out.old at }
    ensures { (bs : List ℕ) → bytes_written p ≤ length bs → Wrote out.old at
        (export_words (export_answer_in p (space (buffers addresses.now values.now owners.now) bs))) out.new result }
{
    let next = put_head(out, at, encode_export(p));
    put_rows(out, next, addresses, values, owners, given(p))
}
