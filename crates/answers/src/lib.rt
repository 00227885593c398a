// The lines of answers: their text, put into lent bytes at a place. Each function answers the place after its text, and asks
// room for the longest text that it can write: 20 bytes for a number. What is written is said in specs/Output.antt.
#![tactic(auto)]

ghost use Rattle.std.specs.Prelude.{[], ◌∷◌, ◌++◌, ◌+◌, ◌*◌, ◌≤◌, ◌<◌, length, take};
ghost use Rattle.lists.specs.Texts.{Wrote};
ghost use Rattle.answers.specs.Output.{decimal, field, absent, triple, triples_of, guarded_answer, malformed_line};
ghost use Rattle.answers.specs.OutputLaws.{pair, four, eight};

use spec::Address;

// A byte.
pub fn put_byte(out: &mut [u8], at: usize, b: u8) -> usize
    requires { at < length out.old }
    ensures { Wrote out.old at (b ∷ []) out.new result }
{
    out[at] = b;
    at + 1
}

// Two digits. Numbers are written in parts of known width, so that digits are neither counted nor divided off one by one.
fn put_pair(out: &mut [u8], at: usize, n: u64) -> usize
    requires { (n < 100) × (at + 2 ≤ length out.old) }
    ensures { Wrote out.old at (pair n) out.new result }
{
    let next = put_byte(out, at, b'0' + (n / 10) as u8);
    put_byte(out, next, b'0' + (n % 10) as u8)
}

// Four digits.
fn put_four(out: &mut [u8], at: usize, n: u64) -> usize
    requires { (n < 10000) × (at + 4 ≤ length out.old) }
    ensures { Wrote out.old at (four n) out.new result }
{
    let next = put_pair(out, at, n / 100);
    put_pair(out, next, n % 100)
}

// Eight digits.
fn put_eight(out: &mut [u8], at: usize, n: u64) -> usize
    requires { (n < 100000000) × (at + 8 ≤ length out.old) }
    ensures { Wrote out.old at (eight n) out.new result }
{
    let next = put_four(out, at, n / 10_000);
    put_four(out, next, n % 10_000)
}

// A number of one or two digits.
fn put_small(out: &mut [u8], at: usize, n: u64) -> usize
    requires { (n < 100) × (at + 2 ≤ length out.old) }
    ensures { Wrote out.old at (decimal n) out.new result }
{
    if n < 10 {
        put_byte(out, at, b'0' + n as u8)
    } else {
        put_pair(out, at, n)
    }
}

// A number of at most four digits.
fn put_short(out: &mut [u8], at: usize, n: u64) -> usize
    requires { (n < 10000) × (at + 4 ≤ length out.old) }
    ensures { Wrote out.old at (decimal n) out.new result }
{
    if n < 100 {
        put_small(out, at, n)
    } else {
        let next = put_small(out, at, n / 100);
        put_pair(out, next, n % 100)
    }
}

// A number of at most eight digits.
fn put_middle(out: &mut [u8], at: usize, n: u64) -> usize
    requires { (n < 100000000) × (at + 8 ≤ length out.old) }
    ensures { Wrote out.old at (decimal n) out.new result }
{
    if n < 10_000 {
        put_short(out, at, n)
    } else {
        let next = put_short(out, at, n / 10_000);
        put_four(out, next, n % 10_000)
    }
}

// A number of nine digits or more.
fn put_long(out: &mut [u8], at: usize, n: u64) -> usize
    requires { (100000000 ≤ n) × (at + 20 ≤ length out.old) }
    ensures { Wrote out.old at (decimal n) out.new result }
{
    let high = n / 100_000_000;
    if high < 100_000_000 {
        let next = put_middle(out, at, high);
        put_eight(out, next, n % 100_000_000)
    } else {
        let next = put_short(out, at, high / 100_000_000);
        let last = put_eight(out, next, high % 100_000_000);
        put_eight(out, last, n % 100_000_000)
    }
}

// A number in decimal. Most have one digit, which needs no division.
fn put_number(out: &mut [u8], at: usize, n: u64) -> usize
    requires { at + 20 ≤ length out.old }
    ensures { Wrote out.old at (decimal n) out.new result }
{
    if n < 10 {
        put_byte(out, at, b'0' + n as u8)
    } else if n < 100_000_000 {
        put_middle(out, at, n)
    } else {
        put_long(out, at, n)
    }
}

// A space and a number.
pub fn put_field(out: &mut [u8], at: usize, n: u64) -> usize
    requires { at + 21 ≤ length out.old }
    ensures { Wrote out.old at (field n) out.new result }
{
    let next = put_byte(out, at, b' ');
    put_number(out, next, n)
}

// A line's letter and its answer number; also `E` and the count of the present records.
pub fn put_answer(out: &mut [u8], at: usize, letter: u8, number: u64) -> usize
    requires { at + 22 ≤ length out.old }
    ensures { Wrote out.old at (letter ∷ field number) out.new result }
{
    let next = put_byte(out, at, letter);
    put_field(out, next, number)
}

// What a read adds that finds nothing.
pub fn put_absent(out: &mut [u8], at: usize) -> usize
    requires { at + 2 ≤ length out.old }
    ensures { Wrote out.old at absent out.new result }
{
    let next = put_byte(out, at, b' ');
    put_byte(out, next, b'-')
}

// A record's address, value and owner.
pub fn put_triple(out: &mut [u8], at: usize, address: u64, value: u64, owner: u16) -> usize
    requires { at + 63 ≤ length out.old }
    ensures { Wrote out.old at (triple address value owner) out.new result }
{
    let next = put_field(out, at, address);
    let last = put_field(out, next, value);
    put_field(out, last, owner as u64)
}

// The first n addresses, values and owners.
pub fn put_triples(
    out: &mut [u8],
    at: usize,
    addresses: &[Address],
    values: &[u64],
    owners: &[u16],
    n: usize,
) -> usize
    requires n_in_bounds { (n ≤ length addresses.now) × (n ≤ length values.now) × (n ≤ length owners.now) }
    requires n_in_bounds_2 { at + 63 * n ≤ length out.old }
    ensures { Wrote out.old at (triples_of (take n addresses.now) (take n values.now) (take n owners.now)) out.new result }
{
    let mut next = at;
    for i in 0..n {
        next = put_triple(out, next, addresses[i] as u64, values[i], owners[i]);
    }
    next
}

// A whole line with nothing but the answer number: a refused step, or a granted one that adds nothing.
pub fn put_line(out: &mut [u8], at: usize, letter: u8, number: u64) -> usize
    requires { at + 23 ≤ length out.old }
    ensures { Wrote out.old at ((letter ∷ field number) ++ (10 ∷ [])) out.new result }
{
    let next = put_answer(out, at, letter, number);
    put_byte(out, next, b'\n')
}

// A whole line of a granted step that adds a number: a validation's number, a merge's count.
pub fn put_granted_line(out: &mut [u8], at: usize, letter: u8, n: u64) -> usize
    requires { at + 44 ≤ length out.old }
    ensures { Wrote out.old at ((letter ∷ field 0 ++ field n) ++ (10 ∷ [])) out.new result }
{
    let next = put_answer(out, at, letter, 0);
    let last = put_field(out, next, n);
    put_byte(out, last, b'\n')
}

// What is written for the line `G`.
pub fn put_guarded(out: &mut [u8], at: usize) -> usize
    requires { at + 23 ≤ length out.old }
    ensures { Wrote out.old at guarded_answer out.new result }
{
    put_line(out, at, b'G', 0)
}

// What is written after a malformed line.
pub fn put_malformed(out: &mut [u8], at: usize) -> usize
    requires { at + 2 ≤ length out.old }
    ensures { Wrote out.old at malformed_line out.new result }
{
    let next = put_byte(out, at, b'?');
    put_byte(out, next, b'\n')
}
