// Script lines: the parser, which takes a line byte by byte from slices of any size and keeps no line. What a line says is
// `meaning`, in specs/Grammar.antt.
#![tactic(auto)]

ghost use Rattle.std.specs.Prelude.{◌≡◌, true, not, List, [], ◌∷◌, ℕ, ◌+◌, ◌-◌, ◌*◌, ◌<◌, ◌≤◌, length, MatchOption};
ghost use Rattle.script.specs.Grammar.{is_digit, line_of};
ghost use Rattle.script.specs.Parsing.{none_before, one_before, two_before, three_before, in_number, started, filled, After, Parses};
ghost use Rattle.script.specs.Tokens.{Advances, ParsesPart, Stops, Digits, malformed, told};

use spec::Address;

// A line of a script, with its numbers.
#[derive(Clone, Copy)]
pub enum Line {
    Begin(u32),
    Read(u32, Address),
    Scan(u32, Address, Address),
    Put(u32, Address, u64, u16),
    Remove(u32, Address),
    Lock(u32),
    Validate(u32),
    Install(u32),
    Abort(u32),
    Merge(Address),
    MergeOldest,
}

// What is kept of the current line: nothing is read; or the letter; or `T` or `G`, which have no number; or a letter, a
// space, the numbers before the current one, and of that whether it has a digit yet, and its value so far. It is copied at
// every turn, and so is its padding; seven bytes of that go as two moves that overlap, which the next read of them waits
// for. Hence the small fields come first, and there is no enum within. A letter without numbers has a variant of its own:
// were its line told in `after_letter`, every short line would take more instructions.
#[derive(Clone, Copy)]
pub enum Parser {
    Start,
    Letter(u8),
    Oldest,
    Guard,
    First {
        letter: u8,
        digit: bool,
        value: u64,
    },
    Second {
        letter: u8,
        digit: bool,
        a: u64,
        value: u64,
    },
    Third {
        letter: u8,
        digit: bool,
        a: u64,
        b: u64,
        value: u64,
    },
    Fourth {
        letter: u8,
        digit: bool,
        a: u64,
        b: u64,
        c: u64,
        value: u64,
    },
}

// What reading came to: a line that is a step; the line `G`; a malformed line; or the slice's end.
#[derive(Clone, Copy)]
pub enum Event {
    Line(Line),
    Guard,
    Malformed,
    SliceEnd,
}

// The parser to go on with, the place after the last byte read, and what reading came to.
#[derive(Clone, Copy)]
pub struct Parsed {
    pub parser: Parser,
    pub next: usize,
    pub event: Event,
}

// A run of digits: the place after it, whether the number has a digit, and its value.
#[derive(Clone, Copy)]
struct Run {
    next: usize,
    digit: bool,
    value: u64,
}

const SPACE: u8 = b' ';

const LINE_FEED: u8 = b'\n';

// Ten times a number below it, and a digit, fit 64 bits.
const TENTH: u64 = u64::MAX / 10;

// The parser at the start of a line.
pub fn fresh_parser() -> Parser
    ensures { After [] result }
{
    Parser::Start
}

// Nothing of a line has been read. At the end of the input anything else is a line without its line feed, and malformed.
pub fn at_line_start(p: Parser) -> bool
    ensures value { result ≡ not (started p) }
    ensures by_index { (seen : List ℕ) → After seen p → result ≡ not (filled seen) }
{
    matches!(p, Parser::Start)
}

// A line of one number: the address of a fold, or a seat. Each is as wide as its own type.
fn one(letter: u8, a: u64) -> Event
    ensures { result ≡ told (line_of letter (a ∷ [])) }
{
    if letter == b'M' {
        let Ok(k) = Address::try_from(a) else {
            return Event::Malformed;
        };
        return Event::Line(Line::Merge(k));
    }
    let Ok(w) = u32::try_from(a) else {
        return Event::Malformed;
    };
    match letter {
        b'B' => Event::Line(Line::Begin(w)),
        b'L' => Event::Line(Line::Lock(w)),
        b'V' => Event::Line(Line::Validate(w)),
        b'I' => Event::Line(Line::Install(w)),
        b'A' => Event::Line(Line::Abort(w)),
        _ => Event::Malformed,
    }
}

// A line of two numbers.
fn two(letter: u8, a: u64, b: u64) -> Event
    ensures { result ≡ told (line_of letter (a ∷ b ∷ [])) }
{
    let (Ok(w), Ok(k)) = (u32::try_from(a), Address::try_from(b)) else {
        return Event::Malformed;
    };
    match letter {
        b'R' => Event::Line(Line::Read(w, k)),
        b'D' => Event::Line(Line::Remove(w, k)),
        _ => Event::Malformed,
    }
}

// A line of three numbers.
fn three(letter: u8, a: u64, b: u64, c: u64) -> Event
    ensures { result ≡ told (line_of letter (a ∷ b ∷ c ∷ [])) }
{
    match (
        letter,
        u32::try_from(a),
        Address::try_from(b),
        Address::try_from(c),
    ) {
        (b'S', Ok(w), Ok(lo), Ok(hi)) => Event::Line(Line::Scan(w, lo, hi)),
        _ => Event::Malformed,
    }
}

// A line of four numbers.
fn four(letter: u8, a: u64, b: u64, c: u64, d: u64) -> Event
    ensures { result ≡ told (line_of letter (a ∷ b ∷ c ∷ d ∷ [])) }
{
    match (
        letter,
        u32::try_from(a),
        Address::try_from(b),
        u16::try_from(d),
    ) {
        (b'P', Ok(w), Ok(k), Ok(owner)) => Event::Line(Line::Put(w, k, c, owner)),
        _ => Event::Malformed,
    }
}

// No line begins so.
fn malformed(next: usize) -> Parsed
    ensures { result ≡ malformed next }
{
    Parsed {
        parser: Parser::Start,
        next,
        event: Event::Malformed,
    }
}

// A number with one more digit. There is none if the byte is no digit, or the number would have more than 64 bits: a short
// one, as most are, passes by one test.
fn with_digit(n: u64, b: u8) -> Option<u64>
    ensures { MatchOption result (Stops n b) (λ m. (is_digit b ≡ true) × (m ≡ n * 10 + (b - 48))) }
{
    if !b.is_ascii_digit() {
        return None;
    }
    let d = (b - b'0') as u64;
    if n < TENTH {
        Some(n * 10 + d)
    } else {
        n.checked_mul(10)?.checked_add(d)
    }
}

// A number's digits from a place on: where they end, if the number has a digit, and its value so far. They end at the
// slice's end, or at a byte that goes on with no number: no digit, or one that makes it more than 64 bits.
fn digits(s: &[u8], from: usize, mut digit: bool, mut value: u64) -> Run
    requires { from ≤ length s.now }
    ensures { Digits s.now from digit value result }
{
    for i in from..s.len() {
        let Some(n) = with_digit(value, s[i]) else {
            return Run {
                next: i,
                digit,
                value,
            };
        };
        value = n;
        digit = true;
    }
    Run {
        next: s.len(),
        digit,
        value,
    }
}

// From a place in or before the first number on: to the slice's end, or past the byte that ends the number. Each number of a
// line has a function of its own, called in one place alone, so that the compiler puts all four there.
fn first_number(s: &[u8], i: usize, letter: u8, digit: bool, value: u64) -> Parsed
    requires { i < length s.now }
    ensures parses_part { ParsesPart s.now i (in_number letter none_before digit value) result }
    ensures i_lt_next { i < result.next }
{
    let run = digits(s, i, digit, value);
    let next = run.next;
    if next >= s.len() {
        return Parsed {
            parser: Parser::First {
                letter,
                digit: run.digit,
                value: run.value,
            },
            next,
            event: Event::SliceEnd,
        };
    }
    match s[next] {
        SPACE if run.digit => Parsed {
            parser: Parser::Second {
                letter,
                digit: false,
                a: run.value,
                value: 0,
            },
            next: next + 1,
            event: Event::SliceEnd,
        },
        LINE_FEED if run.digit => Parsed {
            parser: Parser::Start,
            next: next + 1,
            event: one(letter, run.value),
        },
        _ => malformed(next + 1),
    }
}

// The same of the second number.
fn second_number(s: &[u8], i: usize, letter: u8, a: u64, digit: bool, value: u64) -> Parsed
    requires { i < length s.now }
    ensures parses_part { ParsesPart s.now i (in_number letter (one_before a) digit value) result }
    ensures i_lt_next { i < result.next }
{
    let run = digits(s, i, digit, value);
    let next = run.next;
    if next >= s.len() {
        return Parsed {
            parser: Parser::Second {
                letter,
                digit: run.digit,
                a,
                value: run.value,
            },
            next,
            event: Event::SliceEnd,
        };
    }
    match s[next] {
        SPACE if run.digit => Parsed {
            parser: Parser::Third {
                letter,
                digit: false,
                a,
                b: run.value,
                value: 0,
            },
            next: next + 1,
            event: Event::SliceEnd,
        },
        LINE_FEED if run.digit => Parsed {
            parser: Parser::Start,
            next: next + 1,
            event: two(letter, a, run.value),
        },
        _ => malformed(next + 1),
    }
}

// The same of the third number.
fn third_number(s: &[u8], i: usize, letter: u8, a: u64, b: u64, digit: bool, value: u64) -> Parsed
    requires { i < length s.now }
    ensures parses_part { ParsesPart s.now i (in_number letter (two_before a b) digit value) result }
    ensures i_lt_next { i < result.next }
{
    let run = digits(s, i, digit, value);
    let next = run.next;
    if next >= s.len() {
        return Parsed {
            parser: Parser::Third {
                letter,
                digit: run.digit,
                a,
                b,
                value: run.value,
            },
            next,
            event: Event::SliceEnd,
        };
    }
    match s[next] {
        SPACE if run.digit => Parsed {
            parser: Parser::Fourth {
                letter,
                digit: false,
                a,
                b,
                c: run.value,
                value: 0,
            },
            next: next + 1,
            event: Event::SliceEnd,
        },
        LINE_FEED if run.digit => Parsed {
            parser: Parser::Start,
            next: next + 1,
            event: three(letter, a, b, run.value),
        },
        _ => malformed(next + 1),
    }
}

// The same of the fourth number, after which a line can only end.
fn last_number(
    s: &[u8],
    i: usize,
    letter: u8,
    a: u64,
    b: u64,
    c: u64,
    digit: bool,
    value: u64,
) -> Parsed
    requires { i < length s.now }
    ensures parses_part { ParsesPart s.now i (in_number letter (three_before a b c) digit value) result }
    ensures i_lt_next { i < result.next }
{
    let run = digits(s, i, digit, value);
    let next = run.next;
    if next >= s.len() {
        return Parsed {
            parser: Parser::Fourth {
                letter,
                digit: run.digit,
                a,
                b,
                c,
                value: run.value,
            },
            next,
            event: Event::SliceEnd,
        };
    }
    match s[next] {
        LINE_FEED if run.digit => Parsed {
            parser: Parser::Start,
            next: next + 1,
            event: four(letter, a, b, c, run.value),
        },
        _ => malformed(next + 1),
    }
}

// The first byte of a line. Any byte but a space, a line feed, `T` or `G` may be the letter of a line of numbers: the line's
// end tells.
fn start(s: &[u8], i: usize) -> Parsed
    requires { i < length s.now }
    ensures parses_part { ParsesPart s.now i Parser.Start result }
    ensures i_lt_next { i < result.next }
{
    let parser = match s[i] {
        SPACE | LINE_FEED => return malformed(i + 1),
        b'T' => Parser::Oldest,
        b'G' => Parser::Guard,
        letter => Parser::Letter(letter),
    };
    Parsed {
        parser,
        next: i + 1,
        event: Event::SliceEnd,
    }
}

// The byte after the letter, which must be a space.
fn after_letter(s: &[u8], i: usize, letter: u8) -> Parsed
    requires { i < length s.now }
    ensures parses_part { ParsesPart s.now i (Parser.Letter letter) result }
    ensures i_lt_next { i < result.next }
{
    if s[i] == SPACE {
        Parsed {
            parser: Parser::First {
                letter,
                digit: false,
                value: 0,
            },
            next: i + 1,
            event: Event::SliceEnd,
        }
    } else {
        malformed(i + 1)
    }
}

// The byte after `T`, which must be the line feed.
fn after_oldest(s: &[u8], i: usize) -> Parsed
    requires { i < length s.now }
    ensures parses_part { ParsesPart s.now i Parser.Oldest result }
    ensures i_lt_next { i < result.next }
{
    if s[i] == LINE_FEED {
        Parsed {
            parser: Parser::Start,
            next: i + 1,
            event: Event::Line(Line::MergeOldest),
        }
    } else {
        malformed(i + 1)
    }
}

// The byte after `G`, which must be the line feed.
fn after_guard(s: &[u8], i: usize) -> Parsed
    requires { i < length s.now }
    ensures parses_part { ParsesPart s.now i Parser.Guard result }
    ensures i_lt_next { i < result.next }
{
    let end = s[i];
    if end == LINE_FEED {
        Parsed {
            parser: Parser::Start,
            next: i + 1,
            event: Event::Guard,
        }
    } else {
        malformed(i + 1)
    }
}

// One turn: the letter, the byte after it, or a number with the byte that ends it.
fn parse_part(s: &[u8], i: usize, p: Parser) -> Parsed
    requires { i < length s.now }
    ensures parses_part { ParsesPart s.now i p result }
    ensures i_lt_next { i < result.next }
{
    match p {
        Parser::Start => start(s, i),
        Parser::Letter(c) => after_letter(s, i, c),
        Parser::Oldest => after_oldest(s, i),
        Parser::Guard => after_guard(s, i),
        Parser::First {
            letter,
            digit,
            value,
        } => first_number(s, i, letter, digit, value),
        Parser::Second {
            letter,
            digit,
            a,
            value,
        } => second_number(s, i, letter, a, digit, value),
        Parser::Third {
            letter,
            digit,
            a,
            b,
            value,
        } => third_number(s, i, letter, a, b, digit, value),
        Parser::Fourth {
            letter,
            digit,
            a,
            b,
            c,
            value,
        } => last_number(s, i, letter, a, b, c, digit, value),
    }
}

// At the start of a line whose letter, the space after it and a byte more are in the slice, the parser before the first
// number; else the parser as it is; and the place that it goes on at. A line of numbers then takes two turns less. Any byte
// above a space passes for the letter: with a number `T` and `G` say nothing either, and the line's end tells.
fn begin_line(s: &[u8], i: usize, p: Parser) -> (Parser, usize)
    ensures { Advances s.now i p result.1 result.0 }
{
    if at_line_start(p) && s.len().saturating_sub(i) > 2 && s[i] > SPACE && s[i + 1] == SPACE {
        let first = Parser::First {
            letter: s[i],
            digit: false,
            value: 0,
        };
        (first, i + 2)
    } else {
        (p, i)
    }
}

// Reads the slice from a place on up to the end of a line, or up to a byte with which no line can say anything, or up to
// the slice's end; and answers which, the place after it, and the parser to go on with.
pub fn parse(s: &[u8], from: usize, p: Parser) -> Parsed
    ensures { (seen : List ℕ) → After seen p → Parses seen s.now from result }
{
    // A part of a line goes by at a turn, so no range gives the places.
    let (mut q, mut i) = begin_line(s, from, p);
    while i < s.len() {
        let t = parse_part(s, i, q);
        match t.event {
            Event::SliceEnd => {
                q = t.parser;
                i = t.next;
            }
            _ => return t,
        }
    }
    Parsed {
        parser: q,
        next: i,
        event: Event::SliceEnd,
    }
}
