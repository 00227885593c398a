// Steps and their answers in numbers: what a code means, `decodes::decode` and `decodes::decode_export`, and the words of an
// answer, `words::put_answer_words` and `words::put_export_words`. Nothing here knows the map.
#![tactic(auto)]

pub mod decodes;
pub mod words;

// The kinds of job steps stand before this number, those of export steps from it on.
pub const FIRST_EXPORT: u64 = 11;

// How many words a step has.
pub const STEP_WORDS: usize = 7;

pub type StepWords = [u64; STEP_WORDS];

// A step: what it is, 0 to 9 in document 01's order (begin, read, scan, put, remove, lock, validate, install, abort, fold),
// 10 a fold of the oldest, 11 to 14 request 107's (open an export, a portion, a file, close it); and its numbers in the order of
// a script line. Of a scan and a portion, d, e and f are how many places they want of the buffers for addresses, values and
// owners; of a file, d is how many bytes it wants. A number that the step does not have is not looked at.
#[derive(Clone, Copy)]
pub struct Code {
    pub kind: u64,
    pub a: u64,
    pub b: u64,
    pub c: u64,
    pub d: u64,
    pub e: u64,
    pub f: u64,
}

// An answer: document 01's number, 0 if granted; what is told beside it (0 nothing, 1 a value, 2 absence, 3 the count of
// a scan, 4 a serial number, 5 the count of a fold, 6 the records of an export, 7 the count of a portion, 8 the bytes of a
// file); that number; the one beside it, the owner of a value or what remains after a portion; and how many slots a read
// examined. What an answer does not have is 0.
#[derive(Clone, Copy)]
pub struct Coded {
    pub number: u64,
    pub told: u64,
    pub value: u64,
    pub beside: u64,
    pub examined: u64,
}

// The answer number of a code with no meaning: above all those of the documents.
pub const MEANINGLESS: u64 = 99;
