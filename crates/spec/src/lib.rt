// The types that the model and the code share. Document 01 itself stands in specs/, as definitions.
#![tactic(auto)]

ghost use Rattle.std.specs.Prelude.{◌≡◌};
ghost use Rattle.spec.specs.Refusals.{number_of};

// An address of the map (document 01: 32-bit unsigned). Rows hold it as a 64-bit word.
pub type Address = u32;

// How many bytes it has.
pub const ADDRESS_BYTES: usize = 4;

// How many addresses there are.
pub const ADDRESSES: u64 = 0x1_0000_0000;

// The highest of them, as `limits` has it.
pub const HIGHEST: Address = 0xffff_ffff;

// How many numbers name a worker (document 01: a seat), 32 bits wide: one from here on has no meaning.
pub const WORKER_NAMES: u64 = 0x1_0000_0000;

// The limits of document 01, as `limits` has them: seats; record entries and marks of a log; edited addresses of a job;
// index, waiting and locked addresses; the last serial number.
pub const WORKERS: usize = 8;

pub const READ_LIMIT: usize = 64;

pub const LEAF_SET_LIMIT: usize = 32;

pub const WRITE_LIMIT: usize = 16;

pub const MAP_LIMIT: usize = 1024;

pub const LAST_NUMBER: u64 = 1000000;

// The longest section of a guarded map, in bytes.
pub const LONGEST: u64 = 65536;

// What a map may have of its own, as `standard` has it: waiting and locked addresses; records of a leaf that stays whole, and
// of a run that is cut.
pub const WAITING_LIMIT: usize = 192;

pub const LEAF_LIMIT: usize = 16;

pub const RUN: usize = 8;

// How many owners there are.
pub const OWNERS: u64 = 65536;

// What a put gives a record, in words: the value, and whose section it is (request 106: owner), of which the lowest 16 bits
// count, so that every word has a meaning.
#[derive(Clone, Copy)]
pub struct PayloadWords {
    pub value: u64,
    pub owner: u64,
}

// A record as it stands in words (document 01: present record): what a put gave it, and its commit number (stamp).
#[derive(Clone, Copy)]
pub struct RecordWords {
    pub payload: PayloadWords,
    pub commit: u64,
}

// A refusal, one variant for each row of document 01's table; then those that request 102 adds to lock in a guarded map: a
// length or an end that does not fit, no scan that covers the section, an overlap; then those of request 107: an export is
// open already, none is open.
#[derive(Clone, Copy)]
pub enum Refusal {
    NoWorker,
    WorkerFree,
    WorkerTaken,
    WrongStage,
    Backward,
    LogFull,
    WritesFull,
    ShortBuffer,
    Held,
    IndexletFull,
    MapFull,
    Changed,
    UnderLock,
    Phantom,
    Spent,
    Unfit,
    Uncovered,
    Overlap,
    ExportOpen,
    NoExport,
}

// The stage of a worker's transaction (document 01: a job's stage).
#[derive(Clone, Copy, PartialEq, Eq)]
pub enum Stage {
    Free,
    Open,
    Locked,
    Checked,
}

// The number of a refusal in document 01's table, or in the request's text. No `From`: `u64::from` would not say which number it is.
pub fn number_of(r: Refusal) -> u64
    ensures { result ≡ number_of r }
{
    match r {
        Refusal::NoWorker => 1,
        Refusal::WorkerFree => 2,
        Refusal::WorkerTaken => 3,
        Refusal::WrongStage => 4,
        Refusal::Backward => 5,
        Refusal::LogFull => 6,
        Refusal::WritesFull => 7,
        Refusal::ShortBuffer => 8,
        Refusal::Held => 9,
        Refusal::IndexletFull => 10,
        Refusal::MapFull => 11,
        Refusal::Changed => 12,
        Refusal::UnderLock => 13,
        Refusal::Phantom => 14,
        Refusal::Spent => 15,
        Refusal::Unfit => 16,
        Refusal::Uncovered => 17,
        Refusal::Overlap => 18,
        Refusal::ExportOpen => 19,
        Refusal::NoExport => 20,
    }
}
