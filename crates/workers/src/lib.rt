// A worker (document 01: a seat) and the stages of its transaction (a job): free, open, locked, checked, and free again.
// The eight stand in lent words; one function gives a worker by value and one puts it.
#![tactic(auto)]

ghost use Rattle.std.specs.Prelude.{◌≡◌, ◌<◌, length, get_or, set};
ghost use Rattle.spec.specs.Records.{limits};
ghost use Rattle.workers.specs.Workers.{begun, at_lock, at_check, freed, stage_at, packed, unpacked, workers_of};

use spec::{Stage, WORKERS};

// All workers, a word each.
pub type Workers = [u64; WORKERS];

// How many values the commit number can have in a worker's word, and each of the other fields.
const NUMBER_FIELD: u64 = 0x1_0000_0000;

const FIELD: u64 = 256;

// The stage, the commit number once checked, and how many rows of the three sets are in use: 64 bits in all.
#[derive(Clone, Copy)]
pub struct Worker {
    pub number: u32,
    pub stage: Stage,
    pub reads: u8,
    pub leaves: u8,
    pub writes: u8,
}

impl Worker {
    // A transaction opens with nothing read and nothing written.
    pub fn begin(mut self) -> Worker
        ensures { result ≡ begun }
    {
        self = self.free();
        self.stage = Stage::Open;
        self
    }

    // The addresses of the write set are locked.
    pub fn lock(mut self) -> Worker
        ensures { result ≡ at_lock self }
    {
        self.stage = Stage::Locked;
        self
    }

    // The sets are valid, and the commit number is given.
    pub fn check(mut self, n: u32) -> Worker
        ensures { result ≡ at_check self n }
    {
        self.stage = Stage::Checked;
        self.number = n;
        self
    }

    // The transaction is over, installed or aborted.
    pub fn free(mut self) -> Worker
        ensures { result ≡ freed }
    {
        self = Worker {
            stage: Stage::Free,
            number: 0,
            reads: 0,
            leaves: 0,
            writes: 0,
        };
        self
    }
}

// The stage of a number: `as` gives the number of a stage.
fn stage_at(n: u64) -> Stage
    ensures { result ≡ stage_at n }
{
    match n {
        0 => Stage::Free,
        1 => Stage::Open,
        2 => Stage::Locked,
        _ => Stage::Checked,
    }
}

// Two functions and no `From`: that each worker comes back from its word is promised where the word is made, and `From` has no such
// clause.

// A worker's word: in its lowest 32 bits the commit number, then the stage and how many reads, leaves and writes, 8 bits each.
fn pack(x: Worker) -> u64
    ensures value { result ≡ packed x }
    ensures result_value { unpacked result ≡ x }
{
    let counts = x.reads as u64 + FIELD * (x.leaves as u64 + FIELD * x.writes as u64);
    x.number as u64 + NUMBER_FIELD * (x.stage as u64 + FIELD * counts)
}

// The worker of a word, whatever it is.
fn unpack(n: u64) -> Worker
    ensures { result ≡ unpacked n }
{
    let upper = n / NUMBER_FIELD;
    let counts = upper / FIELD;
    let others = counts / FIELD;
    Worker {
        number: (n % NUMBER_FIELD) as u32,
        stage: stage_at(upper % FIELD),
        reads: (counts % FIELD) as u8,
        leaves: (others % FIELD) as u8,
        writes: (others / FIELD % FIELD) as u8,
    }
}

// Worker w.
pub fn worker_at(workers: &Workers, w: usize) -> Worker
    requires { w < limits.workers }
    ensures value { result ≡ get_or (workers_of workers.now) w freed }
    ensures workers_len { length (workers_of workers.now) ≡ limits.workers }
{
    unpack(workers[w])
}

// Worker w becomes x.
pub fn put_worker(workers: &mut Workers, w: usize, x: Worker)
    requires { w < limits.workers }
    ensures { workers_of workers.new ≡ set (workers_of workers.old) w x }
{
    workers[w] = pack(x);
}
