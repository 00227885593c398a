// The counters: the last commit number and the last leaf version given, and the functions that take the next ones; and how
// many installs there were.
//
// `next_numbers` and `next_versions`, one for each number, are lent the counters. `take_number` and `take_versions` lend them in
// their bodies alone: their callers pass the counters by value.
#![tactic(auto)]

ghost use Rattle.std.specs.Prelude.{◌≡◌, ◌+◌, ◌^◌, ◌<◌};
ghost use Rattle.counters.specs.Taking.{numbered, counted, versioned, installed};

// The last commit number and the last leaf version given (document 01: serial number and mark), and how many installs there
// were; they travel together.
#[derive(Clone, Copy)]
pub struct Counters {
    pub number: u64,
    pub version: u64,
    pub installs: u64,
}

// Takes the next `count` commit numbers, and answers the last one given.
fn next_numbers(k: &mut Counters, count: u64) -> u64
    requires { k.old.number + count < 2 ^ 64 }
    ensures { (result ≡ (counted k.old count).number) × (k.new ≡ counted k.old count) }
{
    k.number += count;
    k.number
}

// Takes the next `count` leaf versions, and answers the last one given.
fn next_versions(k: &mut Counters, count: u64) -> u64
    requires { k.old.version + count < 2 ^ 64 }
    ensures { (result ≡ (versioned k.old count).version) × (k.new ≡ versioned k.old count) }
{
    k.version += count;
    k.version
}

// The counters once the next numbers are taken, and the last of these.
#[derive(Clone, Copy)]
pub struct Taken {
    pub counters: Counters,
    pub last: u64,
}

// The next commit number, where the counters go by value.
pub fn take_number(k: Counters) -> Taken
    requires { k.number + 1 < 2 ^ 64 }
    ensures { (result.last ≡ (numbered k).number) × (result.counters ≡ numbered k) }
{
    let mut counters = k;
    let last = next_numbers(&mut counters, 1);
    Taken { counters, last }
}

// One install more is counted.
pub fn count_install(k: Counters) -> Counters
    requires { k.installs + 1 < 2 ^ 64 }
    ensures { result ≡ installed k }
{
    Counters {
        installs: k.installs + 1,
        ..k
    }
}

// The next `count` leaf versions, where the counters go by value.
pub fn take_versions(k: Counters, count: u64) -> Taken
    requires { k.version + count < 2 ^ 64 }
    ensures { (result.last ≡ (versioned k count).version) × (result.counters ≡ versioned k count) }
{
    let mut counters = k;
    let last = next_versions(&mut counters, count);
    Taken { counters, last }
}
