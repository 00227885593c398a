// What the program keeps from turn to turn, and what it makes of each answer of the system. What it asks of the system, and
// when, is said in specs/Works.antt; the calls themselves stand in system.rt.
#![tactic(auto)]

pub mod system;

ghost use Rattle.std.specs.Prelude.{◌≡◌, length};
ghost use Rattle.shell.specs.Works.{with_read, with_write};

use console::session;
use console::session::Session;
use system::Calls;

// What is kept from turn to turn: the session, how many bytes of the buffer are input, whether to go on, whether a read or a
// write failed, and the count of the calls.
#[derive(Clone, Copy)]
pub struct Work {
    pub session: Session,
    pub count: usize,
    pub going: bool,
    pub failed: bool,
    pub calls: Calls,
}

// The work after a read.
pub fn after_read(calls: Calls, input: &[u8], w: Work) -> Work
    ensures { result ≡ with_read w calls (length input.now) }
{
    let got = system::answer(calls);
    let bytes = got.unwrap_or(0);
    Work {
        session: session::at_places(w.session, 0, 0),
        count: bytes.min(input.len()),
        going: bytes > 0,
        failed: got.is_none(),
        calls,
    }
}

// The work after a write of all that waited.
pub fn after_write(calls: Calls, w: Work) -> Work
    ensures { result ≡ with_write w calls }
{
    let x = w.session;
    let failed = system::answer(calls).is_none();
    Work {
        session: session::at_places(x, x.next, 0),
        going: !failed && !x.stopped,
        failed,
        calls,
        ..w
    }
}
