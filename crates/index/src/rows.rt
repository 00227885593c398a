// Rows of words: all that touches the words of records.
ghost use Rattle.std.specs.Prelude.{◌≡◌, ◌+◌, ◌<◌, ◌≤◌, length};
ghost use Rattle.lists.specs.Shifts.{moved};
ghost use Rattle.index.specs.Views.{record_places, row_of, row_at, stored};

use crate::Records;
use spec::PayloadWords;

// A record in words.
#[derive(Clone, Copy)]
pub struct RecordRow {
    pub address: u64,
    pub payload: PayloadWords,
    pub commit: u64,
}

// Row i.
pub fn get(rows: &Records, i: usize) -> RecordRow
    requires { i < record_places }
    ensures { row_of result ≡ row_at rows.now i }
{
    let [address, value, owner, commit] = rows[i];
    RecordRow {
        address,
        payload: PayloadWords { value, owner },
        commit,
    }
}

// Writes row i.
pub fn store(rows: &mut Records, i: usize, r: RecordRow)
    requires { i < record_places }
    ensures { rows.new ≡ stored rows.old i r }
{
    rows[i] = [r.address, r.payload.value, r.payload.owner, r.commit];
}

// Copies n rows from row `from` on to row `to`, higher or lower, none overwritten before it is copied.
pub fn move_rows<T: Copy>(rows: &mut [T], from: usize, to: usize, n: usize)
    requires from_bound { from + n ≤ length rows.old }
    requires to_bound { to + n ≤ length rows.old }
    ensures { rows.new ≡ moved rows.old from to n }
{
    rows.copy_within(from..from + n, to);
}
