// A read set (document 01: the log's record entries). A row: the address, whether a record is present there (1 or 0), its
// value, its owner, its commit number.
ghost use Rattle.std.specs.Prelude.{◌<◌};
ghost use Rattle.spec.specs.Records.{limits};
ghost use Rattle.sets.specs.Reads.{ReadSetHeld, LogsRead, GivesRead};

use crate::ReadSet;
use spec::{Address, PayloadWords, RecordWords};

// A row of a read set: an address, with the record that a read or a scan found there. Where it found none, the row keeps in the
// record's words those of the deletion that waits there; nothing is told of them.
#[derive(Clone, Copy)]
pub struct Observed {
    pub address: Address,
    pub current: Option<RecordWords>,
    pub kept: RecordWords,
}

// Appends a row to the first n. Answers how many there are now.
pub fn log_read(
    reads: &mut ReadSet,
    n: usize,
    a: Address,
    seen: Option<RecordWords>,
    kept: RecordWords,
) -> usize
    requires read_set_held { ReadSetHeld reads.old }
    requires n_lt_read_limit { n < limits.read_limit }
    ensures { LogsRead reads.old n a seen reads.new result }
{
    let row = match seen {
        Some(r) => [a as u64, 1, r.payload.value, r.payload.owner, r.commit],
        None => [
            a as u64,
            0,
            kept.payload.value,
            kept.payload.owner,
            kept.commit,
        ],
    };
    reads[n] = row;
    n + 1
}

// Row i.
pub fn read_at(reads: &ReadSet, i: usize) -> Observed
    requires read_set_held { ReadSetHeld reads.now }
    requires i_lt_read_limit { i < limits.read_limit }
    ensures { GivesRead reads.now i result }
{
    let row = reads[i];
    let address = row[0] as Address;
    let kept = RecordWords {
        payload: PayloadWords {
            value: row[2],
            owner: row[3],
        },
        commit: row[4],
    };
    if row[1] != 1 {
        return Observed {
            address,
            current: None,
            kept,
        };
    }
    Observed {
        address,
        current: Some(kept),
        kept,
    }
}
