// Rows of words: all that touches the words of a copy.
ghost use Rattle.std.specs.Prelude.{◌≡◌, [], ◌∷◌, ◌<◌, get_or, set};
ghost use Rattle.spec.specs.Records.{limits};
ghost use Rattle.contents.specs.Copies.{copy_row};
ghost use Rattle.contents.specs.RowLaws.{row_of, copy_words};

use crate::CopyRows;
use spec::{ADDRESSES, Address, OWNERS};

// A record of a copy.
#[derive(Clone, Copy)]
pub struct CopiedRecord {
    pub address: Address,
    pub value: u64,
    pub owner: u16,
}

// What the words of a row say.
fn record_of(address: u64, value: u64, owner: u64) -> CopiedRecord
    ensures { row_of result ≡ copy_row (address ∷ value ∷ owner ∷ []) }
{
    CopiedRecord {
        address: (address % ADDRESSES) as Address,
        value,
        owner: (owner % OWNERS) as u16,
    }
}

// Row i.
pub fn get(copied: &CopyRows, i: usize) -> CopiedRecord
    requires { i < limits.map_limit }
    ensures { row_of result ≡ copy_row (get_or copied.now i []) }
{
    let row = copied[i];
    record_of(row[0], row[1], row[2])
}

// Writes row i.
pub fn store(copied: &mut CopyRows, i: usize, r: CopiedRecord)
    requires { i < limits.map_limit }
    ensures { copied.new ≡ set copied.old i (copy_words r) }
{
    let row = [r.address as u64, r.value, r.owner as u64];
    copied[i] = row;
}
