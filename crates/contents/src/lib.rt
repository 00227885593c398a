// The contents of the map as rows: one walk over the map copies its records to a lent array. Who lists the contents reads them
// there.
//
// `rows` reads and writes the words of a copy, and nothing else touches them.
#![tactic(auto)]

ghost use Rattle.std.specs.Prelude.{◌≤◌, length};
ghost use Rattle.spec.specs.Records.{limits};
ghost use Rattle.map.specs.Parts.{RecordsHeld, SlotsHeld};
ghost use Rattle.queries.specs.Contents.{all_records};
ghost use Rattle.contents.specs.Copies.{Copied};

use map::{Records, Slots};
use queries::View;
use rows::CopiedRecord;
use spec::{Address, HIGHEST, MAP_LIMIT, OWNERS};

pub mod rows;

// How many words a record of a copy has: its address, its value, its owner.
pub const COPY_WORDS: usize = 3;

// The records of a copy, a row each.
pub type CopyRows = [[u64; COPY_WORDS]; MAP_LIMIT];

// Copies all records, by rising address, to the first rows. Answers how many there are.
pub fn copy_contents(copied: &mut CopyRows, rows: &Records, slots: &Slots, n: usize) -> usize
    requires records_held { RecordsHeld rows.now n }
    requires slots_held { SlotsHeld slots.now }
    requires slots_len_bound { length (all_records rows.now n slots.now) ≤ limits.map_limit }
    ensures { Copied (all_records rows.now n slots.now) copied.new result }
{
    let view = View {
        rows,
        slots,
        records: n,
    };
    // How many records there are nothing tells before the walk, so no range gives their rows.
    let mut count = 0;
    let mut from: Address = 0;
    while let Some(next) = view.next_record(from) {
        let payload = next.record.payload;
        let record = CopiedRecord {
            address: next.address,
            value: payload.value,
            owner: (payload.owner % OWNERS) as u16,
        };
        rows::store(copied, count, record);
        count += 1;
        if next.address == HIGHEST {
            return count;
        }
        from = next.address + 1;
    }
    count
}
