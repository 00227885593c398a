// The file of an export, put into lent bytes: numbers with the lowest byte first. Each function answers the place after what
// it put.
ghost use Rattle.std.specs.Prelude.{◌≡◌, ◌+◌, ◌*◌, ◌≤◌, length};
ghost use Rattle.lists.specs.Texts.{Wrote};
ghost use Rattle.spec.specs.Widths.{address_size};
ghost use Rattle.spec.specs.Records.{limits};
ghost use Rattle.spec.specs.Files.{address_bytes, entry_size, entry_bytes, file_of};
ghost use Rattle.contents.specs.Copies.{copied_in};
ghost use Rattle.contents.specs.RowLaws.{row_of};
ghost use Rattle.exports.specs.FilePuts.{one_entry, Putting};

use crate::Exported;
use contents::rows;
use contents::rows::CopiedRecord;
use spec::ADDRESS_BYTES;

// How many bytes the two numbers before the arrays have, an entry, which is a value and an owner, and a record.
pub const HEADER_BYTES: usize = 8;

const ENTRY_BYTES: usize = 10;

pub const RECORD_BYTES: usize = ADDRESS_BYTES + ENTRY_BYTES;

// Some bytes.
fn put<const N: usize>(out: &mut [u8], at: usize, bytes: [u8; N]) -> usize
    requires { at + N ≤ length out.old }
    ensures { Wrote out.old at bytes.entry out.new result }
{
    let next = at + N;
    out[at..next].copy_from_slice(&bytes);
    next
}

// The bytes of an entry.
fn entry_of(r: CopiedRecord) -> [u8; ENTRY_BYTES]
    ensures { result ≡ one_entry (row_of r) }
{
    let mut entry = [0; ENTRY_BYTES];
    entry[..8].copy_from_slice(&r.value.to_le_bytes());
    entry[8..].copy_from_slice(&r.owner.to_le_bytes());
    entry
}

// The addresses of the first n records.
fn put_addresses(out: &mut [u8], at: usize, exported: &Exported, n: usize) -> usize
    requires n_in_bounds { at + address_size * n ≤ length out.old }
    requires n_le_map_limit { n ≤ limits.map_limit }
    ensures { Putting address_bytes address_size exported.now out.old at n out.new result }
{
    let mut next = at;
    for i in 0..n {
        let r = rows::get(exported, i);
        next = put(out, next, r.address.to_le_bytes());
    }
    next
}

// Their entries. No closure in the place of what the two loops differ in: the proof has no bound `Fn` that names a const
// parameter.
fn put_entries(out: &mut [u8], at: usize, exported: &Exported, n: usize) -> usize
    requires n_in_bounds { at + entry_size * n ≤ length out.old }
    requires n_le_map_limit { n ≤ limits.map_limit }
    ensures { Putting entry_bytes entry_size exported.now out.old at n out.new result }
{
    let mut next = at;
    for i in 0..n {
        let r = rows::get(exported, i);
        next = put(out, next, entry_of(r));
    }
    next
}

// The file of the first n records, from the first byte on: how many they are, the bytes of an entry, addresses, entries.
pub fn put_file(out: &mut [u8], exported: &Exported, n: usize) -> usize
    requires n_in_bounds { 8 + (address_size + entry_size) * n ≤ length out.old }
    requires n_le_map_limit { n ≤ limits.map_limit }
    ensures { Wrote out.old 0 (file_of (copied_in exported.now n)) out.new result }
{
    let size = put(out, 0, (n as u32).to_le_bytes());
    let addresses = put(out, size, (ENTRY_BYTES as u32).to_le_bytes());
    let entries = put_addresses(out, addresses, exported, n);
    put_entries(out, entries, exported, n)
}
