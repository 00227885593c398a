// The home slot of an address in the indexlet (document 01, "Indexlet slots"), by the table's formula (request 105). A crate of its
// own, since all that is said of it can be checked without the slots.
#![tactic(auto)]

ghost use Rattle.std.specs.Prelude.{◌≡◌};
ghost use Rattle.spec.specs.Widths.{address_size};
ghost use Rattle.spec.specs.Slots.{table_entry, home_slot};

use spec::Address;

// Entry i of document 01's table, by its formula: (167 * i + 13) % 256.
pub fn table_entry(i: u8) -> u8
    ensures { result ≡ table_entry i }
{
    ((167 * i as u32 + 13) % 256) as u8
}

// The home slot of an address: its bytes, highest first, each but the first exclusive-or the result so far.
pub fn home(a: Address) -> usize
    ensures { result ≡ home_slot address_size a }
{
    let [b3, b2, b1, b0] = a.to_be_bytes();
    let h3 = table_entry(b3);
    let h2 = table_entry(b2 ^ h3);
    let h1 = table_entry(b1 ^ h2);
    table_entry(b0 ^ h1) as usize
}
