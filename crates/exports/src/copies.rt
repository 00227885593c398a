// Records of an export copied to a portion's buffers.
ghost use Rattle.buffers.specs.Buffers.{buffers};
ghost use Rattle.exports.specs.CopyLaws.{GiveRoom, Gives};

use crate::Exported;
use contents::rows;
use spec::Address;

// Writes n records, from row `from` on, to the first places of the buffers.
pub fn give(
    addresses: &mut [Address],
    values: &mut [u64],
    owners: &mut [u16],
    exported: &Exported,
    from: usize,
    n: usize,
)
    requires { GiveRoom (buffers addresses.old values.old owners.old) from n }
    ensures { Gives exported.now from n (buffers addresses.old values.old owners.old)
        (buffers addresses.new values.new owners.new) }
{
    for i in 0..n {
        let r = rows::get(exported, from + i);
        addresses[i] = r.address;
        values[i] = r.value;
        owners[i] = r.owner;
    }
}
