// What a code means.
ghost use Rattle.std.specs.Prelude.{◌≡◌, ◌<◌};
ghost use Rattle.spec.specs.Widths.{addresses, worker_names};
ghost use Rattle.buffers.specs.Buffers.{counted_places};
ghost use Rattle.codes.specs.Codes.{places_lent, decoded_scan, decoded_put, decoded_access, decoded_seat, decoded_merge, decoded_numbered, decoded};
ghost use Rattle.codes.specs.ExportCodes.{decoded_portion, decoded_file, decoded_export};

use crate::Code;
use buffers::Places;
use engine::steps::{Access, Ending, Op};
use exports::ops::ExportOp;
use spec::{ADDRESSES, Address, OWNERS, WORKER_NAMES};

// No place of any buffer.
const NONE: Places = Places {
    addresses: 0,
    values: 0,
    owners: 0,
};

// How many places a scan or a portion wants.
#[inline(always)]
fn wanted(k: Code) -> Places
    ensures { result ≡ record { addresses = k.d; values = k.e; owners = k.f } }
{
    Places {
        addresses: k.d as usize,
        values: k.e as usize,
        owners: k.f as usize,
    }
}

// As many are lent. Test by test: over one chain of `&&` the proof did not close.
#[inline(always)]
fn places_lent(k: Code, lent: Places) -> bool
    ensures { result ≡ places_lent (counted_places lent) k }
{
    let addresses = k.d as usize;
    let values = k.e as usize;
    let owners = k.f as usize;
    if addresses > lent.addresses {
        return false;
    }
    if values > lent.values {
        return false;
    }
    owners <= lent.owners
}

// A scan, if the lent buffers have as many places as it wants.
#[inline(always)]
fn decode_scan(k: Code, lent: Places) -> Option<(Op, Places)>
    requires { (k.a < worker_names) × (k.b < addresses) }
    ensures { result ≡ decoded_scan (counted_places lent) k }
{
    if k.c >= ADDRESSES {
        return None;
    }
    if !places_lent(k, lent) {
        return None;
    }
    let scan = Access::Scan(k.b as Address, k.c as Address);
    Some((Op::Access(k.a as u32, scan), wanted(k)))
}

// A put, if its owner has 16 bits.
#[inline(always)]
fn decode_put(k: Code) -> Option<(Op, Places)>
    requires { (k.a < worker_names) × (k.b < addresses) }
    ensures { result ≡ decoded_put k }
{
    if k.d >= OWNERS {
        return None;
    }
    let put = Access::Put(k.b as Address, k.c, k.d as u16);
    Some((Op::Access(k.a as u32, put), NONE))
}

#[inline(always)]
fn decode_access(k: Code, lent: Places) -> Option<(Op, Places)>
    requires { k.a < worker_names }
    ensures { result ≡ decoded_access (counted_places lent) k }
{
    if k.b >= ADDRESSES {
        return None;
    }
    let w = k.a as u32;
    let a = k.b as Address;
    match k.kind {
        1 => Some((Op::Access(w, Access::Read(a)), NONE)),
        2 => decode_scan(k, lent),
        3 => decode_put(k),
        4 => Some((Op::Access(w, Access::Remove(a)), NONE)),
        _ => None,
    }
}

// A step with a seat.
#[inline(always)]
fn decode_seat(k: Code, lent: Places) -> Option<(Op, Places)>
    ensures { result ≡ decoded_seat (counted_places lent) k }
{
    if k.a >= WORKER_NAMES {
        return None;
    }
    let a = k.a as u32;
    match k.kind {
        0 => Some((Op::Begin(a), NONE)),
        5 => Some((Op::Ending(a, Ending::Lock), NONE)),
        6 => Some((Op::Ending(a, Ending::Validate), NONE)),
        7 => Some((Op::Ending(a, Ending::Install), NONE)),
        8 => Some((Op::Ending(a, Ending::Abort), NONE)),
        _ => decode_access(k, lent),
    }
}

// A fold.
#[inline(always)]
fn decode_merge(k: Code) -> Option<(Op, Places)>
    ensures { result ≡ decoded_merge k }
{
    if k.a >= ADDRESSES {
        return None;
    }
    Some((Op::Merge(k.a as Address), NONE))
}

// A step whose first number is an address or a seat.
#[inline(always)]
fn decode_numbered(k: Code, lent: Places) -> Option<(Op, Places)>
    ensures { result ≡ decoded_numbered (counted_places lent) k }
{
    if k.kind == 9 {
        return decode_merge(k);
    }
    decode_seat(k, lent)
}

// The step that a code means, if it means one with the lent places, and how many of these it wants. A fold of the oldest has no
// number. It and what it calls are put where they are called: what they take and give
// would go through memory at each step.
#[inline(always)]
pub fn decode(k: Code, lent: Places) -> Option<(Op, Places)>
    ensures { result ≡ decoded (counted_places lent) k }
{
    if k.kind == 10 {
        return Some((Op::MergeOldest, NONE));
    }
    decode_numbered(k, lent)
}

// A portion, if the lent buffers have as many places as it wants.
fn decode_portion(k: Code, lent: Places) -> Option<(ExportOp, Places)>
    ensures { result ≡ decoded_portion (counted_places lent) k }
{
    if !places_lent(k, lent) {
        return None;
    }
    Some((ExportOp::Portion, wanted(k)))
}

// A file, if as many bytes are lent as it wants.
fn decode_file(k: Code, bytes: usize) -> Option<(ExportOp, Places)>
    ensures { result ≡ decoded_file bytes k }
{
    let size = k.d as usize;
    if size > bytes {
        return None;
    }
    Some((ExportOp::File(size), NONE))
}

// The export step that a code means, if it means one with the lent places and so many bytes, and how many of the places it wants.
pub fn decode_export(k: Code, lent: Places, bytes: usize) -> Option<(ExportOp, Places)>
    ensures { result ≡ decoded_export (counted_places lent) bytes k }
{
    match k.kind {
        11 => Some((ExportOp::Open, NONE)),
        12 => decode_portion(k, lent),
        13 => decode_file(k, bytes),
        14 => Some((ExportOp::Close, NONE)),
        _ => None,
    }
}
