// Records and the trailer written, byte by byte. Where the bytes do not hold all that is to be written, nothing is.
ghost use Rattle.std.specs.Prelude.{◌≡◌, [], ◌∷◌, ◌+◌, ◌≤◌, length};
ghost use Rattle.std.proofs.lemmas.List.Edits.{sets};
ghost use Rattle.records.specs.Encoding.{encode, trailer, stored_within, low, high};

use crate::{RECORD_BYTES, Record, TRAILER_BYTES};

// A number in two bytes.
fn put_two(bytes: &mut [u8], at: usize, x: usize)
    requires { at + 2 ≤ length bytes.old }
    ensures { bytes.new ≡ sets bytes.old at (low x ∷ high x ∷ []) }
{
    let [first, second] = ((x % 65536) as u16).to_le_bytes();
    bytes[at] = first;
    bytes[at + 1] = second;
}

// The record, from `at` on.
pub fn put_record(bytes: &mut [u8], at: usize, rec: Record)
    ensures { bytes.new ≡ stored_within bytes.old at (encode (rec ∷ [])) }
{
    if bytes.len() < RECORD_BYTES || bytes.len() - RECORD_BYTES < at {
        return;
    }
    bytes[at] = rec.kind;
    put_two(bytes, at + 1, rec.first as usize);
    put_two(bytes, at + 3, rec.second as usize);
}

// The trailer of a trace whose record 1 stands that distance before, with that many begins.
pub fn put_trailer(bytes: &mut [u8], at: usize, distance: usize, begins: usize)
    ensures { bytes.new ≡ stored_within bytes.old at (trailer distance begins) }
{
    if bytes.len() < TRAILER_BYTES || bytes.len() - TRAILER_BYTES < at {
        return;
    }
    put_two(bytes, at, distance);
    put_two(bytes, at + 2, distance / 65536);
    put_two(bytes, at + 4, begins);
    bytes[at + 6] = 1;
    bytes[at + 7] = 167;
}
