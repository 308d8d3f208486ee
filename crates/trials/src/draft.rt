// A trace put together in lent bytes: each function writes at a position and answers the next one. What doesn't fit is left out.
ghost use Rattle.std.specs.Prelude.{◌≡◌, [], ◌∷◌, ◌+◌, min};
ghost use Rattle.records.specs.Encoding.{encode, trailer, stored_within};
ghost use Rattle.trials.specs.Draft.{put_in, after};

use records::{RECORD_BYTES, Record, TRAILER_BYTES, store};

pub fn put_record(bytes: &mut [u8], at: usize, kind: u8, first: u16, second: u16) -> usize
    ensures stored { bytes.new ≡ stored_within bytes.old at (encode (record { kind = kind; first = first; second = second } ∷ [])) }
    ensures next { result ≡ min (at + 5) 18446744073709551615 }
{
    let record = Record {
        kind,
        first,
        second,
    };
    store::put_record(bytes, at, record);
    at.saturating_add(RECORD_BYTES)
}

// The same record that many times.
pub fn put_times(
    bytes: &mut [u8],
    at: usize,
    times: usize,
    kind: u8,
    first: u16,
    second: u16,
) -> usize
    ensures stored { bytes.new ≡ put_in times (encode (record { kind = kind; first = first; second = second } ∷ [])) bytes.old at }
    ensures next { result ≡ after times at }
{
    let mut next = at;
    for k in 0..times {
        next = put_record(bytes, next, kind, first, second);
    }
    next
}

// The trailer of a trace whose record 1 stands that distance before.
pub fn put_trailer(bytes: &mut [u8], at: usize, distance: usize, begins: u16) -> usize
    ensures stored { bytes.new ≡ stored_within bytes.old at (trailer distance begins) }
    ensures next { result ≡ min (at + 8) 18446744073709551615 }
{
    store::put_trailer(bytes, at, distance, usize::from(begins));
    at.saturating_add(TRAILER_BYTES)
}
