// The trailer: where record 1 starts, how many records there are, and the number of begins it names.
ghost use Rattle.std.specs.Prelude.{◌≡◌, ◌+◌, ◌*◌, ◌≤◌, length};
ghost use Rattle.records.specs.Bytes.{trailer_bytes};
ghost use Rattle.trace.specs.Reading.{distance, trailer_reply, frame_reply};
ghost use Rattle.trace.specs.Paper.{paper};

use crate::{Reason, Refusal};
use records::{Operation, RECORD_BYTES, TRAILER_BYTES, Trace};
use slices::two;

// The distance from the trailer's start, at, back to record 1.
fn distance_at(bytes: &[u8], at: usize) -> usize
    requires { at + 4 ≤ length bytes.now }
    ensures { result ≡ distance bytes.now at }
{
    (two(bytes, at) as usize) + 65536 * (two(bytes, at + 2) as usize)
}

// The trailer at that place, which names the distance d, by refusals 1 to 3: the trace as it says it is.
fn trailer(bytes: &[u8], at: usize, d: usize) -> Result<Trace, Refusal>
    requires { at + trailer_bytes ≤ length bytes.now }
    ensures { paper result ≡ trailer_reply bytes.now at d }
{
    if bytes[at + 7] != 167 {
        return Err(Reason::NoTrailer.at(Operation(0)));
    }
    if bytes[at + 6] != 1 {
        return Err(Reason::Edition.at(Operation(0)));
    }
    if d % RECORD_BYTES != 0 {
        return Err(Reason::Distance.at(Operation(0)));
    }
    if 20480 < d {
        return Err(Reason::Distance.at(Operation(0)));
    }
    if at < d {
        return Err(Reason::Distance.at(Operation(0)));
    }
    Ok(Trace {
        start: at - d,
        records: d / RECORD_BYTES,
        events: two(bytes, at + 4) as usize,
        sends: false,
    })
}

pub(crate) fn frame(bytes: &[u8]) -> Result<Trace, Refusal>
    ensures { paper result ≡ frame_reply bytes.now }
{
    let n = bytes.len();
    if n < TRAILER_BYTES {
        return Err(Reason::NoTrailer.at(Operation(0)));
    }
    let at = n - TRAILER_BYTES;
    trailer(bytes, at, distance_at(bytes, at))
}
