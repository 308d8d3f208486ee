// The compactor: a second trace without repeated reads and writes of a cell by one event action.
#![tactic(auto)]

mod keeping;

ghost use Rattle.std.specs.Prelude.{◌≡◌, ◌≤◌, length};
ghost use Rattle.records.specs.Bytes.{decode};
ghost use Rattle.trace.specs.Reading.{Acceptable};
ghost use Rattle.order.specs.Fill.{events_in};
ghost use Rattle.compactor.specs.Compact.{slim_bytes, Compacts};
ghost use Rattle.compactor.specs.loops.Keeping.{Fits, WritesSlim};

use records::store::put_trailer;
use records::{Operation, RECORD_BYTES, TRAILER_BYTES, access};
use trace::{Reason, Refusal};

// A slim trace: its length in bytes, and how many records it leaves out.
#[derive(Clone, Copy)]
pub struct Slim {
    pub length: usize,
    pub dropped: usize,
}

// Does the space hold the slim trace of an accepted trace's records? It does where it holds them all; else what is kept is counted.
fn fits(recs: &[u8], out: &mut [u8]) -> bool
    requires { Acceptable (decode recs.now) }
    ensures { Fits (decode recs.now) out.old out.new result }
{
    if RECORD_BYTES * access::count(recs) + TRAILER_BYTES <= out.len() {
        return true;
    }
    let kept = keeping::pass(recs, out, false);
    RECORD_BYTES * kept + TRAILER_BYTES <= out.len()
}

// Writes the slim trace, from the first byte of a space that holds it. The number of its records.
fn write_slim(recs: &[u8], out: &mut [u8], events: usize) -> usize
    requires { Acceptable (decode recs.now) × (events ≡ events_in (decode recs.now))
        × (length (slim_bytes (decode recs.now)) ≤ length out.old) }
    ensures { WritesSlim (decode recs.now) out.old out.new result }
{
    let kept = keeping::pass(recs, out, true);
    let end = RECORD_BYTES * kept;
    put_trailer(out, end, end, events);
    kept
}

// Writes the slim trace of the trace that the bytes end with: of the reads of a cell by one event action, and of the writes, the first alone.
pub fn compact(bytes: &[u8], out: &mut [u8]) -> Result<Slim, Refusal>
    ensures { Compacts bytes.now out.old out.new result }
{
    let t = trace::read(bytes)?;
    let recs = access::records(bytes, t);
    if !fits(recs, out) {
        return Err(Reason::ListSpace.at(Operation(0)));
    }
    let kept = write_slim(recs, out, t.events);
    Ok(Slim {
        length: RECORD_BYTES * kept + TRAILER_BYTES,
        dropped: t.records - kept,
    })
}
