// Which records are kept: for each cell the event that last read it, and the one that last wrote it.
ghost use Rattle.std.specs.Prelude.{◌≡◌, cond, not, [], ◌∷◌, ◌+◌, ◌*◌, ◌≤◌, ◌<◌, T, eqb, length, get_or, set};
ghost use Rattle.records.specs.Bytes.{record_bytes, decode};
ghost use Rattle.records.specs.Records.{at};
ghost use Rattle.trace.specs.Reading.{Acceptable};
ghost use Rattle.records.specs.Encoding.{encode, stored_within};
ghost use Rattle.compactor.specs.SlimTrace.{kept, slim_of};
ghost use Rattle.compactor.specs.loops.Keeping.{Stamps, Passes};

use records::store::put_record;
use records::{EventId, RECORD_BYTES, Var, access};
use slices::zeros;

// Has cell c another stamp than e? It is stamped by e then.
fn stamp(stamps: &mut [u16], c: Var, e: EventId) -> bool
    ensures { (result ≡ not (eqb (get_or stamps.old c.0 0) e.0))
        × (stamps.new ≡ set stamps.old c.0 e.0) }
{
    let at = c.0 as usize;
    let other = slices::get(stamps, at) != e.0;
    slices::put(stamps, at, e.0);
    other
}

// Is the record at position i kept? Takes it into account.
fn keeps(recs: &[u8], i: usize, read: &mut [u16], written: &mut [u16]) -> bool
    requires { Stamps (decode recs.now) i read.old written.old × (i < length (decode recs.now)) }
    ensures { (result ≡ kept (decode recs.now) i) × Stamps (decode recs.now) (i + 1) read.new written.new }
{
    let kind = access::kind_at(recs, i);
    if kind < 5 {
        return true;
    }
    let c = access::cell_at(recs, i);
    let e = access::event_at(recs, i);
    if kind == 5 {
        return stamp(read, c, e);
    }
    if 6 < kind {
        return true;
    }
    stamp(written, c, e)
}

// The record at position i becomes record k of the output, where it is written.
fn put(recs: &[u8], i: usize, out: &mut [u8], k: usize, writing: bool)
    requires { k ≤ 4096 }
    ensures { out.new
        ≡ cond writing (stored_within out.old (record_bytes * k) (encode (at (decode recs.now) i ∷ []))) out.old }
{
    if writing {
        put_record(out, RECORD_BYTES * k, access::record_at(recs, i));
    }
}

// Passes all records: those that are kept are written one after the other, or only counted. Their number.
pub(crate) fn pass(recs: &[u8], out: &mut [u8], writing: bool) -> usize
    requires { Acceptable (decode recs.now) × (T writing → record_bytes * length (slim_of (decode recs.now)) ≤ length out.old) }
    ensures { Passes writing (decode recs.now) out.old out.new result }
{
    let n = access::count(recs);
    let mut read = zeros::<u16, 1025>();
    let mut written = zeros::<u16, 1025>();
    let mut k = 0;
    for i in 0..n {
        if keeps(recs, i, &mut read, &mut written) {
            put(recs, i, out, k, writing);
            k += 1;
        }
    }
    k
}
