// The records of a trace by plain numbers.
ghost use Rattle.std.specs.Prelude.{◌≡◌, eqb};
ghost use Rattle.records.specs.Bytes.{decode};
ghost use Rattle.records.specs.Records.{at};

use records::access;

pub fn is_kind(recs: &[u8], i: usize, kind: u8) -> bool
    ensures { result ≡ eqb (at (decode recs.now) i).kind kind }
{
    access::kind_at(recs, i) == kind
}

// The event that record i belongs to.
pub fn event_of(recs: &[u8], i: usize) -> usize
    ensures { result ≡ (at (decode recs.now) i).first }
{
    usize::from(access::event_at(recs, i).0)
}

// The event that record i starts, waits for or sends to.
pub fn target_of(recs: &[u8], i: usize) -> usize
    ensures { result ≡ (at (decode recs.now) i).second }
{
    usize::from(access::target_at(recs, i).0)
}

// The cell that record i reads or writes.
pub fn cell_of(recs: &[u8], i: usize) -> usize
    ensures { result ≡ (at (decode recs.now) i).second }
{
    usize::from(access::cell_at(recs, i).0)
}
