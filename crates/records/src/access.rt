// The records of a trace, in the bytes from record 1 to the trailer. Positions count from 0; past the last whole record all fields are 0.
ghost use Rattle.std.specs.Prelude.{◌≡◌, ◌+◌, ◌-◌, ◌≤◌, length};
ghost use Rattle.records.specs.Bytes.{decode, part};
ghost use Rattle.records.specs.Records.{at, past, begins, leading};
ghost use Rattle.records.specs.Kinds.{Says, SendsOn, base_kind};

use crate::{EventId, Kind, RECORD_BYTES, Record, Trace, Var};

// Where a record's fields stand in its bytes.
const FIRST: usize = 1;

const SECOND: usize = 3;

// The bytes of that many records that start there; where the bytes hold fewer, those.
pub fn records_from(bytes: &[u8], start: usize, records: usize) -> &[u8]
    ensures { result.now ≡ part bytes.now start records }
{
    let n = bytes.len();
    if n < start {
        return &bytes[n..];
    }
    let rest = (n - start) / RECORD_BYTES;
    if rest < records {
        return &bytes[start..];
    }
    let end = start + RECORD_BYTES * records;
    &bytes[start..end]
}

// The bytes of the records of a trace that was read; of any other trace, those that are there.
pub fn records(bytes: &[u8], t: Trace) -> &[u8]
    ensures { result.now ≡ part bytes.now t.start t.records }
{
    records_from(bytes, t.start, t.records)
}

// How many records there are.
pub fn count(recs: &[u8]) -> usize
    ensures { result ≡ length (decode recs.now) }
{
    recs.len() / RECORD_BYTES
}

pub fn kind_at(recs: &[u8], i: usize) -> u8
    ensures { result ≡ (at (decode recs.now) i).kind }
{
    if i < recs.len() / RECORD_BYTES {
        recs[RECORD_BYTES * i]
    } else {
        0
    }
}

// The same, by what the byte says.
pub fn kind_of(recs: &[u8], i: usize) -> Kind
    ensures { Says (at (decode recs.now) i).kind result }
{
    Kind::from(kind_at(recs, i))
}

// The link of record i, 0 to 3, where it is a send.
pub fn link_at(recs: &[u8], i: usize) -> Option<usize>
    ensures { SendsOn (at (decode recs.now) i).kind result }
{
    let kind = kind_at(recs, i);
    if (16..=19).contains(&kind) {
        Some((kind - 16) as usize)
    } else {
        None
    }
}

// The kind of record i where it is one of document 01's six, begin to write; 0 for any other record.
#[tactic(auto, unfolding(crate::specs::Kinds::base_kind))]
pub fn base_kind_at(recs: &[u8], i: usize) -> u8
    ensures { result ≡ base_kind (at (decode recs.now) i) }
{
    let kind = kind_at(recs, i);
    if kind <= 6 { kind } else { 0 }
}

// The field of record i that stands there in its bytes.
fn field_at(recs: &[u8], i: usize, field: usize) -> u16
    requires { field ≤ 3 }
    ensures first { field ≡ 1 → result ≡ (at (decode recs.now) i).first }
    ensures second { field ≡ 3 → result ≡ (at (decode recs.now) i).second }
{
    if i < recs.len() / RECORD_BYTES {
        let from = RECORD_BYTES * i + field;
        u16::from_le_bytes([recs[from], recs[from + 1]])
    } else {
        0
    }
}

// The event that record i belongs to.
pub fn event_at(recs: &[u8], i: usize) -> EventId
    ensures { result.0 ≡ (at (decode recs.now) i).first }
{
    EventId(field_at(recs, i, FIRST))
}

// The event that record i starts, where it is a fork, or waits for, where it is a join.
pub fn target_at(recs: &[u8], i: usize) -> EventId
    ensures { result.0 ≡ (at (decode recs.now) i).second }
{
    EventId(field_at(recs, i, SECOND))
}

// The cell of record i, where it is a read or a write.
pub fn cell_at(recs: &[u8], i: usize) -> Var
    ensures { result.0 ≡ (at (decode recs.now) i).second }
{
    Var(field_at(recs, i, SECOND))
}

// The record at position i, its fields as the bytes have them.
pub fn record_at(recs: &[u8], i: usize) -> Record
    ensures { result ≡ at (decode recs.now) i }
{
    Record {
        kind: kind_at(recs, i),
        first: field_at(recs, i, FIRST),
        second: field_at(recs, i, SECOND),
    }
}

// How many of the records are begins.
pub fn count_begins(recs: &[u8]) -> usize
    ensures { result ≡ begins (past (decode recs.now) (length (decode recs.now))) }
{
    let n = count(recs);
    let mut found = 0;
    for i in 0..n {
        if kind_at(recs, i) == 1 {
            found += 1;
        }
    }
    found
}

// How many of the four records from i on stand before the first that is no read or write.
fn accesses_among_four(recs: &[u8], i: usize) -> usize
    requires { i ≤ length (decode recs.now) }
    ensures { result ≡ leading (decode recs.now) 4 i }
{
    if kind_at(recs, i) < 5 {
        return 0;
    }
    if kind_at(recs, i + 1) < 5 {
        return 1;
    }
    if kind_at(recs, i + 2) < 5 {
        return 2;
    }
    if kind_at(recs, i + 3) < 5 {
        return 3;
    }
    4
}

// The same of the records from i up to n, one by one.
fn skip_last(recs: &[u8], i: usize, n: usize) -> usize
    requires { i ≤ n }
    ensures { result ≡ i + leading (decode recs.now) (n - i) i }
{
    for at in i..n {
        if kind_at(recs, at) < 5 {
            return at;
        }
    }
    n
}

// From record `from` on past reads and writes, four at a time: the first position that has none, or the number of records.
pub fn skip_accesses(recs: &[u8], from: usize) -> usize
    ensures { result ≡ from + leading (decode recs.now) (length (decode recs.now) - from) from }
{
    let n = count(recs);
    if n < from {
        return from;
    }
    let mut i = from;
    // By hand, four records a step: one record a step takes more instructions.
    while i + 4 <= n {
        let k = accesses_among_four(recs, i);
        if k < 4 {
            return i + k;
        }
        i += 4;
    }
    skip_last(recs, i, n)
}
