// Every record checked in turn, and then the end of the trace.
ghost use Rattle.std.specs.Prelude.{◌≡◌, true, cond, ◌&&◌, ◌||◌, ◌+◌, ◌≤◌, leb, eqb, length};
ghost use Rattle.records.specs.Bytes.{decode};
ghost use Rattle.trace.specs.Rule.{again, early};
ghost use Rattle.trace.specs.loops.Inner.{Inner, Accesses};
ghost use Rattle.trace.specs.loops.Status.{has_begun, has_ended, noted};
ghost use Rattle.trace.specs.Reply.{gives, demand};
ghost use Rattle.records.specs.Kinds.{is_send};
ghost use Rattle.trace.specs.Plain.{Scans};
ghost use Rattle.trace.specs.Paper.{code, paper};

use crate::rule::History;
use crate::{Reason, Refusal, Scanned, place, rule, status};
use records::access::{count, record_at};
use records::{EventId, Operation, Record, Trace};
use slices::zeros;

// The trace ends after that many records, `found` of them begins, in that situation; a send is among them or not.
fn finish(
    records: usize,
    start: usize,
    events: usize,
    now_in: u8,
    found: usize,
    sends: bool,
) -> Result<Trace, Refusal>
    requires { records ≤ 4096 }
    ensures { paper result ≡ demand (eqb now_in 0) 9 records
        (demand (eqb found events) 10 0 (gives (record { start = start; records = records; events = found; sends = sends }))) }
{
    if now_in != 0 {
        return Err(Reason::StopsInside.at(Operation(records as u16)));
    }
    if found != events {
        return Err(Reason::BeginCount.at(Operation(0)));
    }
    Ok(Trace {
        start: start,
        records: records,
        events: found,
        sends: sends,
    })
}

// The first of refusals 7 and 8 that applies to record r, by what has begun and ended before. A begin or an end that passes is noted in its event's
// status.
fn admit(status: &mut [u8; 1025], r: Record) -> Result<(), Reason>
    ensures { (code result ≡ cond (again r (has_begun status.old r.first) (has_begun status.old r.second)) 7
        (cond (early r (has_ended status.old r.second)) 8 0)) × (code result ≡ 0 → status.new ≡ noted status.old r) }
{
    match r.kind {
        1 => {
            if status::has_begun(status, r.first) {
                return Err(Reason::BegunAlready);
            }
            status::note(status, r.first, status::BEGUN);
            Ok(())
        }
        2 => {
            status::note(status, r.first, status::ENDED);
            Ok(())
        }
        _ => {
            let past = History {
                first_begun: status::has_begun(status, r.first),
                second_begun: status::has_begun(status, r.second),
                second_ended: status::has_ended(status, r.second),
            };
            rule::order_fault(r, past)
        }
    }
}

// Is the record an access by the open event, of a cell's number? No refusal concerns such a record inside an event action.
fn is_inner_access(owner: u16, r: Record) -> bool
    ensures { result ≡ true → Inner owner r }
{
    if r.kind < 5 {
        return false;
    }
    if 6 < r.kind {
        return false;
    }
    if r.first != owner {
        return false;
    }
    rule::is_numbered(r.second)
}

// From position `from` on, inside an event action, past the accesses by the open event.
fn pass_accesses(recs: &[u8], now_in: u8, owner: u16, from: usize) -> usize
    ensures { Accesses (decode recs.now) now_in owner from result }
{
    if now_in != 2 {
        return from;
    }
    let n = count(recs);
    for i in from..n {
        if !is_inner_access(owner, record_at(recs, i)) {
            return i;
        }
    }
    n.max(from)
}

// The number of begins, after a record of that kind.
fn one_more(kind: u8, found: usize) -> usize
    requires { found ≤ 4096 }
    ensures { result ≡ cond (eqb kind 1) (found + 1) found }
{
    if kind == 1 { found + 1 } else { found }
}

// Whether a send was met, after a record of that kind.
fn or_send(kind: u8, sends: bool) -> bool
    ensures { result ≡ (leb 16 kind && leb kind 19 || sends) }
{
    if kind < 16 {
        return sends;
    }
    if 19 < kind {
        return sends;
    }
    true
}

// The records of a trace that start there, with the number of begins that the trailer names.
pub(crate) fn scan(recs: &[u8], start: usize, events: usize) -> Scanned
    requires { length (decode recs.now) ≤ 4096 }
    ensures { Scans (decode recs.now) start events result }
{
    let records = count(recs);
    let mut status = zeros::<u8, 1025>();
    let mut now_in: u8 = 0;
    let mut owner: u16 = 0;
    let mut found = 0;
    let mut sends = false;
    let mut i = 0;
    // While: a turn goes on past the accesses that follow its record.
    while i < records {
        let r = record_at(recs, i);
        let next = place::next(now_in, r.kind);
        if let Err(misplaced) = rule::place_fault(next, now_in, EventId(owner), r) {
            return Scanned {
                reading: Err(misplaced.at(Operation((i + 1) as u16))),
                start: start,
                passed: i,
                sends: sends,
            };
        }
        if let Err(reason) = admit(&mut status, r) {
            return Scanned {
                reading: Err(reason.at(Operation((i + 1) as u16))),
                start: start,
                passed: i,
                sends: sends,
            };
        }
        found = one_more(r.kind, found);
        sends = or_send(r.kind, sends);
        now_in = next;
        owner = r.first;
        i = pass_accesses(recs, now_in, owner, i + 1);
    }
    Scanned {
        reading: finish(records, start, events, now_in, found, sends),
        start: start,
        passed: records,
        sends: sends,
    }
}
