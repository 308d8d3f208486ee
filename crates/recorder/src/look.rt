// Looking back through the records that stand in the bytes.
ghost use Rattle.std.specs.Prelude.{◌≡◌, not, ◌&&◌, ◌||◌, ◌+◌, ◌≤◌, leb, eqb, length};
ghost use Rattle.records.specs.Bytes.{decode};
ghost use Rattle.records.specs.Records.{past, has};
ghost use Rattle.records.specs.Records.{begins as begin-count};
ghost use Rattle.trace.specs.Place.{place};
ghost use Rattle.links.specs.Begin.{begin_blocked};
ghost use Rattle.trace.specs.Reply.{gives, demand, or_else, then};
ghost use Rattle.trace.specs.Paper.{checked_paper};
ghost use Rattle.recorder.specs.Asked.{Suffices};
ghost use Rattle.recorder.specs.Recording.{of_kind, before, judged};

use crate::Recorder;
use links::begin_blocked;
use records::{EventId, Operation, Record, access};
use trace::rule::History;
use trace::{Reason, Refusal, rule};

// Is one of the records of that kind, for event e? From the latest on.
fn seen(recs: &[u8], kind: u8, e: EventId) -> bool
    ensures { result ≡ has (of_kind kind) e.0 (past (decode recs.now) (length (decode recs.now))) }
{
    for i in (0..access::count(recs)).rev() {
        if access::kind_at(recs, i) == kind && access::event_at(recs, i) == e {
            return true;
        }
    }
    false
}

// A begin or a join: a record before its event's others.
fn starts(kind: u8) -> bool
    ensures { result ≡ (eqb kind 1 || eqb kind 4) }
{
    kind == 1 || kind == 4
}

// A fork or a send.
fn forks(kind: u8) -> bool
    ensures { result ≡ (eqb kind 3 || leb 16 kind && leb kind 19) }
{
    kind == 3 || matches!(kind, 16..=19)
}

// What has begun and ended, looked for only where the rules ask.
fn history(recs: &[u8], rec: Record) -> History
    ensures { Suffices (past (decode recs.now) (length (decode recs.now))) rec result }
{
    History {
        first_begun: starts(rec.kind) && seen(recs, 1, EventId(rec.first)),
        second_begun: forks(rec.kind) && seen(recs, 1, EventId(rec.second)),
        second_ended: rec.kind == 4 && seen(recs, 2, EventId(rec.second)),
    }
}

// 31 for a begin that passes 4 to 8.
fn with_links(
    recs: &[u8],
    op: Operation,
    rec: Record,
    checked: Result<u8, Refusal>,
) -> Result<u8, Refusal>
    ensures { checked_paper result ≡ then (checked_paper checked)
        (λ s. demand (not (eqb rec.kind 1 && begin_blocked (decode recs.now) rec.first)) 31 op.0 (gives s)) }
{
    let next = checked?;
    if rec.kind == 1 && begin_blocked(recs, EventId(rec.first)) {
        return Err(Reason::Behind.at(op));
    }
    Ok(next)
}

// The check of a record after the first n.
pub(crate) fn check(bytes: &[u8], n: usize, r: Recorder, rec: Record) -> Result<u8, Refusal>
    requires { n ≤ 4096 }
    ensures { checked_paper result ≡ or_else (judged bytes.now n r rec) (n + 1) (gives (place r.situation rec.kind)) }
{
    let recs = access::records_from(bytes, 0, n);
    let op = Operation((n + 1) as u16);
    let checked = rule::check(r.situation, r.owner, op, rec, history(recs, rec));
    with_links(recs, op, rec, checked)
}

// How many of the first n records are begins.
pub(crate) fn begins(bytes: &[u8], n: usize) -> usize
    ensures { result ≡ begin-count (before bytes.now n) }
{
    access::count_begins(access::records_from(bytes, 0, n))
}
