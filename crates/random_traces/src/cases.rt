// One trace: read it, and compare every answer.
use crate::calls::{Case, PAIR};
use crate::definitions::{is_race, race_first, race_second};
use crate::draft::Draft;
use crate::known::Known;
use crate::tally::Counts;
use crate::{
    calls, damage, draft, expectations, frames, judge, known, order_cases, paths, slim_cases, tally,
};
use records::{Trace, access};
use trace::Refusal;
use trials::chance::roll;
use trials::numbers::{pick, plus};

// The job file's bytes, before record 1.
fn trace_space() -> [u8; 2048] {
    [0xA7; 2048]
}

// One call.
fn compare_case(
    bytes: &[u8],
    recs: &[u8],
    table: &[usize],
    k: Known,
    c: Case,
    before: Counts,
) -> Counts {
    let o = calls::ask(c, k, bytes, recs, table);
    let lent = tally::note(before, tally::LENT, o.lent);
    let tally = tally::note(lent, pick(o.covered, tally::COVERED, c.group), o.right);
    let longer = tally::add(tally, tally::LONGER, pick(o.covered & (1 < o.count), 1, 0));
    tally::at_least(longer, tally::LONGEST, pick(o.covered, o.count, 0))
}

// Record b with one that chance chooses, the number after the last included. It may be a race again.
fn other_case(recs: &[u8], table: &[usize], k: Known, b: usize) -> Case {
    let n = k.records;
    let a = roll(n, b, 50, plus(n, 1));
    let way = pick(a < n, 7, 8);
    expectations::case_of(k, PAIR, pick(is_race(recs, table, a, b), 0, way), a, b)
}

// Question x: each call in each way, the pair question about the first race; then each race; then each record.
fn case_at(recs: &[u8], table: &[usize], k: Known, x: usize) -> Case {
    if x < 28 {
        return expectations::case_of(k, x / 7, x % 7, race_first(table, 0), race_second(table, 0));
    }
    let r = damage::between(28, x);
    if r < k.races {
        return expectations::case_of(k, PAIR, 0, race_first(table, r), race_second(table, r));
    }
    other_case(recs, table, k, damage::between(k.races, r))
}

fn is_asked(k: Known, x: usize) -> bool {
    (28 <= x) | expectations::can_ask(k, x / 7, x % 7)
}

fn compare_at(
    bytes: &[u8],
    recs: &[u8],
    table: &[usize],
    k: Known,
    x: usize,
    before: Counts,
) -> Counts {
    compare_case(bytes, recs, table, k, case_at(recs, table, k, x), before)
}

fn compare_all(bytes: &[u8], recs: &[u8], table: &[usize], k: Known, before: Counts) -> Counts {
    let n = plus(plus(28, k.races), k.records);
    let mut tally = before;
    for x in 0..n {
        if is_asked(k, x) {
            tally = compare_at(bytes, recs, table, k, x, tally);
        }
    }
    tally
}

fn note_sizes(k: Known, before: Counts) -> Counts {
    let events = tally::add(before, tally::EVENTS, k.events);
    let records = tally::add(events, tally::RECORDS, k.records);
    let chains = tally::at_least(records, tally::MOST_CHAINS, k.chains);
    let races = tally::add(chains, tally::RACES, k.races);
    tally::add(races, tally::SHORT_ENTRIES, k.entries)
}

fn note_links(recs: &[u8], before: Counts) -> Counts {
    let joins = tally::add(before, tally::JOINS, judge::count_kinds(recs, 4, 4));
    let forks = tally::add(joins, tally::FORKS, judge::count_kinds(recs, 3, 3));
    let sends = judge::count_kinds(recs, 16, 19);
    let several = tally::add(forks, tally::SEVERAL_SENDS, pick(1 < sends, 1, 0));
    tally::add(several, tally::SENDS, sends)
}

fn compare_known(bytes: &[u8], recs: &[u8], table: &[usize], k: Known, before: Counts) -> Counts {
    let noted = note_links(recs, note_sizes(k, before));
    let order = order_cases::compare(bytes, table, k, noted);
    let calls = compare_all(bytes, recs, table, k, order);
    slim_cases::compare(bytes, recs, table, k, calls)
}

// The reader's answer against the words of document 01; number 0 for an accepted trace.
fn compare_judged(bytes: &[u8], number: usize, place: usize, before: Counts) -> Counts {
    let v = judge::judge(bytes);
    tally::note(
        before,
        tally::JUDGED,
        (v.number == number) & (v.place == place),
    )
}

// An accepted trace.
fn compare_trace(bytes: &[u8], t: Trace, before: Counts) -> Counts {
    let recs = access::records(bytes, t);
    let mut space = paths::table_space();
    let table: &mut [usize] = &mut space;
    let k = known::find_all(recs, table);
    let read = (k.events == t.events) & (k.records == t.records);
    let tally = tally::note(before, tally::READING, read);
    compare_known(bytes, recs, table, k, compare_judged(bytes, 0, 0, tally))
}

// A refused trace is refused by every call alike.
fn compare_refused(bytes: &[u8], number: usize, place: usize, before: Counts) -> Counts {
    let k = known::nothing();
    let none = [0usize; 1];
    let mut tally = before;
    for call in 0..4 {
        let c = expectations::refused(k, call, number, place);
        tally = compare_case(bytes, bytes, &none, k, c, tally);
    }
    tally
}

// The order question and the compactor too.
fn compare_others(bytes: &[u8], number: usize, place: usize, before: Counts) -> Counts {
    let order = order_cases::is_refused(bytes, number, place);
    let slim = slim_cases::is_refused(bytes, 2048, number, place);
    let tally = tally::note(before, tally::REFUSED_TRACE, order);
    tally::note(tally, tally::REFUSED_TRACE, slim)
}

fn note_refusal(bytes: &[u8], f: Refusal, before: Counts) -> Counts {
    let number = usize::from(f.reason.number());
    let place = usize::from(f.place.0);
    let tally = tally::add(before, plus(tally::REFUSED, number), 1);
    let judged = compare_judged(bytes, number, place, tally);
    let refused = compare_refused(bytes, number, place, judged);
    compare_others(bytes, number, place, refused)
}

// A whole trace that is accepted has as many event actions as were put together and records from start to end.
fn is_as_drafted(t: Trace, d: Draft) -> bool {
    let records = damage::between(d.start, d.end) / 5;
    (t.start == d.start) & (t.events == d.events) & (t.records == records)
}

// A trace that counts in that total. One that is whole is refused by 31 alone, where its sends may go to any target.
fn check(bytes: &[u8], d: Draft, total: usize, before: Counts) -> Counts {
    let tally = tally::add(before, total, 1);
    let whole = total != tally::DAMAGED;
    match trace::read(bytes) {
        Ok(t) => {
            let read = tally::note(tally, tally::READING, !whole | is_as_drafted(t, d));
            let counted = tally::add(read, tally::STILL_ACCEPTED, pick(whole, 0, 1));
            compare_trace(bytes, t, counted)
        }
        Err(f) => {
            let may = !whole | (d.free & (f.reason.number() == 31));
            note_refusal(bytes, f, tally::note(tally, tally::READING, may))
        }
    }
}

pub(crate) fn first_bytes(bytes: &[u8], n: usize) -> &[u8] {
    if n <= bytes.len() {
        return &bytes[..n];
    }
    bytes
}

// Trace x of the 3,500 that are whole, or one of them damaged in a way that chance chooses.
pub(crate) fn compare(x: usize, before: Counts) -> Counts {
    let whole = x < 3500;
    let mut space = trace_space();
    let bytes: &mut [u8] = &mut space;
    let d = draft::put_trace(bytes, x % 3500);
    let n = damage::put_end(bytes, d, whole, x);
    let total = pick(whole, tally::TRACES, tally::DAMAGED);
    check(first_bytes(bytes, n), d, total, before)
}

// Trace x of a frame.
pub(crate) fn compare_frame(text: &[u8], events: usize, x: usize, before: Counts) -> Counts {
    let mut space = trace_space();
    let bytes: &mut [u8] = &mut space;
    let d = frames::put_frame(bytes, text, events, x);
    let n = damage::put_end(bytes, d, true, x);
    check(first_bytes(bytes, n), d, tally::FRAMES, before)
}
