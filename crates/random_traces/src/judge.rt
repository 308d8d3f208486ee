// The reader's answer by document 01's words: each record against all that stand before it.
use crate::paths::is_send;
use crate::sends::is_blocked;
use records::{Trace, access};
use slices::get;
use trials::numbers::{less, pick, plus};
use trials::recs::{event_of, is_kind, target_of};

// A refusal's number and place; number 0 for an accepted trace.
#[derive(Clone, Copy)]
pub(crate) struct Verdict {
    pub number: usize,
    pub place: usize,
}

fn found(number: usize, place: usize) -> Verdict {
    Verdict {
        number: number,
        place: place,
    }
}

// The first of n records that has the kind and the event, or n.
pub(crate) fn find(recs: &[u8], n: usize, kind: u8, event: usize) -> usize {
    for i in 0..n {
        if is_kind(recs, i, kind) & (event_of(recs, i) == event) {
            return i;
        }
    }
    n
}

fn is_number(x: usize) -> bool {
    (0 < x) & (x <= 1024)
}

// "event or cell not 1 to 1,024, or second of a begin or end not 0"
fn has_numbers(recs: &[u8], i: usize) -> bool {
    let y = usize::from(access::record_at(recs, i).second);
    if access::kind_at(recs, i) < 3 {
        return is_number(event_of(recs, i)) & (y == 0);
    }
    is_number(event_of(recs, i)) & is_number(y)
}

// Record i has its place after the record before it, which has its own: "joins (perhaps none), begin, then forks, reads and writes, then end", all
// with one first.
fn has_place(recs: &[u8], i: usize) -> bool {
    let opens = is_kind(recs, i, 1) | is_kind(recs, i, 4);
    if i == 0 {
        return opens;
    }
    let same = event_of(recs, i - 1) == event_of(recs, i);
    match access::kind_at(recs, i - 1) {
        2 => opens,
        4 => opens & same,
        _ => !opens & same,
    }
}

// "begin or join whose first has begun already; fork whose second has begun already, itself included"; a send has "the same fields and checks"
fn has_begun(recs: &[u8], i: usize) -> bool {
    match access::kind_at(recs, i) {
        1 | 4 => find(recs, i, 1, event_of(recs, i)) < i,
        3 | 16..=19 => find(recs, i, 1, target_of(recs, i)) < i,
        _ => false,
    }
}

// "join whose second has not ended"
fn waits(recs: &[u8], i: usize) -> bool {
    is_kind(recs, i, 4) & (i <= find(recs, i, 2, target_of(recs, i)))
}

// The refusal of record i, where none before it is refused; 0 for none.
fn refusal_at(recs: &[u8], i: usize) -> usize {
    let kind = access::kind_at(recs, i);
    let ended = pick(waits(recs, i), 8, 0);
    let behind = pick(is_blocked(recs, i), 31, ended);
    let begun = pick(has_begun(recs, i), 7, behind);
    let place = pick(has_place(recs, i), begun, 6);
    let numbers = pick(has_numbers(recs, i), place, 5);
    let known = ((0 < kind) & (kind < 7)) | is_send(recs, i);
    pick(known, numbers, 4)
}

// The first record that is refused, or as many as there are.
fn first_refused(recs: &[u8], n: usize) -> usize {
    for i in 0..n {
        if refusal_at(recs, i) != 0 {
            return i;
        }
    }
    n
}

// How many records are of the kinds from low to high.
pub(crate) fn count_kinds(recs: &[u8], low: u8, high: u8) -> usize {
    let n = access::count(recs);
    let mut count = 0;
    for i in 0..n {
        let kind = access::kind_at(recs, i);
        count = plus(count, pick((low <= kind) & (kind <= high), 1, 0));
    }
    count
}

// Where every record has passed: "the trace stops inside an event action or after a join", "begins differ from the trailer's number".
fn judge_end(recs: &[u8], n: usize, begins: usize) -> Verdict {
    let ends = (n == 0) | is_kind(recs, less(n), 2);
    let number = pick(count_kinds(recs, 1, 1) == begins, 0, 10);
    found(pick(ends, number, 9), pick(ends, 0, n))
}

fn judge_records(recs: &[u8], begins: usize) -> Verdict {
    let n = access::count(recs);
    let i = first_refused(recs, n);
    if i < n {
        return found(refusal_at(recs, i), plus(i, 1));
    }
    judge_end(recs, n, begins)
}

pub(crate) fn byte_at(bytes: &[u8], at: usize) -> usize {
    usize::from(get(bytes, at) as u16)
}

// Two bytes as a number, low byte first.
fn pair_at(bytes: &[u8], at: usize) -> usize {
    let high = byte_at(bytes, plus(at, 1));
    if high < 256 {
        return plus(byte_at(bytes, at), 256 * high);
    }
    0
}

// The distance in the trailer at `at`; any that has more than two bytes is above 20,480.
fn distance(bytes: &[u8], at: usize) -> usize {
    pick(
        pair_at(bytes, plus(at, 2)) == 0,
        pair_at(bytes, at),
        1000000,
    )
}

// The refusal of the trailer at `at`, with the distance d; 0 for none.
fn trailer_refusal(bytes: &[u8], at: usize, d: usize) -> usize {
    let reach = pick((d % 5 != 0) | (20480 < d) | (at < d), 3, 0);
    let edition = pick(byte_at(bytes, plus(at, 6)) == 1, reach, 2);
    pick(byte_at(bytes, plus(at, 7)) == 0xA7, edition, 1)
}

// The records that stand before the trailer at `at`, as far back as d.
fn judge_before(bytes: &[u8], at: usize, d: usize) -> Verdict {
    if at < d {
        return found(3, 0);
    }
    let t = Trace {
        start: at - d,
        records: d / 5,
        events: 0,
        sends: false,
    };
    judge_records(access::records(bytes, t), pair_at(bytes, plus(at, 4)))
}

// The trailer first, then each record in turn, then the end.
pub(crate) fn judge(bytes: &[u8]) -> Verdict {
    let n = bytes.len();
    if n < 8 {
        return found(1, 0);
    }
    let d = distance(bytes, n - 8);
    let number = trailer_refusal(bytes, n - 8, d);
    if number != 0 {
        return found(number, 0);
    }
    judge_before(bytes, n - 8, d)
}
