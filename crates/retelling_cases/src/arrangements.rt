// All arrangements of a trace, by definition: sequences of at most six event actions, each whole but the last. Each is known by the set of its records.
use crate::paths;
use crate::slots::has_all;
use records::access;
use slices::{get, put};
use trials::numbers::plus;
use trials::recs::event_of;
use trials::sets::{bit, is_in};

// In the set of an arrangement: it does not run its records in trace order; it is none.
const EXCHANGED: usize = 62;

const BROKEN: usize = 63;

// Where the arrangements stand in the table, which has room for 768.
const ARRANGED: usize = 256;

// Five whole event actions, three bits each, as one number below this.
const SEQUENCES: usize = 32768;

fn broken(run: usize) -> bool {
    is_in(run, BROKEN)
}

// Record y after those run, where z is the last one. "If a ≼ b and b is in it, a is in it earlier. If (a, b) is a race and b is in it, then a is in it
// earlier, or a is absent and b is its last record."
fn run_record(table: &[usize], run: usize, y: usize, z: usize) -> usize {
    let raced = has_all(run, paths::races(table, y)) | (y == z);
    let ordered = has_all(run, paths::before(table, y));
    if is_in(run, y) | !ordered | !raced {
        return bit(BROKEN);
    }
    if bit(y) < run {
        return run | bit(y) | bit(EXCHANGED);
    }
    run | bit(y)
}

// The records of an event action before position `end`.
fn run_event(
    recs: &[u8],
    table: &[usize],
    before: usize,
    event: usize,
    end: usize,
    z: usize,
) -> usize {
    if broken(before) {
        return before;
    }
    let mut run = before;
    for i in 0..end {
        if (event_of(recs, i) == event) & !broken(run) {
            run = run_record(table, run, i, z);
        }
    }
    run
}

// The whole event action that `rest` names by its low three bits, if any is left.
fn run_next(recs: &[u8], table: &[usize], run: usize, rest: usize) -> usize {
    if (rest == 0) | broken(run) {
        return run;
    }
    let next = run_event(recs, table, run, rest % 8, access::count(recs), 64);
    if next == run {
        return bit(BROKEN);
    }
    next
}

// The sequence, then the event action of z up to z.
fn run_all(recs: &[u8], table: &[usize], sequence: usize, z: usize) -> usize {
    let mut run = 0;
    let mut rest = sequence;
    for _ in 0..5 {
        run = run_next(recs, table, run, rest);
        rest = rest / 8;
    }
    run_event(recs, table, run, event_of(recs, z), plus(z, 1), z)
}

fn put_arrangement(table: &mut [usize], run: usize, found: usize) -> usize {
    if broken(run) {
        return found;
    }
    put(table, plus(ARRANGED, found), run);
    plus(found, 1)
}

// A sequence and a last record, as one number below this.
fn candidates(recs: &[u8]) -> usize {
    let n = access::count(recs);
    if n < 61 {
        return SEQUENCES * n;
    }
    0
}

// All that have a record; how many.
pub(crate) fn find(recs: &[u8], table: &mut [usize]) -> usize {
    let n = candidates(recs);
    let mut found = 0;
    for x in 0..n {
        let run = run_all(recs, table, x % SEQUENCES, x / SEQUENCES);
        found = put_arrangement(table, run, found);
    }
    found
}

pub(crate) fn arrangement(table: &[usize], r: usize) -> usize {
    get(table, plus(ARRANGED, r))
}
