// Happens-before and races of a trace of at most 60 records whose events are numbered below 8, by definition. Records are known by position, from 0.
use records::access;
use slices::{get, put};
use trials::numbers::{pick, plus};
use trials::recs::{event_of, is_kind, target_of};
use trials::sets::{bit, is_in};

// What is found stands in one table: of each event the set of those that happen before it, of each record y the set of the x ≼ y and that of the x
// with a race (x, y), and the arrangements.
const BEFORE: usize = 64;

const RACES: usize = 128;

pub(crate) fn table_space() -> [usize; 1024] {
    [0; 1024]
}

// t = u, or a path leads from t to u.
fn reaches(table: &[usize], t: usize, u: usize) -> bool {
    is_in(get(table, u) | bit(u), t)
}

// The two that a fork or a join orders; 0 for the later one where record i is neither.
fn earlier(recs: &[u8], i: usize) -> usize {
    pick(is_kind(recs, i, 3), event_of(recs, i), target_of(recs, i))
}

fn later(recs: &[u8], i: usize) -> usize {
    let forked = pick(is_kind(recs, i, 3), target_of(recs, i), 0);
    pick(is_kind(recs, i, 4), event_of(recs, i), forked)
}

// Those before the later one, with the earlier one and those before it.
fn joined(recs: &[u8], table: &[usize], i: usize) -> usize {
    let t = earlier(recs, i);
    get(table, later(recs, i)) | get(table, t) | bit(t)
}

// "a path of forks (from starter to started) and joins (from waited-for to waiting)": eight rounds over all records.
pub(crate) fn find_paths(recs: &[u8], table: &mut [usize]) {
    for x in 0..512 {
        let set = joined(recs, table, x % 64);
        let u = later(recs, x % 64);
        put(table, u, set);
    }
}

// "For records a ≼ b: in different event actions as those are ordered; in one, when a stands earlier."
fn is_before(recs: &[u8], table: &[usize], a: usize, b: usize) -> bool {
    let t = event_of(recs, a);
    let u = event_of(recs, b);
    if t == u {
        return a < b;
    }
    reaches(table, t, u)
}

// "same cell, at least one write"
fn conflict(recs: &[u8], a: usize, b: usize) -> bool {
    let write = is_kind(recs, a, 6) | is_kind(recs, b, 6);
    let first = is_kind(recs, a, 5) | is_kind(recs, a, 6);
    let second = is_kind(recs, b, 5) | is_kind(recs, b, 6);
    write & first & second & (access::cell_at(recs, a).0 == access::cell_at(recs, b).0)
}

// "a before b in the trace, same cell, at least one write, not a ≼ b"
fn is_race(recs: &[u8], table: &[usize], a: usize, b: usize) -> bool {
    if b <= a {
        return false;
    }
    conflict(recs, a, b) & !is_before(recs, table, a, b)
}

pub(crate) fn find_before(recs: &[u8], table: &mut [usize]) {
    for x in 0..4096 {
        let old = before(table, x / 64);
        let set = pick(
            is_before(recs, table, x % 64, x / 64),
            old | bit(x % 64),
            old,
        );
        put(table, plus(BEFORE, x / 64), set);
    }
}

pub(crate) fn find_races(recs: &[u8], table: &mut [usize]) {
    for x in 0..4096 {
        let old = races(table, x / 64);
        let set = pick(is_race(recs, table, x % 64, x / 64), old | bit(x % 64), old);
        put(table, plus(RACES, x / 64), set);
    }
}

// The x ≼ y.
pub(crate) fn before(table: &[usize], y: usize) -> usize {
    get(table, plus(BEFORE, y))
}

// The x with a race (x, y).
pub(crate) fn races(table: &[usize], y: usize) -> usize {
    get(table, plus(RACES, y))
}
