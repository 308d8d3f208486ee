// Races, cover and both lists by their definitions.
use crate::paths::{FIRST, MARK, SECOND, SHORT, action_of, before, reaches};
use records::access;
use slices::{get, put};
use trials::numbers::{pick, plus};
use trials::recs::{cell_of, is_kind};
use trials::sets::is_in;

// "For records a ≼ b: in different event actions as those are ordered; in one, when a stands earlier."
pub(crate) fn is_before(recs: &[u8], table: &[usize], a: usize, b: usize) -> bool {
    let t = action_of(recs, table, a);
    let u = action_of(recs, table, b);
    if t == u {
        return a < b;
    }
    reaches(table, t, u)
}

pub(crate) fn is_access(recs: &[u8], i: usize) -> bool {
    is_kind(recs, i, 5) | is_kind(recs, i, 6)
}

// Two accesses of one cell, at least one a write.
fn conflict(recs: &[u8], a: usize, b: usize) -> bool {
    let write = is_kind(recs, a, 6) | is_kind(recs, b, 6);
    let accesses = is_access(recs, a) & is_access(recs, b);
    write & accesses & (cell_of(recs, a) == cell_of(recs, b))
}

// "a before b in the trace, same cell, at least one write, not a ≼ b"
pub(crate) fn is_race(recs: &[u8], table: &[usize], a: usize, b: usize) -> bool {
    if b <= a {
        return false;
    }
    conflict(recs, a, b) & !is_before(recs, table, a, b)
}

// The records of race r.
pub(crate) fn race_first(table: &[usize], r: usize) -> usize {
    get(table, plus(FIRST, r))
}

pub(crate) fn race_second(table: &[usize], r: usize) -> usize {
    get(table, plus(SECOND, r))
}

// 1 ww, 2 wr, 3 rw.
fn shape(recs: &[u8], a: usize, b: usize) -> usize {
    pick(is_kind(recs, a, 6), pick(is_kind(recs, b, 6), 1, 2), 3)
}

// Number q of race r in a list: first, second, cell, shape and mark; record numbers run from 1.
fn number_in_entry(recs: &[u8], table: &[usize], r: usize, q: usize) -> usize {
    let a = race_first(table, r);
    let b = race_second(table, r);
    match q {
        0 => plus(a, 1),
        1 => plus(b, 1),
        2 => cell_of(recs, a),
        3 => shape(recs, a, b),
        _ => get(table, plus(MARK, r)),
    }
}

// Number i of the list of all races, or of the short list.
pub(crate) fn number_in_list(recs: &[u8], table: &[usize], all: bool, i: usize) -> usize {
    let r = pick(all, i / 5, get(table, plus(SHORT, i / 5)));
    number_in_entry(recs, table, r, i % 5)
}

// 512 for each of n, for a walk through all pairs of at most 512 records.
pub(crate) fn grid(n: usize) -> usize {
    if n <= 512 {
        return 512 * n;
    }
    0
}

// Puts (a, b) where it's a race; how many there are then, where there were `found`.
fn put_if_race(recs: &[u8], table: &mut [usize], found: usize, a: usize, b: usize) -> usize {
    if !is_race(recs, table, a, b) {
        return found;
    }
    put(table, plus(FIRST, found), a);
    put(table, plus(SECOND, found), b);
    plus(found, 1)
}

// All races, ordered by second record, then first; how many.
pub(crate) fn find_races(recs: &[u8], table: &mut [usize]) -> usize {
    let n = grid(access::count(recs));
    let mut found = 0;
    for x in 0..n {
        found = put_if_race(recs, table, found, x % 512, x / 512);
    }
    found
}

// Race r, (c, d), carries every t ≼ ev(c) to record b where d ≼ b, or d's event action leads to b already.
fn lead_turn(recs: &[u8], table: &[usize], set: usize, b: usize, r: usize) -> usize {
    let d = race_second(table, r);
    let leads = is_in(set, action_of(recs, table, d)) | is_before(recs, table, d, b);
    let c = action_of(recs, table, race_first(table, r));
    pick(leads, set | before(table, c), set)
}

// The event actions t that lead to b: "some races meet the conditions of cover with t for ev(a)". The list is taken from its end: where d's event
// action leads to b, it does so by races whose second records stand after d.
pub(crate) fn find_leads(recs: &[u8], table: &[usize], races: usize, b: usize) -> usize {
    let mut set = 0;
    for r in (0..races).rev() {
        set = lead_turn(recs, table, set, b, r);
    }
    set
}

// No write of a's cell stands between a and b: b is the next write, or a the last write before a read.
fn are_neighbours(recs: &[u8], a: usize, b: usize) -> bool {
    let cell = cell_of(recs, a);
    for i in plus(a, 1)..b {
        if is_kind(recs, i, 6) & (cell_of(recs, i) == cell) {
            return false;
        }
    }
    true
}

// 1 where race r is open: its first record's event action doesn't lead to its second record. 0 where it's covered.
fn mark_of(recs: &[u8], table: &[usize], races: usize, r: usize) -> usize {
    let leads = find_leads(recs, table, races, race_second(table, r));
    let t = action_of(recs, table, race_first(table, r));
    pick(is_in(leads, t), 0, 1)
}

fn is_short(recs: &[u8], table: &[usize], r: usize) -> bool {
    are_neighbours(recs, race_first(table, r), race_second(table, r))
}

// The marks, and which races are in the short list; how many.
pub(crate) fn find_short(recs: &[u8], table: &mut [usize], races: usize) -> usize {
    let mut found = 0;
    for r in 0..races {
        let open = mark_of(recs, table, races, r);
        let short = is_short(recs, table, r);
        put(table, plus(MARK, r), open);
        put(table, plus(SHORT, found), r);
        found = pick(short, plus(found, 1), found);
    }
    found
}
