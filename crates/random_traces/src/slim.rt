// A trace and what is kept of it, by plain search. The numbers of the records in the slim trace stand in a map, from 1, with 0 for those that are
// dropped; then, for each record of the slim trace, its number in the trace.
use crate::definitions::{is_access, race_first, race_second};
use crate::paths::{MARK, action_of, before};
use records::access;
use slices::{get, put};
use trials::numbers::{less, plus};
use trials::recs::{cell_of, event_of};

pub(crate) const NEW: usize = 0;

pub(crate) const OLD: usize = 512;

pub(crate) fn map_space() -> [usize; 1024] {
    [0; 1024]
}

fn same_record(recs: &[u8], i: usize, others: &[u8], j: usize) -> bool {
    let kind = access::kind_at(recs, i) == access::kind_at(others, j);
    kind & (event_of(recs, i) == event_of(others, j)) & (cell_of(recs, i) == cell_of(others, j))
}

// Is record i a read or a write that stands earlier in its event action already?
fn is_repeated(recs: &[u8], i: usize) -> bool {
    for j in (0..i).rev() {
        if same_record(recs, i, recs, j) {
            return is_access(recs, i);
        }
    }
    false
}

// Record i, where that many before it are kept; how many then.
fn put_kept(recs: &[u8], map: &mut [usize], kept: usize, i: usize) -> usize {
    if is_repeated(recs, i) {
        return kept;
    }
    put(map, plus(NEW, i), plus(kept, 1));
    put(map, plus(OLD, kept), plus(i, 1));
    plus(kept, 1)
}

// "keeps, per event action and cell, only the first read and the first write, .. and every other record"; how many.
pub(crate) fn find_kept(recs: &[u8], map: &mut [usize]) -> usize {
    let n = access::count(recs);
    let mut kept = 0;
    for i in 0..n {
        kept = put_kept(recs, map, kept, i);
    }
    kept
}

// Are the first records of the slim trace, that many, those of the trace that are kept?
pub(crate) fn are_kept(recs: &[u8], slim: &[u8], map: &[usize], kept: usize) -> bool {
    for k in (0..kept).rev() {
        if !same_record(slim, k, recs, less(get(map, plus(OLD, k)))) {
            return false;
        }
    }
    true
}

// Do the same event actions happen before each of the first event actions, that many?
pub(crate) fn same_order(table: &[usize], other: &[usize], events: usize) -> bool {
    for t in 1..=events {
        if before(table, t) != before(other, t) {
            return false;
        }
    }
    true
}

fn is_open(table: &[usize], r: usize) -> bool {
    get(table, plus(MARK, r)) == 1
}

fn first_action(recs: &[u8], table: &[usize], r: usize) -> usize {
    action_of(recs, table, race_first(table, r))
}

// Is race r open, with its first access in event action t, and its second record number b?
fn combines(recs: &[u8], table: &[usize], r: usize, t: usize, b: usize) -> bool {
    is_open(table, r) & (first_action(recs, table, r) == t) & (plus(race_second(table, r), 1) == b)
}

fn has_combination(recs: &[u8], table: &[usize], races: usize, t: usize, b: usize) -> bool {
    for r in (0..races).rev() {
        if combines(recs, table, r, t, b) {
            return true;
        }
    }
    false
}

fn has_open_race(recs: &[u8], table: &[usize], races: usize, cell: usize) -> bool {
    for r in (0..races).rev() {
        if is_open(table, r) & (cell_of(recs, race_second(table, r)) == cell) {
            return true;
        }
    }
    false
}

// One side: how many races it has, and where the map has the other side's numbers.
#[derive(Clone, Copy)]
pub(crate) struct Side {
    pub races: usize,
    pub numbers: usize,
}

// Where race r is open: the other side has an open race of its cell, and one of the same first event action and second access.
fn is_found(
    recs: &[u8],
    table: &[usize],
    r: usize,
    others: &[u8],
    other: &[usize],
    races: usize,
    number: usize,
) -> bool {
    if !is_open(table, r) {
        return true;
    }
    let cell = cell_of(recs, race_second(table, r));
    let t = first_action(recs, table, r);
    has_open_race(others, other, races, cell) & has_combination(others, other, races, t, number)
}

// Every open race of this side, in the other.
pub(crate) fn all_found(
    recs: &[u8],
    table: &[usize],
    side: Side,
    others: &[u8],
    other: &[usize],
    races: usize,
    map: &[usize],
) -> bool {
    let from = side.numbers;
    for r in (0..side.races).rev() {
        let number = get(map, plus(from, race_second(table, r)));
        if !is_found(recs, table, r, others, other, races, number) {
            return false;
        }
    }
    true
}

pub(crate) fn same_bytes(bytes: &[u8], others: &[u8], n: usize) -> bool {
    for i in (0..n).rev() {
        if get(bytes, i) != get(others, i) {
            return false;
        }
    }
    true
}
