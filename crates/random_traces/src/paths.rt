// Event actions and the paths between them, by plain search. An event action is known by its rank, from 1 in order of begin, a record by its
// position, from 0. What is found of a trace stands in one table: the numbers of the event actions and the sets of those that happen before each, the
// chains as sets of their members, the ranks by event number, the records and marks of the races, and which of them are in the short list.
use crate::sends::find_ahead;
use crate::slots::{NOWHERE, remainder};
use records::access;
use slices::{get, put};
use trials::numbers::{pick, plus};
use trials::recs::{cell_of, event_of, is_kind, target_of};
use trials::sets::{bit, is_in};

const BEFORE: usize = 64;

pub(crate) const MEMBERS: usize = 128;

const RANK: usize = 1024;

pub(crate) const FIRST: usize = 4096;

pub(crate) const SECOND: usize = 10096;

pub(crate) const MARK: usize = 16096;

pub(crate) const SHORT: usize = 22096;

pub(crate) fn table_space() -> [usize; 28096] {
    [0; 28096]
}

// A send on one of four links: placed, checked and ordering as a fork.
pub(crate) fn is_send(recs: &[u8], i: usize) -> bool {
    let kind = access::kind_at(recs, i);
    (15 < kind) & (kind < 20)
}

// The event number of t.
pub(crate) fn number_of(table: &[usize], t: usize) -> usize {
    get(table, t)
}

// The rank of an event, 0 where it has no begin.
pub(crate) fn rank(table: &[usize], event: usize) -> usize {
    get(table, plus(RANK, event))
}

// The event action of record i.
pub(crate) fn action_of(recs: &[u8], table: &[usize], i: usize) -> usize {
    rank(table, event_of(recs, i))
}

// The set of those that happen before u.
pub(crate) fn before(table: &[usize], u: usize) -> usize {
    get(table, plus(BEFORE, u)) | bit(u)
}

pub(crate) fn reaches(table: &[usize], t: usize, u: usize) -> bool {
    is_in(before(table, u), t)
}

// Record i, where `found` begins stand before it; how many then.
fn put_begin(recs: &[u8], table: &mut [usize], found: usize, i: usize) -> usize {
    if !is_kind(recs, i, 1) {
        return found;
    }
    let t = plus(found, 1);
    put(table, t, event_of(recs, i));
    put(table, plus(RANK, event_of(recs, i)), t);
    t
}

// The begins in their order; how many.
pub(crate) fn find_begins(recs: &[u8], table: &mut [usize]) -> usize {
    let n = access::count(recs);
    let mut found = 0;
    for i in 0..n {
        found = put_begin(recs, table, found, i);
    }
    found
}

// A fork or a send.
fn starts(recs: &[u8], i: usize) -> bool {
    is_kind(recs, i, 3) | is_send(recs, i)
}

// The two that a fork, a send or a join orders; 0 for the later one where record i is none of them.
fn earlier(recs: &[u8], table: &[usize], i: usize) -> usize {
    let joined = rank(table, target_of(recs, i));
    pick(starts(recs, i), action_of(recs, table, i), joined)
}

fn later(recs: &[u8], table: &[usize], i: usize) -> usize {
    let started = pick(starts(recs, i), rank(table, target_of(recs, i)), 0);
    pick(is_kind(recs, i, 4), action_of(recs, table, i), started)
}

// Those that happen before the later one, with those before the earlier one and those that a link puts ahead of it.
fn joined(recs: &[u8], table: &[usize], i: usize) -> usize {
    let two = before(table, earlier(recs, table, i)) | before(table, later(recs, table, i));
    two | find_ahead(recs, table, i)
}

// Enters what record i says of order; does it say anything new?
fn is_new(recs: &[u8], table: &mut [usize], i: usize) -> bool {
    let u = later(recs, table, i);
    let set = joined(recs, table, i);
    let old = before(table, u);
    put(table, pick(u == 0, NOWHERE, plus(BEFORE, u)), set);
    (u != 0) & (set != old)
}

// "t = u or a path of forks (from starter to started) and joins (from waited-for to waiting) leads from t to u", and the link rule: "The order is the least
// one with these rules." All records in turn, again and again, until each says nothing new; a turn through all of them adds a pair.
pub(crate) fn find_paths(recs: &[u8], table: &mut [usize]) {
    let n = access::count(recs);
    let mut old = 0;
    for x in 0..1000000 {
        if n <= old {
            return;
        }
        let new = is_new(recs, table, remainder(x, n));
        old = pick(new, 0, plus(old, 1));
    }
}
