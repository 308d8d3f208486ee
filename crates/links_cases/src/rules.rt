// Happens-before by its rules, and refusal 31 by its words, of at most 128 records whose events are numbered below 32. Records are known by position,
// from 0.
use records::access;
use slices::{get, put};
use trials::numbers::{pick, plus};
use trials::recs::{event_of, is_kind, target_of};
use trials::sets::{bit, is_in};

// What is found stands in one table: of each event u the set of the t ≼ u, then the set of those that begin, then of each event its row.
const BEGUN: usize = 32;

const ROWS: usize = 33;

pub(crate) fn space() -> [usize; 65] {
    [0; 65]
}

fn is_send(recs: &[u8], i: usize) -> bool {
    let kind = access::kind_at(recs, i);
    (16 <= kind) & (kind <= 19)
}

fn is_same_link(recs: &[u8], a: usize, b: usize) -> bool {
    is_send(recs, a) & is_kind(recs, b, access::kind_at(recs, a))
}

pub(crate) fn begins(table: &[usize], e: usize) -> bool {
    is_in(get(table, BEGUN), e)
}

pub(crate) fn row_of(table: &[usize], e: usize) -> usize {
    get(table, plus(ROWS, e))
}

// t ≼ u, as far as it is found.
pub(crate) fn is_before(table: &[usize], t: usize, u: usize) -> bool {
    is_in(get(table, u), t)
}

// "For records a ≼ b: in different event actions as those are ordered; in one, when a stands earlier."
fn is_record_before(recs: &[u8], table: &[usize], a: usize, b: usize) -> bool {
    let t = event_of(recs, a);
    let u = event_of(recs, b);
    if t == u {
        return a < b;
    }
    is_before(table, t, u)
}

fn enter(table: &mut [usize], yes: bool, t: usize, u: usize) {
    let set = get(table, u) | pick(yes, bit(t), 0);
    put(table, u, set);
}

// Forks "from starter to started", sends "ordering as a fork does", joins "from waited-for to waiting".
fn by_record(recs: &[u8], table: &mut [usize], i: usize) {
    let event = event_of(recs, i);
    let target = target_of(recs, i);
    let starts = is_kind(recs, i, 3) | is_send(recs, i);
    let started = starts & begins(table, target);
    enter(table, started, event, target);
    enter(table, is_kind(recs, i, 4), target, event);
}

// "Where one send ≼ another on the same link, the first's target happens before the second's"
fn by_link(recs: &[u8], table: &mut [usize], a: usize, b: usize) {
    if !is_same_link(recs, a, b) {
        return;
    }
    let t = target_of(recs, a);
    let u = target_of(recs, b);
    let both = begins(table, t) & begins(table, u);
    let behind = both & is_record_before(recs, table, a, b);
    enter(table, behind, t, u);
}

fn by_path(table: &mut [usize], t: usize, u: usize) {
    if is_before(table, t, u) {
        let set = get(table, u) | get(table, t);
        put(table, u, set);
    }
}

fn records_once(recs: &[u8], table: &mut [usize], n: usize) {
    for i in 0..n {
        by_record(recs, table, i);
    }
}

// Two of n records, as one number below this.
fn pairs(n: usize) -> usize {
    if n < 128 {
        return 128 * n;
    }
    16384
}

fn by_pair(recs: &[u8], table: &mut [usize], n: usize, x: usize) {
    if x % 128 < n {
        by_link(recs, table, x % 128, x / 128);
    }
}

fn links_once(recs: &[u8], table: &mut [usize], n: usize) {
    let end = pairs(n);
    for x in 0..end {
        by_pair(recs, table, n, x);
    }
}

fn paths_once(table: &mut [usize]) {
    for x in 0..1024 {
        by_path(table, x % 32, x / 32);
    }
}

// No event has begun, each is before itself alone.
fn clear(table: &mut [usize]) {
    for e in 0..32 {
        put(table, e, bit(e));
    }
    put(table, BEGUN, 0);
}

// Record i after so many begins; how many then.
fn note_begin(recs: &[u8], table: &mut [usize], i: usize, found: usize) -> usize {
    if !is_kind(recs, i, 1) {
        return found;
    }
    let e = event_of(recs, i);
    enter(table, true, e, BEGUN);
    put(table, plus(ROWS, e), found);
    plus(found, 1)
}

// Those that begin among the first n records, with their rows.
fn find_begun(recs: &[u8], table: &mut [usize], n: usize) {
    let mut found = 0usize;
    for i in 0..n {
        found = note_begin(recs, table, i, found);
    }
}

// Sets only grow, and so does this where one grows.
fn sum(table: &[usize]) -> usize {
    let mut all = 0usize;
    for e in 0..32 {
        all = plus(all, get(table, e));
    }
    all
}

// "The order is the least one with these rules": all rules over the first n records, again and again until nothing changes. A round adds a pair.
pub(crate) fn find_order(recs: &[u8], table: &mut [usize], n: usize) {
    clear(table);
    find_begun(recs, table, n);
    for k in 0..1024 {
        let old = sum(table);
        records_once(recs, table, n);
        links_once(recs, table, n);
        paths_once(table);
        if sum(table) == old {
            return;
        }
    }
}

// Send b to e has on its link another, a, before it, "another target not yet begun".
fn is_behind(recs: &[u8], table: &[usize], a: usize, b: usize, e: usize) -> bool {
    if !is_same_link(recs, a, b) {
        return false;
    }
    let t = target_of(recs, a);
    let sent = (target_of(recs, b) == e) & (t != e);
    sent & !begins(table, t) & is_record_before(recs, table, a, b)
}

// A link puts e behind another target, by the first i records.
fn is_put_behind(recs: &[u8], table: &[usize], i: usize, e: usize) -> bool {
    let end = pairs(i);
    for x in 0..end {
        if (x % 128 < i) & is_behind(recs, table, x % 128, x / 128, e) {
            return true;
        }
    }
    false
}

fn is_blocked(recs: &[u8], table: &mut [usize], i: usize) -> bool {
    if !is_kind(recs, i, 1) {
        return false;
    }
    find_order(recs, table, i);
    is_put_behind(recs, table, i, event_of(recs, i))
}

// The position of the first begin that 31 refuses, or the number of records.
pub(crate) fn first_blocked(recs: &[u8], table: &mut [usize]) -> usize {
    let n = access::count(recs);
    for i in 0..n {
        if is_blocked(recs, table, i) {
            return i;
        }
    }
    n
}
