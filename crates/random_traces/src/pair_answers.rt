// An answer of the pair question against the definitions of cover and arrangement.
use crate::definitions::{is_before, is_race};
use crate::known::Known;
use crate::paths::{action_of, reaches};
use crate::{definitions, judge, paths};
use records::access;
use slices::get;
use trials::numbers::{less, pick, plus};
use trials::sets::is_in;

// Entries of two numbers.
fn first_of(list: &[u16], i: usize) -> usize {
    usize::from(get(list, plus(i, i)))
}

fn second_of(list: &[u16], i: usize) -> usize {
    usize::from(get(list, plus(plus(i, i), 1)))
}

// Nothing is written after the first n entries.
fn ends_at(list: &[u16], n: usize) -> bool {
    for i in plus(n, n)..256 {
        if usize::from(get(list, i)) != 9 {
            return false;
        }
    }
    true
}

// The event action before entry i: that of a, or of the second record of the entry before.
fn comes_from(recs: &[u8], table: &[usize], list: &[u16], a: usize, i: usize) -> usize {
    let d = less(second_of(list, less(i)));
    action_of(recs, table, pick(i == 0, a, d))
}

// "ev(a) ≼ ev(c1), each ev(di) ≼ ev(c(i+1))": entry i is a race that continues from there. Positions run from 0, record numbers from 1.
fn continues(recs: &[u8], table: &[usize], list: &[u16], a: usize, i: usize) -> bool {
    let c = less(first_of(list, i));
    let t = comes_from(recs, table, list, a, i);
    let race = is_race(recs, table, c, less(second_of(list, i)));
    race & reaches(table, t, action_of(recs, table, c))
}

// The first n entries are a cover of (a, b): races, each continuing from the one before, and the last one's second record ≼ b.
fn is_cover(recs: &[u8], table: &[usize], list: &[u16], n: usize, a: usize, b: usize) -> bool {
    for i in 0..n {
        if !continues(recs, table, list, a, i) {
            return false;
        }
    }
    is_before(recs, table, less(second_of(list, less(n))), b) & (0 < n)
}

// The last record kept of event action t: its end, or b.
fn last_of(recs: &[u8], table: &[usize], b: usize, t: usize) -> usize {
    let end = judge::find(recs, access::count(recs), 2, paths::number_of(table, t));
    plus(pick(t == action_of(recs, table, b), b, end), 1)
}

// Where the entries have event action t of the kept ones at place i: the place after it; where they don't: 1,000.
fn next_entry(recs: &[u8], table: &[usize], list: &[u16], b: usize, t: usize, i: usize) -> usize {
    let event = first_of(list, i) == paths::number_of(table, t);
    let last = second_of(list, i) == last_of(recs, table, b, t);
    pick(event & last, plus(i, 1), 1000)
}

// The entries are those of the kept event actions, in their order: how many they are, or 1,000 and more.
fn count_kept(
    recs: &[u8],
    table: &[usize],
    events: usize,
    kept: usize,
    list: &[u16],
    b: usize,
) -> usize {
    let mut found = 0;
    for t in 1..=events {
        if is_in(kept, t) {
            found = next_entry(recs, table, list, b, t, found);
        }
    }
    found
}

// Whether record i is kept: those of the kept event actions, of b's own up to b.
fn is_kept(recs: &[u8], table: &[usize], kept: usize, b: usize, i: usize) -> bool {
    let t = action_of(recs, table, i);
    if t == action_of(recs, table, b) {
        return i <= b;
    }
    is_in(kept, t)
}

// Two records against the conditions of an arrangement whose last record is b: "If a ≼ b and b is in it, a is in it earlier", and a race's first
// record is in it where its second is, or its second is the last record.
fn is_arranged_at(recs: &[u8], table: &[usize], kept: usize, b: usize, x: usize, y: usize) -> bool {
    if is_kept(recs, table, kept, b, x) | !is_kept(recs, table, kept, b, y) {
        return true;
    }
    let race = is_race(recs, table, x, y) & (y != b);
    !race & !is_before(recs, table, x, y)
}

fn is_arranged(recs: &[u8], table: &[usize], kept: usize, b: usize) -> bool {
    let n = definitions::grid(access::count(recs));
    for x in 0..n {
        if !is_arranged_at(recs, table, kept, b, x / 512, x % 512) {
            return false;
        }
    }
    true
}

// "ev(b) up to b, and the whole of each other event action t from which happens-before and races lead to b": the entries are those, and their records are an
// arrangement whose last record is b, without a.
fn is_open(
    recs: &[u8],
    table: &[usize],
    events: usize,
    leads: usize,
    list: &[u16],
    n: usize,
    a: usize,
    b: usize,
) -> bool {
    let kept = leads | paths::before(table, action_of(recs, table, b));
    let found = count_kept(recs, table, events, kept, list, b);
    let last = second_of(list, less(n)) == plus(b, 1);
    let ends = !is_kept(recs, table, kept, b, a) & last;
    ends & (found == n) & is_arranged(recs, table, kept, b)
}

// The answer for race (a, b), with n entries.
pub(crate) fn agrees(
    recs: &[u8],
    table: &[usize],
    k: Known,
    list: &[u16],
    covered: bool,
    n: usize,
    a: usize,
    b: usize,
) -> bool {
    let leads = definitions::find_leads(recs, table, k.races, b);
    if covered != is_in(leads, action_of(recs, table, a)) {
        return false;
    }
    if covered {
        return is_cover(recs, table, list, n, a, b) & ends_at(list, n);
    }
    is_open(recs, table, k.events, leads, list, n, a, b) & ends_at(list, n)
}
