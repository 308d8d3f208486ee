// One trace: the position at which filling stops and the bits of the event actions that began before it, against the rules.
use crate::rules;
use crate::show::number;
use trials::line::word;
use trials::numbers::{pick, plus};

// How many traces, those that 31 refuses, pairs of event actions compared, ordered ones, and differences.
#[derive(Clone, Copy)]
pub(crate) struct Counts {
    pub traces: usize,
    pub refused: usize,
    pub pairs: usize,
    pub ordered: usize,
    pub differences: usize,
}

pub(crate) fn nothing() -> Counts {
    Counts {
        traces: 0,
        refused: 0,
        pairs: 0,
        ordered: 0,
        differences: 0,
    }
}

fn table_space() -> [u64; 8704] {
    [0; 8704]
}

fn fill(recs: &[u8], table: &mut [u64]) -> usize {
    let all = ranks::ranks(recs);
    links::fill(recs, &all, table)
}

// Both have begun.
fn are_rows(order: &[usize], t: usize, u: usize) -> bool {
    rules::begins(order, t) & rules::begins(order, u)
}

// t ≼ u by the bits.
fn is_set(order: &[usize], table: &[u64], t: usize, u: usize) -> bool {
    bits::get(table, rules::row_of(order, t), rules::row_of(order, u))
}

fn count_pair(c: Counts, order: &[usize], table: &[u64], t: usize, u: usize) -> Counts {
    let before = rules::is_before(order, t, u);
    let same = is_set(order, table, t, u) == before;
    Counts {
        traces: c.traces,
        refused: c.refused,
        pairs: plus(c.pairs, 1),
        ordered: plus(c.ordered, pick(before & (t != u), 1, 0)),
        differences: plus(c.differences, pick(same, 0, 1)),
    }
}

fn count_pairs(before: Counts, order: &[usize], table: &[u64]) -> Counts {
    let mut c = before;
    for x in 0..1024 {
        if are_rows(order, x % 32, x / 32) {
            c = count_pair(c, order, table, x % 32, x / 32);
        }
    }
    c
}

fn count_trace(c: Counts, refused: bool, same: bool) -> Counts {
    Counts {
        traces: plus(c.traces, 1),
        refused: plus(c.refused, pick(refused, 1, 0)),
        pairs: c.pairs,
        ordered: c.ordered,
        differences: plus(c.differences, pick(same, 0, 1)),
    }
}

pub(crate) fn compare(recs: &[u8], before: Counts) -> Counts {
    let mut order = rules::space();
    let mut table = table_space();
    let stop = rules::first_blocked(recs, &mut order);
    rules::find_order(recs, &mut order, stop);
    let filled = fill(recs, &mut table);
    let same = (filled == stop) & (links::first_blocked(recs) == stop);
    let refused = stop < records::access::count(recs);
    count_pairs(count_trace(before, refused, same), &order, &table)
}

fn show_pair(order: &[usize], table: &[u64], t: usize, u: usize) {
    if is_set(order, table, t, u) {
        word(b" ");
        number(t);
        word(b"<");
        number(u);
    }
}

// Those that the bits order, by the later one.
fn show_pairs(order: &[usize], table: &[u64]) {
    for x in 0..1024 {
        if are_rows(order, x % 32, x / 32) & (x % 32 != x / 32) {
            show_pair(order, table, x % 32, x / 32);
        }
    }
}

pub(crate) fn show(recs: &[u8]) {
    let mut order = rules::space();
    let mut table = table_space();
    let stop = fill(recs, &mut table);
    rules::find_order(recs, &mut order, stop);
    word(b"  stops at ");
    number(links::first_blocked(recs));
    word(b" of ");
    number(records::access::count(recs));
    word(b", differences ");
    number(compare(recs, nothing()).differences);
    word(b":");
    show_pairs(&order, &table);
    word(b"\n");
}

fn show_count(text: &[u8], n: usize) {
    word(text);
    number(n);
}

pub(crate) fn show_counts(c: Counts) {
    show_count(b" traces ", c.traces);
    show_count(b", refused by 31 ", c.refused);
    show_count(b", pairs ", c.pairs);
    show_count(b", ordered ", c.ordered);
    show_count(b", differences ", c.differences);
    word(b"\n");
}
