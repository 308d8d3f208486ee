// The order question against the paths.
use crate::calls::clock_space;
use crate::known::Known;
use crate::slots::narrow;
use crate::tally::Counts;
use crate::{paths, tally};
use clocks::Relation;
use records::EventId;
use trace::Refusal;
use trials::numbers::{less, pick, plus};

fn number(way: Relation) -> usize {
    match way {
        Relation::Same => 1,
        Relation::Before => 2,
        Relation::After => 3,
        Relation::Unordered => 4,
    }
}

// 1 the same, 2 first before second, 3 second before first, 4 unordered; 11 where one has no begin in the trace: refusal 11, place 0.
fn code(r: Result<Relation, Refusal>) -> usize {
    match r {
        Ok(way) => number(way),
        Err(f) => plus(usize::from(f.reason.number()), usize::from(f.place.0)),
    }
}

fn expected(table: &[usize], k: Known, t: usize, u: usize) -> usize {
    let back = pick(paths::reaches(table, u, t), 3, 4);
    let forth = pick(paths::reaches(table, t, u), 2, back);
    let way = pick(t == u, 1, forth);
    pick((k.events < t) | (k.events < u), 11, way)
}

// The number of event action t; past the last, one that no event has.
fn event(table: &[usize], k: Known, t: usize) -> EventId {
    EventId(narrow(pick(k.events < t, 1025, paths::number_of(table, t))))
}

// The order question of t and u.
fn compare_question(
    bytes: &[u8],
    table: &[usize],
    k: Known,
    clocks: &[u16],
    t: usize,
    u: usize,
    before: Counts,
) -> Counts {
    let x = event(table, k, t);
    let y = event(table, k, u);
    let answer = code(question::ask_order(bytes, k.width, clocks, x, y));
    let way = expected(table, k, t, u);
    let tally = tally::note(before, tally::ORDER, answer == way);
    tally::add(tally, tally::ORDERED, pick(way < 3, 1, 0))
}

// Each of the event actions, and one that has no begin, with each.
fn compare_questions(
    bytes: &[u8],
    table: &[usize],
    k: Known,
    clocks: &[u16],
    before: Counts,
) -> Counts {
    let n = plus(k.events, 1);
    let mut tally = before;
    for x in 0..1024 {
        if (x / 32 < n) & (x % 32 < n) {
            tally = compare_question(
                bytes,
                table,
                k,
                clocks,
                plus(x / 32, 1),
                plus(x % 32, 1),
                tally,
            );
        }
    }
    tally
}

// The first event action with itself, by a width of 0 and by a chain too few.
fn compare_refusals(
    bytes: &[u8],
    table: &[usize],
    k: Known,
    clocks: &[u16],
    before: Counts,
) -> Counts {
    let x = event(table, k, 1);
    let none = code(question::ask_order(bytes, 0, clocks, x, x));
    let few = code(question::ask_order(bytes, less(k.chains), clocks, x, x));
    let narrower = pick(k.chains == 1, 21, plus(23, k.begin));
    let tally = tally::note(before, tally::ORDER, none == pick(k.events == 0, 11, 21));
    tally::note(
        tally,
        tally::ORDER,
        few == pick(k.events == 0, 11, narrower),
    )
}

// A trace that is refused.
pub(crate) fn is_refused(bytes: &[u8], number: usize, place: usize) -> bool {
    let clocks = [0u16; 1];
    let answer = question::ask_order(bytes, 1, &clocks, EventId(1), EventId(1));
    code(answer) == plus(number, place)
}

// Everything that the order question answers about one trace, over clocks that filling left.
pub(crate) fn compare(bytes: &[u8], table: &[usize], k: Known, before: Counts) -> Counts {
    let mut space = clock_space();
    let clocks: &mut [u16] = &mut space;
    let _ = order::fill(bytes, k.width, clocks);
    let refused = compare_refusals(bytes, table, k, clocks, before);
    compare_questions(bytes, table, k, clocks, refused)
}
