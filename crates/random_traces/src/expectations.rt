// What each call must answer about an accepted trace, asked in each of these ways: 0 accepted, 1 width 0, 2 width 1,025, 3 a clock too few, 4 a work
// byte too few, 5 a chain too few, 6 a list number too few, 7 two records that are no race, 8 a record that is not in the trace.
use crate::calls::{Case, FILL, PAIR};
use crate::known::Known;
use crate::slots::fives;
use crate::{chains, tally};
use trials::numbers::{less, pick, plus};

// How many entries the list of a call has, for the pair question how many it asks for.
fn entries_of(k: Known, call: usize) -> usize {
    match call {
        0 => 0,
        1 => k.races,
        2 => k.entries,
        _ => k.events,
    }
}

// How many numbers they take.
fn numbers_of(k: Known, call: usize) -> usize {
    let n = entries_of(k, call);
    pick(call == PAIR, plus(n, n), fives(n))
}

fn width_in(k: Known, way: usize) -> usize {
    match way {
        1 => 0,
        2 => 1025,
        5 => less(k.chains),
        _ => k.width,
    }
}

fn clocks_in(k: Known, way: usize) -> usize {
    match way {
        3 => less(k.clocks),
        5 => chains::row_start(k.events, less(k.chains)),
        _ => k.clocks,
    }
}

fn number_in(way: usize) -> usize {
    match way {
        0 => 0,
        1..=3 => 21,
        4 => 22,
        5 => 23,
        6 => 24,
        7 => 12,
        _ => 11,
    }
}

fn group_in(call: usize, way: usize) -> usize {
    match way {
        0 => plus(tally::CALLS, call),
        1..=3 => tally::WIDTH,
        4 => tally::WORK_SPACE,
        5 => tally::CHAINS,
        6 => tally::LIST_SPACE,
        _ => tally::NO_RACE,
    }
}

// The list space has a few numbers more than it takes, or one less.
pub(crate) fn case_of(k: Known, call: usize, way: usize, a: usize, b: usize) -> Case {
    let numbers = numbers_of(k, call);
    let clocks = clocks_in(k, way);
    let filled = (way == 0) | (way == 6) | (way == 7);
    let past = (filled | (way == 5)) & (call != FILL);
    Case {
        call: call,
        asks: (call == PAIR) & (way == 0),
        width: width_in(k, way),
        clocks: clocks,
        work: pick(way == 4, less(k.events), k.events),
        list: pick(way == 6, less(numbers), plus(numbers, 4)),
        a: a,
        b: b,
        group: group_in(call, way),
        number: number_in(way),
        place: pick(way == 5, k.begin, 0),
        rows: pick(filled, clocks, 0),
        zeros: pick(way == 5, clocks, 0),
        cleared: pick(past, k.events, 0),
        listed: pick(way == 0, numbers, 0),
        count: entries_of(k, call),
    }
}

// Any call about a trace that is refused: all lent memory is unchanged.
pub(crate) fn refused(k: Known, call: usize, number: usize, place: usize) -> Case {
    let mut c = case_of(k, call, 8, 0, 0);
    c.group = tally::REFUSED_TRACE;
    c.number = number;
    c.place = place;
    c
}

// Whether a call can be asked in that way. Filling has no work space and no list; the pair question needs a race, and is asked about each of them elsewhere.
pub(crate) fn can_ask(k: Known, call: usize, way: usize) -> bool {
    if (call == PAIR) & ((k.races == 0) | (way == 0)) {
        return false;
    }
    match way {
        3 => 0 < k.clocks,
        4 => (call != FILL) & (0 < k.events),
        5 => (1 < k.chains) & (k.chains < 10),
        6 => 0 < numbers_of(k, call),
        _ => true,
    }
}
