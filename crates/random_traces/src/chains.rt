// Chains and clock rows, from the paths alone.
use crate::paths::{MEMBERS, before};
use crate::slots::{NOWHERE, size};
use slices::{get, put};
use trials::numbers::{pick, plus};
use trials::sets::bit;

fn members(table: &[usize], chain: usize) -> usize {
    get(table, plus(MEMBERS, chain))
}

// Those of the chain's members that happen before u.
fn members_before(table: &[usize], u: usize, chain: usize) -> usize {
    members(table, chain) & before(table, u)
}

// The lowest chain whose last member happens before u, else a new one. Each member of a chain happens before the next, so the last does where all do.
fn choose(table: &[usize], chains: usize, u: usize) -> usize {
    for c in 0..chains {
        if members_before(table, u, c) == members(table, c) {
            return c;
        }
    }
    chains
}

// "Event actions take chains in order of begin: the lowest-numbered chain, from 0, whose last member happens before the new one, else a new chain."
// How many chains.
pub(crate) fn find_chains(table: &mut [usize], count: usize) -> usize {
    let mut chains = 0;
    for t in 1..=count {
        let c = choose(table, chains, t);
        let set = members(table, c) | bit(t);
        put(table, plus(MEMBERS, c), set);
        chains = pick(c == chains, plus(c, 1), chains);
    }
    chains
}

// The first event action on the chain.
pub(crate) fn first_on(table: &[usize], chain: usize) -> usize {
    size(usize::trailing_zeros(members(table, chain)))
}

// Where row t starts, from 0. Widths are 1 to 8 or 32.
pub(crate) fn row_start(t: usize, width: usize) -> usize {
    if 2048 < t {
        return NOWHERE;
    }
    match width {
        1 => t,
        2 => 2 * t,
        3 => 3 * t,
        4 => 4 * t,
        5 => 5 * t,
        6 => 6 * t,
        7 => 7 * t,
        8 => 8 * t,
        _ => 32 * t,
    }
}

// The smallest of those widths that suffices.
pub(crate) fn width_for(chains: usize) -> usize {
    match chains {
        0 => 1,
        1..=8 => chains,
        _ => 32,
    }
}

// Clock i of the rows: how many members of a chain happen before an event action.
pub(crate) fn clock(table: &[usize], width: usize, i: usize) -> usize {
    if width == 0 {
        return 0;
    }
    size(usize::count_ones(members_before(table, plus(i / width, 1), i % width)))
}
