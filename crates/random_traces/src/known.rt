// What the plain search knows of one accepted trace, beside the table.
use crate::{chains, definitions, judge, paths};
use records::access;
use trials::numbers::{less, plus};

// Event actions, records, chains, the width to use and the clocks that it takes, races, entries of the short list, and the begin that needs the last chain.
#[derive(Clone, Copy)]
pub(crate) struct Known {
    pub events: usize,
    pub records: usize,
    pub chains: usize,
    pub width: usize,
    pub clocks: usize,
    pub races: usize,
    pub entries: usize,
    pub begin: usize,
}

// The event actions and the paths; how many event actions.
pub(crate) fn find_order(recs: &[u8], table: &mut [usize]) -> usize {
    let events = paths::find_begins(recs, table);
    paths::find_paths(recs, table);
    events
}

// The record number of the begin that needs the last chain.
fn begin_of_last(recs: &[u8], table: &[usize], chains: usize) -> usize {
    let t = chains::first_on(table, less(chains));
    plus(
        judge::find(recs, access::count(recs), 1, paths::number_of(table, t)),
        1,
    )
}

pub(crate) fn find_all(recs: &[u8], table: &mut [usize]) -> Known {
    let events = find_order(recs, table);
    let chains = chains::find_chains(table, events);
    let races = definitions::find_races(recs, table);
    let entries = definitions::find_short(recs, table, races);
    let width = chains::width_for(chains);
    Known {
        events: events,
        records: access::count(recs),
        chains: chains,
        width: width,
        clocks: chains::row_start(events, width),
        races: races,
        entries: entries,
        begin: begin_of_last(recs, table, chains),
    }
}

pub(crate) fn nothing() -> Known {
    Known {
        events: 0,
        records: 0,
        chains: 0,
        width: 32,
        clocks: 100,
        races: 0,
        entries: 0,
        begin: 0,
    }
}
