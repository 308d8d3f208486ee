// The compactor on one accepted trace: what it keeps, and the order and the open races of the slim trace, by plain search.
use crate::calls::at_most;
use crate::cases::first_bytes;
use crate::known::Known;
use crate::slim::Side;
use crate::tally::Counts;
use crate::{damage, draft, known, paths, slim, tally};
use records::access;
use trials::numbers::{less, plus};

fn space() -> [u8; 2048] {
    [0; 2048]
}

// With that much space, is the trace refused so, and the space unchanged?
pub(crate) fn is_refused(bytes: &[u8], length: usize, number: usize, place: usize) -> bool {
    let mut made = space();
    let out: &mut [u8] = &mut made;
    let n = at_most(length, 2048);
    let r = compactor::compact(bytes, &mut out[..n]);
    match r {
        Ok(_) => false,
        Err(f) => {
            let same = (usize::from(f.reason.number()) == number)
                & (usize::from(f.place.0) == place);
            same & slim::same_bytes(out, &space(), 2048)
        }
    }
}

// Does compacting the slim trace drop nothing and give the same bytes?
fn is_final(slim_bytes: &[u8]) -> bool {
    let mut again = space();
    let r = compactor::compact(slim_bytes, &mut again);
    match r {
        Ok(s) => {
            let n = slim_bytes.len();
            let same = slim::same_bytes(slim_bytes, &again, n);
            (s.length == n) & (s.dropped == 0) & same
        }
        Err(_) => false,
    }
}

// The cells with an open race, and the combinations among open races, of both.
fn same_races(
    recs: &[u8],
    table: &[usize],
    races: usize,
    slim_recs: &[u8],
    slim_table: &[usize],
    slim_races: usize,
    map: &[usize],
) -> bool {
    let full = Side {
        races: races,
        numbers: slim::NEW,
    };
    let kept = Side {
        races: slim_races,
        numbers: slim::OLD,
    };
    let there = slim::all_found(recs, table, full, slim_recs, slim_table, slim_races, map);
    let back = slim::all_found(slim_recs, slim_table, kept, recs, table, races, map);
    there & back
}

// The records of the slim trace, by the map of what is kept.
fn compare_found(
    recs: &[u8],
    table: &[usize],
    k: Known,
    slim_recs: &[u8],
    slim_table: &[usize],
    s: Known,
    map: &[usize],
    before: Counts,
) -> Counts {
    let kept = slim::are_kept(recs, slim_recs, map, s.records);
    let order = (s.events == k.events) & slim::same_order(table, slim_table, k.events);
    let races = same_races(recs, table, k.races, slim_recs, slim_table, s.races, map);
    let noted = tally::note(before, tally::SLIM_RECORDS, kept);
    tally::note(
        tally::note(noted, tally::SLIM_ORDER, order),
        tally::SLIM_RACES,
        races,
    )
}

fn compare_records(
    recs: &[u8],
    table: &[usize],
    k: Known,
    slim_recs: &[u8],
    dropped: usize,
    before: Counts,
) -> Counts {
    let mut numbers = slim::map_space();
    let map: &mut [usize] = &mut numbers;
    let kept = slim::find_kept(recs, map);
    let mut found = paths::table_space();
    let slim_table: &mut [usize] = &mut found;
    let s = known::find_all(slim_recs, slim_table);
    let all = (s.records == kept) & (plus(kept, dropped) == k.records);
    let counted = tally::add(before, tally::DROPPED, dropped);
    let noted = tally::note(counted, tally::SLIM, all);
    compare_found(recs, table, k, slim_recs, slim_table, s, map, noted)
}

// A slim trace is accepted, with nothing before its record 1, and can't be made slimmer.
fn compare_slim(
    recs: &[u8],
    table: &[usize],
    k: Known,
    slim_bytes: &[u8],
    dropped: usize,
    before: Counts,
) -> Counts {
    match trace::read(slim_bytes) {
        Ok(t) => {
            let right = (t.start == 0) & is_final(slim_bytes);
            let noted = tally::note(before, tally::SLIM, right);
            compare_records(
                recs,
                table,
                k,
                access::records(slim_bytes, t),
                dropped,
                noted,
            )
        }
        Err(_) => tally::note(before, tally::SLIM, false),
    }
}

// An accepted trace, of which the plain search knows that much.
pub(crate) fn compare(
    bytes: &[u8],
    recs: &[u8],
    table: &[usize],
    k: Known,
    before: Counts,
) -> Counts {
    let mut made = space();
    let out: &mut [u8] = &mut made;
    let r = compactor::compact(bytes, out);
    match r {
        Ok(s) => {
            let short = is_refused(bytes, less(s.length), 24, 0);
            let noted = tally::note(before, tally::LIST_SPACE, short);
            let made = first_bytes(out, s.length);
            compare_slim(recs, table, k, made, s.dropped, noted)
        }
        Err(_) => tally::note(before, tally::SLIM, false),
    }
}

fn check(bytes: &[u8], before: Counts) -> Counts {
    match trace::read(bytes) {
        Ok(t) => {
            let recs = access::records(bytes, t);
            let mut found = paths::table_space();
            let table: &mut [usize] = &mut found;
            let k = known::find_all(recs, table);
            compare(bytes, recs, table, k, before)
        }
        Err(_) => tally::note(before, tally::SLIM, false),
    }
}

// Trace x of those with few cells and many accesses.
fn repeating(x: usize, before: Counts) -> Counts {
    let mut drafted = space();
    let bytes: &mut [u8] = &mut drafted;
    let d = draft::put_repeating(bytes, x);
    let n = damage::put_end(bytes, d, true, x);
    check(first_bytes(bytes, n), before)
}

pub(crate) fn run(before: Counts) -> Counts {
    let mut tally = before;
    for x in (0..500).rev() {
        tally = repeating(x, tally);
    }
    tally
}
