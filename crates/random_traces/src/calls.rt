// One call of the product, with what it must answer and leave in lent memory.
ghost use Rattle.std.specs.Prelude.{◌≤◌};

use crate::judge::byte_at;
use crate::known::Known;
use crate::slots::narrow;
use crate::{chains, definitions, pair_answers};
use pair::Verdict;
use races::Summary;
use records::Operation;
use slices::get;
use trace::Refusal;
use trials::numbers::{pick, plus};

// The calls.
pub(crate) const FILL: usize = 0;

pub(crate) const ALL_RACES: usize = 1;

pub(crate) const PAIR: usize = 3;

// What is asked: the call, whether it is the pair question of a race, the width, how many clocks, work bytes and list numbers are lent, and two
// records. What is expected: the group to count it in, a refusal's number (0 for none) and place; how many of the clocks are then as the rows say, or
// 0; how many work bytes are 0; how many list numbers are those of the list, and how many entries they are. All other lent memory is unchanged.
#[derive(Clone, Copy)]
pub(crate) struct Case {
    pub call: usize,
    pub asks: bool,
    pub width: usize,
    pub clocks: usize,
    pub work: usize,
    pub list: usize,
    pub a: usize,
    pub b: usize,
    pub group: usize,
    pub number: usize,
    pub place: usize,
    pub rows: usize,
    pub zeros: usize,
    pub cleared: usize,
    pub listed: usize,
    pub count: usize,
}

// An answer of any of the calls.
#[derive(Clone, Copy)]
struct Reply {
    number: usize,
    place: usize,
    events: usize,
    records: usize,
    chains: usize,
    count: usize,
    covered: bool,
}

// Whether the answer and the list agree, and the other lent memory; for the pair question, whether it answers covered, and how many entries.
#[derive(Clone, Copy)]
pub(crate) struct Outcome {
    pub right: bool,
    pub lent: bool,
    pub covered: bool,
    pub count: usize,
}

fn refused(f: Refusal) -> Reply {
    Reply {
        number: usize::from(f.reason.number()),
        place: usize::from(f.place.0),
        events: 0,
        records: 0,
        chains: 0,
        count: 0,
        covered: false,
    }
}

fn counted(chains: usize, count: usize, covered: bool) -> Reply {
    Reply {
        number: 0,
        place: 0,
        events: 0,
        records: 0,
        chains: chains,
        count: count,
        covered: covered,
    }
}

fn of_filling(r: Result<usize, Refusal>) -> Reply {
    match r {
        Ok(c) => counted(c, 0, false),
        Err(f) => refused(f),
    }
}

fn of_pair(r: Result<Verdict, Refusal>) -> Reply {
    match r {
        Ok(Verdict::Open(n)) => counted(0, n, false),
        Ok(Verdict::Covered(n)) => counted(0, n, true),
        Err(f) => refused(f),
    }
}

fn of_listing(r: Result<Summary, Refusal>) -> Reply {
    match r {
        Ok(s) => Reply {
            number: 0,
            place: 0,
            events: s.events,
            records: s.records,
            chains: s.chains,
            count: s.count,
            covered: false,
        },
        Err(f) => refused(f),
    }
}

// Record numbers run from 1.
fn record_number(i: usize) -> Operation {
    Operation(narrow(plus(i, 1)))
}

fn call(c: Case, bytes: &[u8], clocks: &mut [u16], work: &mut [u8], list: &mut [u16]) -> Reply {
    if c.call == PAIR {
        let a = record_number(c.a);
        let b = record_number(c.b);
        return of_pair(pair::ask_pair(bytes, c.width, clocks, work, list, a, b));
    }
    if c.call == ALL_RACES {
        return of_listing(races::all_races(bytes, c.width, clocks, work, list));
    }
    if c.call == FILL {
        return of_filling(order::fill(bytes, c.width, clocks));
    }
    of_listing(races::short_list(bytes, c.width, clocks, work, list))
}

// What stands in lent memory beforehand.
pub(crate) fn clock_space() -> [u16; 1100] {
    [7; 1100]
}

fn work_space() -> [u8; 64] {
    [3; 64]
}

fn list_space() -> [u16; 25700] {
    [9; 25700]
}

pub(crate) fn at_most(n: usize, most: usize) -> usize
    ensures { result ≤ most }
{
    if n <= most {
        return n;
    }
    most
}

fn clocks_agree(c: Case, table: &[usize], clocks: &[u16]) -> bool {
    for i in 0..1100 {
        let unfilled = pick(i < c.zeros, 0, 7);
        let expected = pick(i < c.rows, chains::clock(table, c.width, i), unfilled);
        if usize::from(get(clocks, i)) != expected {
            return false;
        }
    }
    true
}

fn work_agrees(c: Case, work: &[u8]) -> bool {
    for i in 0..64 {
        if byte_at(work, i) != pick(i < c.cleared, 0, 3) {
            return false;
        }
    }
    true
}

fn list_agrees(c: Case, recs: &[u8], table: &[usize], list: &[u16]) -> bool {
    let n = c.list;
    for i in 0..n {
        let number = definitions::number_in_list(recs, table, c.call == ALL_RACES, i);
        let expected = pick(i < c.listed, number, 9);
        if usize::from(get(list, i)) != expected {
            return false;
        }
    }
    true
}

// The figures of an answer that is no refusal.
fn figures_agree(c: Case, k: Known, r: Reply) -> bool {
    let chains = r.chains == k.chains;
    if c.call == FILL {
        return chains;
    }
    let sizes = (r.events == k.events) & (r.records == k.records);
    sizes & chains & (r.count == c.count)
}

fn reply_agrees(c: Case, k: Known, r: Reply) -> bool {
    if r.number != c.number {
        return false;
    }
    if c.number == 0 {
        return figures_agree(c, k, r);
    }
    r.place == c.place
}

fn answer_agrees(c: Case, k: Known, r: Reply, recs: &[u8], table: &[usize], list: &[u16]) -> bool {
    if c.asks {
        let agrees = pair_answers::agrees(recs, table, k, list, r.covered, r.count, c.a, c.b);
        return agrees & (r.number == 0);
    }
    reply_agrees(c, k, r) & list_agrees(c, recs, table, list)
}

fn with_list(
    c: Case,
    k: Known,
    bytes: &[u8],
    recs: &[u8],
    table: &[usize],
    clocks: &mut [u16],
    work: &mut [u8],
) -> Outcome {
    let mut space = list_space();
    let list: &mut [u16] = &mut space;
    let n = at_most(c.list, 25700);
    let r = call(c, bytes, clocks, work, &mut list[..n]);
    Outcome {
        right: answer_agrees(c, k, r, recs, table, list),
        lent: true,
        covered: r.covered,
        count: r.count,
    }
}

fn with_work(
    c: Case,
    k: Known,
    bytes: &[u8],
    recs: &[u8],
    table: &[usize],
    clocks: &mut [u16],
) -> Outcome {
    let mut space = work_space();
    let work: &mut [u8] = &mut space;
    let n = at_most(c.work, 64);
    let mut o = with_list(c, k, bytes, recs, table, clocks, &mut work[..n]);
    o.lent = work_agrees(c, work);
    o
}

// The call of a case.
pub(crate) fn ask(c: Case, k: Known, bytes: &[u8], recs: &[u8], table: &[usize]) -> Outcome {
    let mut space = clock_space();
    let clocks: &mut [u16] = &mut space;
    let n = at_most(c.clocks, 1100);
    let mut o = with_work(c, k, bytes, recs, table, &mut clocks[..n]);
    o.lent = o.lent & clocks_agree(c, table, clocks);
    o
}
