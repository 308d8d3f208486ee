// What was counted. Each group has two counts: agreements, then disagreements. The totals follow the groups.

use slices::get;
use trials::numbers::{pick, plus};

#[derive(Clone, Copy)]
pub(crate) struct Counts {
    pub at: [usize; 72],
}

// Groups.
pub(crate) const READING: usize = 0;

pub(crate) const JUDGED: usize = 1;

pub(crate) const ORDER: usize = 2;

// The group of call c is CALLS + c.
pub(crate) const CALLS: usize = 3;

pub(crate) const COVERED: usize = 7;

pub(crate) const NO_RACE: usize = 8;

pub(crate) const REFUSED_TRACE: usize = 9;

// Those of refusals 21 to 24.
pub(crate) const WIDTH: usize = 10;

pub(crate) const WORK_SPACE: usize = 11;

pub(crate) const CHAINS: usize = 12;

pub(crate) const LIST_SPACE: usize = 13;

pub(crate) const LENT: usize = 14;

// Those of the compactor.
pub(crate) const SLIM: usize = 27;

pub(crate) const SLIM_RECORDS: usize = 28;

pub(crate) const SLIM_ORDER: usize = 29;

pub(crate) const SLIM_RACES: usize = 30;

// Totals.
pub(crate) const TRACES: usize = 30;

pub(crate) const DAMAGED: usize = 31;

pub(crate) const STILL_ACCEPTED: usize = 32;

// Refusal n, 1 to 10 of a damaged trace, is counted at REFUSED + n.
pub(crate) const REFUSED: usize = 32;

pub(crate) const EVENTS: usize = 43;

pub(crate) const RECORDS: usize = 44;

pub(crate) const JOINS: usize = 45;

pub(crate) const FORKS: usize = 46;

pub(crate) const ORDERED: usize = 47;

pub(crate) const MOST_CHAINS: usize = 48;

pub(crate) const RACES: usize = 49;

pub(crate) const SHORT_ENTRIES: usize = 50;

pub(crate) const LONGER: usize = 51;

pub(crate) const LONGEST: usize = 52;

pub(crate) const DROPPED: usize = 62;

// At 63 stands refusal 31, of any trace.
pub(crate) const FRAMES: usize = 64;

pub(crate) const SEVERAL_SENDS: usize = 65;

pub(crate) const SENDS: usize = 66;

pub(crate) fn nothing() -> Counts {
    Counts { at: [0; 72] }
}

fn count(tally: Counts, k: usize) -> usize {
    if k < 72 {
        return tally.at[k];
    }
    0
}

fn put(tally: Counts, k: usize, n: usize) -> Counts {
    let mut next = tally;
    if k < 72 {
        next.at[k] = n;
    }
    next
}

pub(crate) fn add(tally: Counts, k: usize, n: usize) -> Counts {
    put(tally, k, plus(count(tally, k), n))
}

pub(crate) fn at_least(tally: Counts, k: usize, n: usize) -> Counts {
    let x = count(tally, k);
    put(tally, k, pick(x < n, n, x))
}

// One comparison of a group.
pub(crate) fn note(tally: Counts, group: usize, agrees: bool) -> Counts {
    add(tally, plus(plus(group, group), pick(agrees, 0, 1)), 1)
}

// Writes the byte, or for # the next count, which is number k; the number of the count after that.
fn show_byte(tally: Counts, k: usize, b: u8) -> usize {
    if b == b'#' {
        io::print_decimal(1, count(tally, k) as u64);
        return plus(k, 1);
    }
    let text = [b];
    io::write_all(1, &text);
    k
}

fn show_text(tally: Counts, from: usize, text: &[u8]) -> usize {
    let mut k = from;
    for i in 0..text.len() {
        k = show_byte(tally, k, get(text, i));
    }
    k
}

pub(crate) fn show(tally: Counts) {
    let pairs = show_text(
        tally,
        0,
        b"reading # #\nrefusals # #\norder # #\nclocks # #\nall races # #\nshort list # #\n",
    );
    let refused = show_text(
        tally,
        pairs,
        b"open pairs # #\ncovered pairs # #\nno race # #\nrefused traces # #\nrefusal 21 # #\nrefusal 22 # #\n",
    );
    let traces = show_text(
        tally,
        refused,
        b"refusal 23 # #\nrefusal 24 # #\nlent memory # #\n",
    );
    let damaged = show_text(tally, traces, b"traces #\ndamaged #\ndamaged, accepted #\n");
    let events = show_text(
        tally,
        damaged,
        b"damaged, refusals 1 to 10 # # # # # # # # # #\nevent actions #\nrecords #\n",
    );
    show_text(
        tally,
        events,
        b"joins #\nforks #\nordered pairs #\nmost chains #\nraces #\nshort list entries #\ncovers of several races #\nlongest cover #\n",
    );
    show_text(
        tally,
        54,
        b"slim traces # #\nslim trace records # #\nslim trace order # #\nslim trace open races # #\nrecords dropped #\nrefused by 31 #\n",
    );
    show_text(
        tally,
        FRAMES,
        b"traces of two frames #\naccepted, with several sends #\nsends #\n",
    );
}
