// The pair question against all arrangements, of every race of two samples. A line has the pair and its mark; of an open one the entries given (event,
// last record kept) and how many records they stand for; how many arrangements run the second access without the first; and of these how many lack a
// kept record, the records of the shortest, and how many run just the kept records in trace order.
#![tactic(auto)]

mod arrangements;
mod paths;
mod slots;

use pair::Verdict;
use records::{Operation, access};
use slices::get;
use slots::{has_all, size};
use std::fs;
use trials::line::{number, numbers, word};
use trials::numbers::{pick, plus};
use trials::recs::event_of;
use trials::sets::{bit, is_in};

// Does the entry stand for record i: "its event's records, joins included, up to that one"?
fn stands_for(recs: &[u8], list: &[u16], entry: usize, i: usize) -> bool {
    let event = usize::from(get(list, plus(entry, entry)));
    let last = usize::from(get(list, plus(plus(entry, entry), 1)));
    (event_of(recs, i) == event) & (i < last)
}

// The records for which the first k entries stand, k at most 8.
fn kept_records(recs: &[u8], list: &[u16], k: usize) -> usize {
    let mut set = 0;
    for x in 0..512 {
        if (x / 64 < k) & stands_for(recs, list, x / 64, x % 64) {
            set = set | bit(x % 64);
        }
    }
    set
}

// What is counted of the arrangements that run b without a.
#[derive(Clone, Copy)]
struct Tally {
    all: usize,
    lacking: usize,
    fewest: usize,
    alike: usize,
}

fn count_one(t: Tally, run: usize, kept: usize) -> Tally {
    Tally {
        all: plus(t.all, 1),
        lacking: plus(t.lacking, pick(has_all(run, kept), 0, 1)),
        fewest: pick(size(run) < t.fewest, size(run), t.fewest),
        alike: plus(t.alike, pick(run == kept, 1, 0)),
    }
}

fn count_all(table: &[usize], found: usize, a: usize, b: usize, kept: usize) -> Tally {
    let mut t = Tally {
        all: 0,
        lacking: 0,
        fewest: 64,
        alike: 0,
    };
    for r in 0..found {
        let run = arrangements::arrangement(table, r);
        if is_in(run, b) & !is_in(run, a) {
            t = count_one(t, run, kept);
        }
    }
    t
}

fn show_open(
    recs: &[u8],
    table: &[usize],
    found: usize,
    a: usize,
    b: usize,
    list: &[u16],
    k: usize,
) {
    let kept = kept_records(recs, list, k);
    let t = count_all(table, found, a, b, kept);
    word(b" open |");
    numbers(list, plus(k, k));
    word(b" | records");
    number(size(kept));
    word(b" arrangements");
    number(t.all);
    word(b" lacking");
    number(t.lacking);
    word(b" fewest");
    number(t.fewest);
    word(b" alike");
    number(t.alike);
}

fn show_covered(table: &[usize], found: usize, a: usize, b: usize) {
    let t = count_all(table, found, a, b, 0);
    word(b" covered | arrangements");
    number(t.all);
}

fn operation(i: usize) -> Operation {
    if i < 60 {
        return Operation((i + 1) as u16);
    }
    Operation(0)
}

fn ask(bytes: &[u8], recs: &[u8], table: &[usize], found: usize, a: usize, b: usize) {
    let mut clocks = [0u16; 64];
    let mut work = [0u8; 8];
    let mut list = [0u16; 16];
    word(b"pair");
    number(plus(a, 1));
    number(plus(b, 1));
    match pair::ask_pair(
        bytes,
        8,
        &mut clocks,
        &mut work,
        &mut list,
        operation(a),
        operation(b),
    ) {
        Ok(Verdict::Open(k)) => show_open(recs, table, found, a, b, &list, k),
        Ok(Verdict::Covered(_)) => show_covered(table, found, a, b),
        Err(_) => word(b" refused"),
    }
    word(b"\n");
}

// Every race, ordered by second record, then first.
fn ask_each(bytes: &[u8], recs: &[u8], table: &[usize], found: usize) {
    for x in 0..4096 {
        if is_in(paths::races(table, x / 64), x % 64) {
            ask(bytes, recs, table, found, x % 64, x / 64);
        }
    }
}

fn each_pair(bytes: &[u8]) {
    let Ok(t) = trace::read(bytes) else {
        word(b"refused\n");
        return;
    };
    let recs = access::records(bytes, t);
    let mut table = paths::table_space();
    paths::find_paths(recs, &mut table);
    paths::find_before(recs, &mut table);
    paths::find_races(recs, &mut table);
    let found = arrangements::find(recs, &mut table);
    word(b"arrangements");
    number(found);
    word(b"\n");
    ask_each(bytes, recs, &table, found);
}

fn sample(rt: &HostRuntime, name: &str) -> std::io::Result<()> {
    word(name.as_bytes());
    word(b"\n");
    let bytes = fs::read(rt, name)?;
    each_pair(&bytes);
    Ok(())
}

fn main(rt: HostRuntime) -> std::io::Result<()> {
    sample(&rt, "t.trace")?;
    sample(&rt, "two-observations.trace")
}
