// Steps at random. Each step taken is also logged apart; for each one refused with 4 to 8 or 31 the reader is given the same records with the refused
// one at the end.
use crate::{raw, say};
use recorder::Recorder;
use records::Record;
use trace::{Reason, Refusal};

#[derive(Clone, Copy)]
struct Totals {
    recorder: Recorder,
    seed: u64,
    taken: u64,
    refused: u64,
    alike: u64,
    behind: u64,
}

fn following(seed: u64) -> u64 {
    (seed % 65537 * 75 + 74) % 65537
}

// Kinds 0 to 7, and the four sends.
fn kind_of(k: u64) -> u8 {
    match k {
        0 => 0,
        1 => 1,
        2 => 2,
        3 => 3,
        4 => 4,
        5 => 5,
        6 => 6,
        7 => 7,
        8 => 16,
        9 => 17,
        10 => 18,
        _ => 19,
    }
}

// A record of such a kind, mostly for the recorder's own event, among a few events and cells.
fn draw(seed: u64, r: Recorder) -> Record {
    let owner = r.owner;
    let mut first = owner.0;
    if seed / 12 % 4 == 0 {
        first = (seed / 48 % 40) as u16;
    }
    if r.situation == 0 {
        first = (seed / 48 % 40) as u16;
    }
    let mut second = (seed / 1920 % 40) as u16;
    let kind = kind_of(seed % 12);
    if kind < 3 {
        second = (seed / 1920 % 40 / 33) as u16;
    }
    Record {
        kind: kind,
        first: first,
        second: second,
    }
}

// Does the reader refuse the record after the first n, by the same number and place?
fn reader_agrees(bytes: &mut [u8], n: u16, rec: Record, f: Refusal) -> bool {
    if n == 65535 {
        return false;
    }
    raw::put(bytes, n, rec);
    raw::close(bytes, n + 1);
    let end = 5 * (n as usize) + 13;
    match trace::read(raw::front(bytes, end)) {
        Ok(_) => false,
        Err(g) => f == g,
    }
}

fn turn(bytes: &mut [u8], log: &mut [u8], t: Totals) -> Totals {
    let r = t.recorder;
    let seed = following(t.seed);
    let rec = draw(seed, r);
    let next = recorder::step_on(bytes, r, rec);
    let after = next.recorder;
    let answer = next.answer;
    let mut taken = t.taken;
    let mut refused = t.refused;
    let mut alike = t.alike;
    let mut behind = t.behind;
    match answer {
        Ok(()) => {
            raw::put(log, r.count, rec);
            taken = std::num::wrapping_add_u64(taken, 1);
        }
        Err(f) => {
            refused = std::num::wrapping_add_u64(refused, 1);
            if reader_agrees(bytes, r.count, rec, f) {
                alike = std::num::wrapping_add_u64(alike, 1);
            }
            if f.reason == Reason::Behind {
                behind = std::num::wrapping_add_u64(behind, 1);
            }
        }
    }
    Totals {
        recorder: after,
        seed: seed,
        taken: taken,
        refused: refused,
        alike: alike,
        behind: behind,
    }
}

fn turns(bytes: &mut [u8], log: &mut [u8], start: Totals) -> Totals {
    let mut t = start;
    for i in 0..400 {
        t = turn(bytes, log, t);
    }
    t
}

// In that situation, a step of that kind for the recorder's own event, also logged.
fn logged(bytes: &mut [u8], log: &mut [u8], r: Recorder, situation: u8, kind: u8) -> Recorder {
    if r.situation != situation {
        return r;
    }
    let owner = r.owner;
    let rec = Record {
        kind: kind,
        first: owner.0,
        second: 0,
    };
    raw::put(log, r.count, rec);
    let next = recorder::step_on(bytes, r, rec);
    next.recorder
}

fn read_back(bytes: &[u8], log: &[u8], r: Recorder, a: Result<usize, Refusal>) {
    let Ok(n) = a else {
        say::line();
        return;
    };
    let reading = trace::read(raw::front(bytes, n));
    say::reading(reading);
    say::count(b" same ", raw::same(bytes, log, 5 * (r.count as usize)));
    say::line();
}

// Steps at random from an opening on, and then what the open event action lacks.
fn recorded(bytes: &mut [u8], log: &mut [u8], seed: u64) -> Totals {
    let opened = recorder::open_on(bytes);
    let first = opened.recorder;
    let start = Totals {
        recorder: first,
        seed: seed,
        taken: 0,
        refused: 0,
        alike: 0,
        behind: 0,
    };
    let mut t = turns(bytes, log, start);
    let last = t.recorder;
    let begun = logged(bytes, log, last, 1, 1);
    let ended = logged(bytes, log, begun, 2, 2);
    t.recorder = ended;
    t
}

fn say_totals(t: Totals, a: Result<usize, Refusal>) {
    say::count(b"taken ", t.taken);
    say::count(b" refused ", t.refused);
    say::count(b" alike ", t.alike);
    say::count(b" behind ", t.behind);
    say::closing(a);
}

fn run(bytes: &mut [u8], log: &mut [u8], seed: u64) {
    let t = recorded(bytes, log, seed);
    let r = t.recorder;
    let ended = recorder::close_on(bytes, r);
    let answer = ended.answer;
    say_totals(t, answer);
    read_back(bytes, log, r, answer);
}

pub(crate) fn all(bytes: &mut [u8], log: &mut [u8]) {
    for seed in 0..40 {
        run(bytes, log, seed);
    }
}
