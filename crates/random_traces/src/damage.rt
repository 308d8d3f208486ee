// A trace with one thing changed, or nothing.
use crate::draft::{Draft, byte};
use crate::slots::{NOWHERE, fives};
use slices::{get, put};
use trials::chance::roll;
use trials::draft::put_trailer;
use trials::numbers::{pick, plus};

// Where the trailer is put, which record is written over which, where a byte is put and which, and how long the trace is.
#[derive(Clone, Copy)]
struct Change {
    end: usize,
    p: usize,
    q: usize,
    at: usize,
    byte: u8,
    length: usize,
}

// What is between the two, 0 if they stand the other way round.
pub(crate) fn between(start: usize, end: usize) -> usize {
    if start <= end {
        return end - start;
    }
    0
}

// Where one of the records starts.
fn some_record(d: Draft, seed: usize, purpose: usize) -> usize {
    let i = roll(seed, d.end, purpose, between(d.start, d.end) / 5);
    plus(d.start, fives(i))
}

// Where a byte is put.
fn place(d: Draft, seed: usize, way: usize) -> usize {
    let p = some_record(d, seed, 31);
    match way {
        3 => roll(seed, d.end, 33, plus(d.end, 8)),
        4 => plus(d.end, roll(seed, d.end, 35, 8)),
        5 => plus(p, 1),
        6 => plus(p, 3),
        8 => p,
        _ => NOWHERE,
    }
}

// A byte put there is below this; a kind may be that of a send.
fn most_of(way: usize) -> usize {
    match way {
        3 => 256,
        8 => 24,
        _ => 8,
    }
}

// The ways: 0 cuts the bytes short, 1 leaves the last records out, 2 repeats a record over the next, 7 over any, 9 changes nothing; the others put a byte.
fn choose(d: Draft, seed: usize, way: usize) -> Change {
    let end = pick(way == 1, some_record(d, seed, 30), d.end);
    let p = some_record(d, seed, 39);
    let q = pick(way == 7, some_record(d, seed, 41), p);
    Change {
        end: end,
        p: p,
        q: pick(way == 2, plus(p, 5), q),
        at: place(d, seed, way),
        byte: byte(roll(seed, d.end, 32, most_of(way))),
        length: pick(way == 0, roll(seed, d.end, 38, plus(end, 8)), plus(end, 8)),
    }
}

// Writes record p over record q.
fn repeat(bytes: &mut [u8], p: usize, q: usize) {
    for i in 0..5 {
        let b = get(bytes, plus(p, i));
        put(bytes, plus(q, i), b);
    }
}

// Puts the trailer, changes the trace, and gives its length. A whole trace is not changed.
pub(crate) fn put_end(bytes: &mut [u8], d: Draft, whole: bool, seed: usize) -> usize {
    let x = choose(d, seed, pick(whole, 9, roll(seed, d.end, 37, 9)));
    let distance = between(d.start, x.end) % 65536;
    put_trailer(bytes, x.end, distance, (d.events % 65536) as u16);
    repeat(bytes, x.p, x.q);
    put(bytes, x.at, x.byte);
    x.length
}
