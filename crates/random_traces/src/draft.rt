// Traces put together by chance, each of them acceptable but for 31.
use crate::damage::between;
use crate::slots::{fives, narrow};
use records::access;
use trials::chance::roll;
use trials::draft::put_record;
use trials::numbers::{pick, plus};
use trials::recs::{is_kind, target_of};

// What a seed settles: how many event actions, at most how many body records each (less 1), how often it joins (of 8), forks, sends and writes (of 16),
// how many cells and links, how many sends go to any target (of 8; the others go no lower than the last one on their link, and 31 is for none of them), how
// many bytes of the job file stand before, and a mask for the numbers.
#[derive(Clone, Copy)]
pub(crate) struct Shape {
    pub seed: usize,
    pub events: usize,
    pub body: usize,
    pub joins: usize,
    pub forks: usize,
    pub sends: usize,
    pub writes: usize,
    pub cells: usize,
    pub links: usize,
    pub free: usize,
    pub before: usize,
    pub mask: usize,
}

// Where record 1 and the trailer start; may 31 be for one of the begins?
#[derive(Clone, Copy)]
pub(crate) struct Draft {
    pub start: usize,
    pub end: usize,
    pub events: usize,
    pub free: bool,
}

// An event action: its rank, from 0, where it starts, and how many joins and body records it has.
#[derive(Clone, Copy)]
struct Action {
    j: usize,
    from: usize,
    joins: usize,
    body: usize,
}

// Most traces are small, some have up to 24 event actions.
fn shape_of(seed: usize) -> Shape {
    Shape {
        seed: seed,
        events: roll(seed, 0, 1, plus(1, roll(seed, 0, 3, roll(seed, 0, 4, 26)))),
        body: plus(2, roll(seed, 0, 2, 5)),
        joins: roll(seed, 0, 11, 6),
        forks: roll(seed, 0, 12, 7),
        sends: 0,
        writes: plus(4, roll(seed, 0, 13, 9)),
        cells: plus(1, roll(seed, 0, 14, 6)),
        links: 0,
        free: 0,
        before: roll(seed, 0, 9, 12),
        mask: roll(seed, 0, 8, 1024),
    }
}

// Sends on up to four links, and numbers up to 16; half of these traces send to any target.
fn sending_shape(seed: usize) -> Shape {
    let mut s = shape_of(seed);
    s.events = plus(2, roll(seed, 0, 41, 11));
    s.body = plus(2, roll(seed, 0, 42, 6));
    s.sends = plus(4, roll(seed, 0, 43, 9));
    s.links = plus(1, roll(seed, 0, 44, 4));
    s.free = pick(seed % 2 == 0, plus(1, roll(seed, 0, 45, 4)), 0);
    s.mask = roll(seed, 0, 46, 16);
    s
}

// Few cells and many accesses in each event action, most of them reads.
fn repeating_shape(seed: usize) -> Shape {
    Shape {
        seed: seed,
        events: plus(2, roll(seed, 0, 31, 5)),
        body: plus(4, roll(seed, 0, 32, 11)),
        joins: roll(seed, 0, 33, 4),
        forks: roll(seed, 0, 34, 4),
        sends: 0,
        writes: plus(1, roll(seed, 0, 35, 6)),
        cells: plus(1, roll(seed, 0, 36, 3)),
        links: 0,
        free: 0,
        before: roll(seed, 0, 37, 12),
        mask: roll(seed, 0, 38, 1024),
    }
}

// The number, 1 to 1,024, of event action or cell j.
fn number(s: Shape, j: usize) -> u16 {
    narrow(1 + (j ^ s.mask) % 1024)
}

pub(crate) fn byte(x: usize) -> u8 {
    (x % 256) as u8
}

fn join_count(s: Shape, at: usize, j: usize) -> usize {
    let joins = roll(s.seed, at, 17, 8) < s.joins;
    pick(joins & (0 < j), plus(1, roll(s.seed, at, 18, 3)), 0)
}

fn action_at(s: Shape, from: usize, j: usize) -> Action {
    let joins = join_count(s, from, j);
    Action {
        j: j,
        from: from,
        joins: joins,
        body: roll(s.seed, plus(from, fives(plus(joins, 1))), 23, s.body),
    }
}

// One that hasn't begun: a later one, or one of two that never begin.
fn not_begun(s: Shape, at: usize, j: usize) -> usize {
    if s.events < j {
        return s.events;
    }
    let left = roll(s.seed, at, 19, plus(s.events - j, 1));
    plus(plus(j, 1), left)
}

// A fork, a send, a read or a write.
fn body_kind(s: Shape, at: usize) -> u8 {
    if roll(s.seed, at, 20, 16) < s.forks {
        return 3;
    }
    if roll(s.seed, at, 24, 16) < s.sends {
        return byte(plus(16, roll(s.seed, at, 25, s.links)));
    }
    if roll(s.seed, at, 22, 16) < s.writes {
        return 6;
    }
    5
}

// The kind of record r of an event action, from 0.
fn kind_of(s: Shape, x: Action, at: usize, r: usize) -> u8 {
    if r < x.joins {
        return 4;
    }
    if r == x.joins {
        return 1;
    }
    if r <= plus(x.joins, x.body) {
        return body_kind(s, at);
    }
    2
}

// The rank, from 0, of an event number.
fn rank(s: Shape, event: usize) -> usize {
    (plus(event, 1023) % 1024) ^ s.mask
}

// The highest rank of a target of that kind of send, from `lowest` on.
fn highest(recs: &[u8], s: Shape, kind: u8, lowest: usize) -> usize {
    let n = access::count(recs);
    let mut most = lowest;
    for i in 0..n {
        let t = rank(s, target_of(recs, i));
        most = pick(is_kind(recs, i, kind) & (most < t), t, most);
    }
    most
}

// The target of a send of event action j.
fn target(bytes: &[u8], s: Shape, at: usize, kind: u8, j: usize) -> usize {
    let any = not_begun(s, at, j);
    let recs = access::records_from(bytes, s.before, between(s.before, at) / 5);
    let next = plus(highest(recs, s, kind, plus(j, 1)), roll(s.seed, at, 26, 3));
    let last = plus(s.events, 1);
    pick(
        roll(s.seed, at, 27, 8) < s.free,
        any,
        pick(next < last, next, last),
    )
}

// The second of a record of that kind.
fn second_of(bytes: &[u8], s: Shape, x: Action, at: usize, kind: u8) -> u16 {
    match kind {
        1 | 2 => 0,
        3 => number(s, not_begun(s, at, x.j)),
        4 => number(s, roll(s.seed, at, 16, x.j)),
        5 | 6 => number(s, roll(s.seed, at, 21, s.cells)),
        _ => number(s, target(bytes, s, at, kind, x.j)),
    }
}

fn put_action(bytes: &mut [u8], s: Shape, x: Action) -> usize {
    let n = plus(plus(x.joins, x.body), 2);
    let mut at = x.from;
    for r in 0..n {
        let kind = kind_of(s, x, at, r);
        let second = second_of(bytes, s, x, at, kind);
        at = put_record(bytes, at, kind, number(s, x.j), second);
    }
    at
}

fn put_actions(bytes: &mut [u8], s: Shape) -> usize {
    let n = s.events;
    let mut at = s.before;
    for j in 0..n {
        at = put_action(bytes, s, action_at(s, at, j));
    }
    at
}

// The trace of a shape, without its trailer.
fn put_shape(bytes: &mut [u8], s: Shape) -> Draft {
    let end = put_actions(bytes, s);
    Draft {
        start: s.before,
        end: end,
        events: s.events,
        free: 0 < s.free,
    }
}

// The first 2,000 seeds have no sends.
pub(crate) fn put_trace(bytes: &mut [u8], seed: usize) -> Draft {
    if seed < 2000 {
        return put_shape(bytes, shape_of(seed));
    }
    put_shape(bytes, sending_shape(seed))
}

pub(crate) fn put_repeating(bytes: &mut [u8], seed: usize) -> Draft {
    put_shape(bytes, repeating_shape(seed))
}
