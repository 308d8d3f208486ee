// Traces put together by chance: event actions in begin order, each with joins of earlier ones, and forks and sends to later ones or to two that never
// begin. Acceptable but for 31.
use crate::draft::put_record;
use records::access;
use trials::chance::roll;
use trials::numbers::{pick, plus};

// What a seed settles: how many event actions, at most how many forks and sends each (less 1), how often it joins, forks and sends to any target (of 8),
// how many links, and a mask for the numbers. Other sends go no lower than the last target on their link.
#[derive(Clone, Copy)]
pub(crate) struct Shape {
    pub seed: usize,
    pub events: usize,
    pub body: usize,
    pub joins: usize,
    pub forks: usize,
    pub free: usize,
    pub links: usize,
    pub mask: usize,
}

// An event action: its rank, from 0, the position of its first record, and how many joins and body records it has.
#[derive(Clone, Copy)]
struct Action {
    j: usize,
    from: usize,
    joins: usize,
    body: usize,
}

pub(crate) fn shape_of(seed: usize) -> Shape {
    Shape {
        seed: seed,
        events: plus(3, roll(seed, 0, 1, 10)),
        body: plus(3, roll(seed, 0, 2, 3)),
        joins: roll(seed, 0, 3, 7),
        forks: roll(seed, 0, 4, 4),
        free: pick(roll(seed, 0, 5, 2) == 0, roll(seed, 0, 6, 9), 0),
        links: plus(1, roll(seed, 0, 7, 4)),
        mask: roll(seed, 0, 8, 16),
    }
}

fn byte(x: usize) -> u8 {
    (x % 256) as u8
}

// The number, 1 to 16, of the event of rank j.
fn number(s: Shape, j: usize) -> u8 {
    byte(plus(1, (j ^ s.mask) % 16))
}

fn rank(s: Shape, e: usize) -> usize {
    (plus(e, 15) % 16) ^ s.mask
}

fn action_at(s: Shape, from: usize, j: usize) -> Action {
    let joins = (roll(s.seed, from, 9, 8) < s.joins) & (0 < j);
    Action {
        j: j,
        from: from,
        joins: pick(joins, plus(1, roll(s.seed, from, 10, 2)), 0),
        body: roll(s.seed, from, 11, s.body),
    }
}

fn body_kind(s: Shape, at: usize) -> u8 {
    if roll(s.seed, at, 12, 8) < s.forks {
        return 3;
    }
    byte(plus(16, roll(s.seed, at, 13, s.links)))
}

// The kind of record r of an event action, from 0.
fn kind_of(s: Shape, x: Action, at: usize, r: usize) -> u8 {
    if r < x.joins {
        return 4;
    }
    if r == x.joins {
        return 1;
    }
    if r <= plus(x.joins, x.body) {
        return body_kind(s, at);
    }
    2
}

// The highest rank of a target of that kind, from `lowest` on.
fn highest(bytes: &[u8], s: Shape, n: usize, kind: u8, lowest: usize) -> usize {
    let mut most = lowest;
    for i in 0..n {
        let t = rank(s, usize::from(access::target_at(bytes, i).0));
        if (access::kind_at(bytes, i) == kind) & (most < t) {
            most = t;
        }
    }
    most
}

fn least(a: usize, b: usize) -> usize {
    pick(a < b, a, b)
}

// Any that has not begun.
fn any_target(s: Shape, j: usize, at: usize) -> usize {
    least(
        plus(plus(j, 1), roll(s.seed, at, 14, s.events)),
        plus(s.events, 1),
    )
}

fn target(bytes: &[u8], s: Shape, j: usize, at: usize, kind: u8) -> usize {
    let free = (kind == 3) | (roll(s.seed, at, 15, 8) < s.free);
    let last = highest(bytes, s, at, kind, plus(j, 1));
    let next = least(plus(last, roll(s.seed, at, 16, 3)), plus(s.events, 1));
    pick(free, any_target(s, j, at), next)
}

fn second_of(bytes: &[u8], s: Shape, x: Action, at: usize, kind: u8) -> u8 {
    match kind {
        1 | 2 => 0,
        4 => number(s, roll(s.seed, at, 17, x.j)),
        _ => number(s, target(bytes, s, x.j, at, kind)),
    }
}

fn put_action(bytes: &mut [u8], s: Shape, x: Action) -> usize {
    let n = plus(plus(x.joins, x.body), 2);
    let mut at = x.from;
    for r in 0..n {
        let kind = kind_of(s, x, at, r);
        let second = second_of(bytes, s, x, at, kind);
        put_record(bytes, at, kind, number(s, x.j), second);
        at = plus(at, 1);
    }
    at
}

// How many records the trace has, at most 96.
pub(crate) fn put_trace(bytes: &mut [u8], s: Shape) -> usize {
    let n = s.events;
    let mut at = 0;
    for j in 0..n {
        at = put_action(bytes, s, action_at(s, at, j));
    }
    at
}
