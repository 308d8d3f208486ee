// Records written out as text, four characters each: kind, event, target, space. A kind is b (begin), e (end), f (fork), j (join), 0 to 3 (send on that
// link) or *: the target's character then names a digit of a number x, which says what stands there.
use slices::{get, put};
use trials::numbers::{pick, plus};

// Bytes for 128 records.
pub(crate) fn space() -> [u8; 640] {
    [0; 640]
}

// Record i; events and cells below 256.
pub(crate) fn put_record(bytes: &mut [u8], i: usize, kind: u8, first: u8, second: u8) {
    if 128 <= i {
        return;
    }
    put(bytes, 5 * i, kind);
    put(bytes, 5 * i + 1, first);
    put(bytes, 5 * i + 3, second);
}

// The value of a digit's character; of any other 0.
fn value(c: u8) -> u8 {
    if c < b'0' {
        return 0;
    }
    if b'9' < c {
        return 0;
    }
    c - b'0'
}

// Digits 0 and 1 are below 10, digits 2 and 3 below 7, digit 4 below 4: 19,600 numbers, or 4,900 without digit 4.
fn digit(x: usize, c: u8) -> usize {
    match c {
        b'0' => x % 10,
        b'1' => x / 10 % 10,
        b'2' => x / 100 % 7,
        b'3' => x / 700 % 7,
        _ => x / 4900 % 4,
    }
}

// What a digit says: a read, or a fork or a send on link 0 or 1.
fn kind_by(d: usize) -> u8 {
    match d {
        0 => 5,
        1 | 4 | 7 => 16,
        2 | 5 | 8 => 17,
        _ => 3,
    }
}

// How far after the sender the target stands; a read has a cell instead.
fn further(d: usize) -> u8 {
    match d {
        0 | 1 | 2 | 3 => 1,
        4 | 5 | 6 => 2,
        _ => 3,
    }
}

fn kind_at(text: &[u8], at: usize, x: usize) -> u8 {
    let c = get(text, at);
    match c {
        b'b' => 1,
        b'e' => 2,
        b'f' => 3,
        b'j' => 4,
        b'*' => kind_by(digit(x, get(text, plus(at, 2)))),
        b'0' => 16,
        b'1' => 17,
        b'2' => 18,
        _ => 19,
    }
}

fn second_at(text: &[u8], at: usize, x: usize) -> u8 {
    let c = get(text, plus(at, 2));
    if get(text, at) == b'*' {
        return value(get(text, plus(at, 1))) % 16 + further(digit(x, c)) % 4;
    }
    value(c)
}

fn put_next(bytes: &mut [u8], text: &[u8], at: usize, x: usize) {
    if text.len() <= at {
        return;
    }
    put_record(
        bytes,
        at / 4,
        kind_at(text, at, x),
        value(get(text, plus(at, 1))),
        second_at(text, at, x),
    );
}

// How many records a text has, at most 128.
pub(crate) fn count(text: &[u8]) -> usize {
    pick(text.len() / 4 < 128, text.len() / 4, 128)
}

pub(crate) fn put_text(bytes: &mut [u8], text: &[u8], x: usize) {
    for at in (0..512).step_by(4) {
        put_next(bytes, text, at, x);
    }
}
