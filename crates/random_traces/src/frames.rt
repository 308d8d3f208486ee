// Traces written out as text, four characters a record: kind, event, target or cell, space. A kind is b (begin), e (end), j (join), r (read), w (write)
// or *: the character after the event then names a digit of a number x, which says what stands there.
use crate::draft::{Draft, byte};
use crate::slots::{fives, narrow};
use slices::get;
use trials::draft::put_record;
use trials::numbers::{pick, plus};

// The value of a digit's character; of any other one that comes before 0, 0.
fn value(c: u8) -> usize {
    if c < b'0' {
        return 0;
    }
    usize::from((c - b'0') as u16)
}

// Digits 0 and 1 are below 7, digits 2 and 3 below 5, digit 4 below 3: 3,675 numbers, or 1,225 without digit 4.
fn digit(x: usize, c: u8) -> usize {
    match c {
        b'0' => x % 7,
        b'1' => x / 7 % 7,
        b'2' => x / 49 % 5,
        b'3' => x / 245 % 5,
        _ => x / 1225 % 3,
    }
}

// 0 says a read of cell 1, 1 and 2 a send on link 0 or 1 to the next event, 3 and 4 to the one after it, 5 and 6 to the third.
fn kind_by(d: usize) -> u8 {
    byte(pick(d == 0, 5, plus(17, d) % 2 + 16))
}

fn second_by(event: usize, d: usize) -> usize {
    pick(d == 0, 1, plus(event, plus(d, 1) / 2))
}

fn kind_at(text: &[u8], at: usize, x: usize) -> u8 {
    match get(text, at) {
        b'b' => 1,
        b'e' => 2,
        b'j' => 4,
        b'r' => 5,
        b'w' => 6,
        _ => kind_by(digit(x, get(text, plus(at, 2)))),
    }
}

fn second_at(text: &[u8], at: usize, x: usize) -> usize {
    let c = get(text, plus(at, 2));
    let written = value(c);
    let event = value(get(text, plus(at, 1)));
    pick(
        get(text, at) == b'*',
        second_by(event, digit(x, c)),
        written,
    )
}

fn put_next(bytes: &mut [u8], text: &[u8], i: usize, x: usize) {
    let at = plus(plus(i, i), plus(i, i));
    let kind = kind_at(text, at, x);
    let first = narrow(value(get(text, plus(at, 1))));
    put_record(bytes, fives(i), kind, first, narrow(second_at(text, at, x)));
}

// Trace x of a frame of so many event actions, without its trailer.
pub(crate) fn put_frame(bytes: &mut [u8], text: &[u8], events: usize, x: usize) -> Draft {
    let n = text.len() / 4;
    for i in 0..n {
        put_next(bytes, text, i, x);
    }
    Draft {
        start: 0,
        end: fives(n),
        events: events,
        free: true,
    }
}
