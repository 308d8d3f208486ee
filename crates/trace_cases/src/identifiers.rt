// Identifiers 0, 1, 1,024 and 1,025 in the first and in the second of each of the six kinds and the four kinds of sends.
ghost use Rattle.std.specs.Prelude.{◌≤◌};

use crate::draft::close_and_read;
use crate::expect::agrees;
use records::Trace;
use trace::Refusal;
use trials::draft::put_record;

fn value(choice: usize) -> u16 {
    match choice {
        0 => 0,
        1 => 1,
        2 => 1024,
        _ => 1025,
    }
}

// "identifiers 1 and 1,024 pass, 0 and 1,025 give 5"; the second of a begin or an end is 0.
fn passes(kind: u8, second: bool, choice: usize) -> bool {
    if second && kind < 3 {
        return choice == 0;
    }
    choice == 1 || choice == 2
}

// An event number that passes: x, or another where x doesn't.
fn event_like(x: u16, other: u16) -> u16 {
    match x {
        1..=1024 => x,
        _ => other,
    }
}

// A trace in which the record has its place: inside event action x, as its begin or end, or as a join that waits for y.
fn put_around(bytes: &mut [u8], kind: u8, x: u16, y: u16) -> usize {
    let event = event_like(x, 2);
    let waited = event_like(y, 3);
    if kind == 1 {
        let n = put_record(bytes, 0, 1, x, y);
        return put_record(bytes, n, 2, event, 0);
    }
    if kind == 2 {
        let n = put_record(bytes, 0, 1, event, 0);
        return put_record(bytes, n, 2, x, y);
    }
    if kind == 4 {
        let a = put_record(bytes, 0, 1, waited, 0);
        let b = put_record(bytes, a, 2, waited, 0);
        let c = put_record(bytes, b, 4, x, y);
        let d = put_record(bytes, c, 1, event, 0);
        return put_record(bytes, d, 2, event, 0);
    }
    let a = put_record(bytes, 0, 1, event, 0);
    let b = put_record(bytes, a, kind, x, y);
    put_record(bytes, b, 2, event, 0)
}

// The number of the record under test, and how many records and event actions its trace has.
#[derive(Clone, Copy)]
struct Shape {
    place: u16,
    records: usize,
    events: u16,
}

fn shape_of(kind: u8) -> Shape {
    match kind {
        1 => Shape {
            place: 1,
            records: 2,
            events: 1,
        },
        2 => Shape {
            place: 2,
            records: 2,
            events: 1,
        },
        4 => Shape {
            place: 3,
            records: 5,
            events: 2,
        },
        _ => Shape {
            place: 2,
            records: 3,
            events: 1,
        },
    }
}

fn case(kind: u8, second: bool, choice: usize) -> Result<Trace, Refusal> {
    let mut space = [0u8; 40];
    let bytes: &mut [u8] = &mut space;
    let v = value(choice);
    let s = shape_of(kind);
    if second {
        let n = put_around(bytes, kind, 2, v);
        return close_and_read(bytes, n, s.events);
    }
    let mut y = 3;
    if kind < 3 {
        y = 0;
    }
    let n = put_around(bytes, kind, v, y);
    close_and_read(bytes, n, s.events)
}

// The kinds one after the other.
fn kind_of(k: usize) -> u8 {
    match k {
        0 => 1,
        1 => 2,
        2 => 3,
        3 => 4,
        4 => 5,
        5 => 6,
        6 => 16,
        7 => 17,
        8 => 18,
        _ => 19,
    }
}

// Case i of 80.
pub(crate) fn agrees_at(i: usize) -> usize
    ensures { result ≤ 1 }
{
    let kind = kind_of(i / 8);
    let second = i / 4 % 2 == 1;
    let choice = i % 4;
    let s = shape_of(kind);
    let mut number = 5;
    if passes(kind, second, choice) {
        number = 0;
    }
    agrees(
        case(kind, second, choice),
        number,
        s.place,
        s.records,
        s.events as usize,
    )
}
