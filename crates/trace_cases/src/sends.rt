// Sends and refusal 31: "for an event that a link puts behind another target not yet begun".
use crate::draft::close_and_read;
use crate::show::reading;
use records::Trace;
use trace::Refusal;
use trials::draft::put_record;
use trials::line::{line_end, word};

fn space() -> [u8; 80] {
    [0; 80]
}

// begin and end of an event, or nothing for event 0
fn put_event(bytes: &mut [u8], at: usize, e: u16) -> usize {
    if e == 0 {
        return at;
    }
    let n = put_record(bytes, at, 1, e, 0);
    put_record(bytes, n, 2, e, 0)
}

// begin 1, and its sends to 2 and to 3 by those kinds
fn put_sends(bytes: &mut [u8], first: u8, second: u8) -> usize {
    let a = put_record(bytes, 0, 1, 1, 0);
    let b = put_record(bytes, a, first, 1, 2);
    put_record(bytes, b, second, 1, 3)
}

// 1 sends to 2 and to 3; then two events begin and end.
fn pair(first: u8, second: u8, x: u16, y: u16, begins: u16) -> Result<Trace, Refusal> {
    let mut bytes = space();
    let a = put_sends(&mut bytes, first, second);
    let b = put_record(&mut bytes, a, 2, 1, 0);
    let c = put_event(&mut bytes, b, x);
    let d = put_event(&mut bytes, c, y);
    close_and_read(&mut bytes, d, begins)
}

// 1 sends to 2, to 3 and to 2 on one link; then an event begins and ends.
fn twice(e: u16) -> Result<Trace, Refusal> {
    let mut bytes = space();
    let a = put_sends(&mut bytes, 17, 17);
    let b = put_record(&mut bytes, a, 17, 1, 2);
    let c = put_record(&mut bytes, b, 2, 1, 0);
    let d = put_event(&mut bytes, c, e);
    close_and_read(&mut bytes, d, 2)
}

// On one link 2 and 3 begin in the order of the sends; 3 not before 2, on two links it may; where 2 never begins, 3 never does; none begins. Then the
// sends to 2, 3 and 2, after which neither may.
pub(crate) fn alone() {
    word(b"sends");
    reading(pair(16, 16, 2, 3, 3));
    reading(pair(19, 19, 3, 2, 3));
    reading(pair(16, 19, 3, 2, 3));
    reading(pair(18, 18, 2, 0, 2));
    reading(pair(18, 18, 3, 0, 2));
    reading(pair(18, 18, 0, 0, 1));
    reading(twice(2));
    reading(twice(3));
    line_end();
}

// After the sends to 2 and to 3, where 1 has ended or not: a record, and perhaps another one.
fn then(ended: bool, kind: u8, first: u16, second: u16, more: u8) -> Result<Trace, Refusal> {
    let mut room = space();
    let bytes: &mut [u8] = &mut room;
    let mut n = put_sends(bytes, 16, 16);
    if ended {
        n = put_record(bytes, n, 2, 1, 0);
    }
    n = put_record(bytes, n, kind, first, second);
    if 0 < more {
        n = put_record(bytes, n, more, first, 1);
    }
    close_and_read(bytes, n, 2)
}

// A begin of 3, which 31 refuses: 5 and 6 stand before it on that record, as 4 does for another kind there; it stands before 9 and 10 and before the
// refusals of later records. A refusal of an earlier record stands before it. Then 7: a begin of 1 again, and a send to 1, which has begun.
pub(crate) fn order() {
    word(b"behind");
    reading(then(true, 1, 3, 0, 0));
    reading(then(true, 20, 3, 0, 0));
    reading(then(true, 1, 3, 1, 0));
    reading(then(false, 1, 3, 0, 0));
    reading(then(true, 1, 3, 0, 7));
    reading(then(true, 1, 3, 0, 3));
    reading(then(true, 15, 3, 0, 1));
    reading(then(true, 1, 1, 0, 0));
    reading(then(false, 19, 1, 1, 0));
    line_end();
}

// 1 sends to 2, and starts 4 or not; 4 sends to 3 on the same link. Then 3 begins, before 2.
fn through(kind: u8) -> Result<Trace, Refusal> {
    let mut bytes = space();
    let a = put_record(&mut bytes, 0, 1, 1, 0);
    let b = put_record(&mut bytes, a, 16, 1, 2);
    let c = put_record(&mut bytes, b, kind, 1, 4);
    let d = put_record(&mut bytes, c, 2, 1, 0);
    let e = put_record(&mut bytes, d, 1, 4, 0);
    let f = put_record(&mut bytes, e, 16, 4, 3);
    let g = put_record(&mut bytes, f, 2, 4, 0);
    let h = put_event(&mut bytes, g, 3);
    close_and_read(&mut bytes, h, 3)
}

// The senders are ordered by a fork, or by a send; by a read they are not. A send on the link itself: 4 comes behind 2.
pub(crate) fn senders() {
    word(b"senders");
    reading(through(3));
    reading(through(17));
    reading(through(5));
    reading(through(16));
    line_end();
}
