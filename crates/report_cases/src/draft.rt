// Parts of traces put together in lent bytes: each function writes at a position and answers the next one.
use trials::draft::{put_record, put_trailer};

// begin, two records of one kind, end
pub(crate) fn put_action(bytes: &mut [u8], at: usize, e: u16, kind: u8, x: u16, y: u16) -> usize {
    let a = put_record(bytes, at, 1, e, 0);
    let b = put_record(bytes, a, kind, e, x);
    let c = put_record(bytes, b, kind, e, y);
    put_record(bytes, c, 2, e, 0)
}

// Event actions that only read, from that event to event 33.
pub(crate) fn put_unordered(bytes: &mut [u8], at: usize, from: u16) -> usize {
    let mut n = at;
    for e in from..=33 {
        n = put_action(bytes, n, e, 5, 1, 1);
    }
    n
}

// The trailer, for a trace that starts at that byte.
pub(crate) fn close(bytes: &mut [u8], start: usize, at: usize, begins: u16) -> usize {
    put_trailer(bytes, at, at.saturating_sub(start), begins)
}
