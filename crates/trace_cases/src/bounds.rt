// The longest trace, and the distances about it.
use crate::draft::{close_and_read, read_first};
use crate::show::reading;
use trials::draft::{put_record, put_trailer};
use trials::line::{line_end, number, word};

// Bytes for 4,096 records, another one, and the trailer.
fn space() -> [u8; 20493] {
    [0; 20493]
}

// The trailer after as many zeros.
fn after_zeros(zeros: usize, distance: usize) {
    let mut bytes = space();
    let n = put_trailer(&mut bytes, zeros, distance, 0);
    number(distance);
    reading(read_first(&bytes, n));
}

// Where the distance passes and is not 0, record 1 is zeros: refusal 4.
pub(crate) fn distances() {
    word(b"distances");
    after_zeros(20485, 0);
    after_zeros(20485, 4);
    after_zeros(20485, 5);
    after_zeros(20485, 20480);
    after_zeros(20485, 20485);
    after_zeros(20480, 20480);
    after_zeros(20475, 20480);
    after_zeros(0, 5);
    after_zeros(20485, 65540);
    after_zeros(20485, 16777220);
    line_end();
}

// begin, write, read, end
fn put_event(bytes: &mut [u8], at: usize, e: u16) -> usize {
    let a = put_record(bytes, at, 1, e, 0);
    let b = put_record(bytes, a, 6, e, 1024);
    let c = put_record(bytes, b, 5, e, e);
    put_record(bytes, c, 2, e, 0)
}

fn put_events(bytes: &mut [u8]) -> usize {
    let mut at = 0;
    for e in 1..=1024 {
        at = put_event(bytes, at, e);
    }
    at
}

// 4,096 records and 1,024 event actions; then one record more.
pub(crate) fn longest() {
    let mut bytes = space();
    let n = put_events(&mut bytes);
    word(b"longest");
    reading(close_and_read(&mut bytes, n, 1024));
    let more = put_record(&mut bytes, n, 1, 1, 0);
    reading(close_and_read(&mut bytes, more, 1024));
    line_end();
}
