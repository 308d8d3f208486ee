// The compactor's boundary cases. Each line has the bytes given and the space lent, the answer, and the first bytes of the space, which held 9 before.
#![tactic(auto)]

mod show;

use trials::draft::{put_record, put_times, put_trailer};
use trials::line::{number, word};

fn compact_in(bytes: &[u8], n: usize, out: &mut [u8], space: usize) -> usize {
    if bytes.len() < n {
        return 0;
    }
    if out.len() < space {
        return 0;
    }
    number(n);
    number(space);
    let r = compactor::compact(&bytes[..n], &mut out[..space]);
    show::compacting(r);
    match r {
        Ok(s) => s.length,
        Err(_) => 0,
    }
}

// The first n bytes into so much space, of which so much is shown.
fn compact(bytes: &[u8], n: usize, space: usize, shown: usize) {
    let mut out = [9u8; 64];
    compact_in(bytes, n, &mut out, space);
    show::bytes(&out, shown);
    word(b"\n");
}

// What was made of them, compacted in its turn.
fn twice(bytes: &[u8], n: usize, space: usize) {
    let mut out = [9u8; 64];
    let length = compact_in(bytes, n, &mut out, space);
    let mut again = [9u8; 64];
    compact_in(&out, length, &mut again, length);
    show::bytes(&again, length);
    word(b"\n");
}

// begin, read and write of cell 1, both again, read of cell 257, end
fn put_repeated(bytes: &mut [u8], at: usize) -> usize {
    let a = put_record(bytes, at, 1, 1, 0);
    let b = put_record(bytes, a, 5, 1, 1);
    let c = put_record(bytes, b, 6, 1, 1);
    let d = put_record(bytes, c, 5, 1, 1);
    let e = put_record(bytes, d, 6, 1, 1);
    let f = put_record(bytes, e, 5, 1, 257);
    put_record(bytes, f, 2, 1, 0)
}

// Two records are dropped, five kept: 33 bytes.
fn spaces() {
    let mut bytes = [0u8; 64];
    let end = put_repeated(&mut bytes, 0);
    let n = put_trailer(&mut bytes, end, 35, 1);
    word(b"repeated\n");
    compact(&bytes, n, 33, 34);
    compact(&bytes, n, 32, 34);
    compact(&bytes, n, 0, 1);
    compact(&bytes, n, 42, 34);
    compact(&bytes, n, 43, 34);
    compact(&bytes, n, 64, 34);
    word(b"compacted again\n");
    twice(&bytes, n, 64);
}

// The same, after bytes of the caller's own.
fn before_record_1() {
    let mut bytes = [7u8; 64];
    let end = put_repeated(&mut bytes, 3);
    let n = put_trailer(&mut bytes, end, 35, 1);
    word(b"bytes before record 1\n");
    compact(&bytes, n, 33, 34);
}

fn empty() {
    let mut bytes = [0u8; 8];
    let n = put_trailer(&mut bytes, 0, 0, 0);
    word(b"no records\n");
    compact(&bytes, n, 8, 9);
    compact(&bytes, n, 7, 9);
    twice(&bytes, n, 8);
}

// Events 1 and 1,024 both write cell 1,024, the second twice, and the second reads it.
fn two_event_actions() {
    let mut bytes = [0u8; 64];
    let a = put_record(&mut bytes, 0, 1, 1, 0);
    let b = put_record(&mut bytes, a, 6, 1, 1024);
    let c = put_record(&mut bytes, b, 2, 1, 0);
    let d = put_record(&mut bytes, c, 1, 1024, 0);
    let e = put_times(&mut bytes, d, 2, 6, 1024, 1024);
    let f = put_record(&mut bytes, e, 5, 1024, 1024);
    let end = put_record(&mut bytes, f, 2, 1024, 0);
    let n = put_trailer(&mut bytes, end, 40, 2);
    word(b"two event actions\n");
    compact(&bytes, n, 43, 44);
    compact(&bytes, n, 42, 2);
}

// Refusals of the trace: each number with its place, and the space as it was.
fn refused() {
    let mut bytes = [0u8; 64];
    let end = put_repeated(&mut bytes, 0);
    word(b"refused\n");
    compact(&bytes, 0, 64, 2);
    compact(&bytes, end, 64, 2);
    let n = put_trailer(&mut bytes, end, 36, 1);
    compact(&bytes, n, 64, 2);
    put_trailer(&mut bytes, end, 35, 2);
    compact(&bytes, n, 64, 2);
    compact(&bytes, n, 0, 2);
    put_record(&mut bytes, 30, 6, 1, 1);
    compact(&bytes, n, 64, 2);
    put_record(&mut bytes, 25, 6, 1, 1025);
    compact(&bytes, n, 64, 2);
}

// Bytes for 4,096 records and the trailer.
fn space() -> [u8; 20488] {
    [0; 20488]
}

// begin, 4,094 reads of one cell, end: three records are left.
fn longest() {
    let mut bytes = space();
    let a = put_record(&mut bytes, 0, 1, 1, 0);
    let b = put_times(&mut bytes, a, 4094, 5, 1, 1);
    let end = put_record(&mut bytes, b, 2, 1, 0);
    let n = put_trailer(&mut bytes, end, 20480, 1);
    word(b"4096 records\n");
    compact(&bytes, n, 23, 24);
    compact(&bytes, n, 22, 24);
    twice(&bytes, n, 23);
    let mut out = space();
    compact_in(&bytes, n, &mut out, 20488);
    show::bytes(&out, 24);
    word(b"\n");
}

// begin 1, send to event 2 on link 0, read, the same send again, the same read again, end 1, begin 2, send to event 3 on link 3, end 2: the second read
// alone is dropped.
fn sends() {
    let mut bytes = [0u8; 64];
    let a = put_record(&mut bytes, 0, 1, 1, 0);
    let b = put_record(&mut bytes, a, 16, 1, 2);
    let c = put_record(&mut bytes, b, 5, 1, 2);
    let d = put_record(&mut bytes, c, 16, 1, 2);
    let e = put_record(&mut bytes, d, 5, 1, 2);
    let f = put_record(&mut bytes, e, 2, 1, 0);
    let g = put_record(&mut bytes, f, 1, 2, 0);
    let h = put_record(&mut bytes, g, 19, 2, 3);
    let end = put_record(&mut bytes, h, 2, 2, 0);
    let n = put_trailer(&mut bytes, end, 45, 2);
    word(b"sends\n");
    compact(&bytes, n, 48, 49);
    compact(&bytes, n, 47, 2);
    twice(&bytes, n, 48);
    word(b"sends, event 2 behind one not yet begun\n");
    put_record(&mut bytes, a, 16, 1, 3);
    compact(&bytes, n, 64, 2);
}

fn main() {
    spaces();
    before_record_1();
    empty();
    two_event_actions();
    sends();
    refused();
    longest();
}
