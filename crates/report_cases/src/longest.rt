// Traces of 4,096 records with the longest texts.
use crate::draft::{close, put_unordered};
use crate::show;
use trials::draft::{put_record, put_times};

// Bytes for 4,096 records and the trailer.
fn space() -> [u8; 20488] {
    [0; 20488]
}

// The last record stands inside event action 1.
fn unended() {
    let mut bytes = space();
    let a = put_record(&mut bytes, 0, 1, 1, 0);
    let b = put_times(&mut bytes, a, 4095, 5, 1, 1);
    let n = close(&mut bytes, 0, b, 1);
    show::first(&bytes, n);
}

// The last begin needs a chain too many.
fn too_wide() {
    let mut bytes = space();
    let a = put_record(&mut bytes, 0, 1, 1, 0);
    let b = put_times(&mut bytes, a, 3966, 5, 1, 1);
    let c = put_record(&mut bytes, b, 2, 1, 0);
    let d = put_unordered(&mut bytes, c, 2);
    let n = close(&mut bytes, 0, d, 33);
    show::first(&bytes, n);
}

// begin, an access of cell 1,023, so many of cell 1,024, end
fn put_accesses(bytes: &mut [u8], at: usize, e: u16, first: u8, times: usize, then: u8) -> usize {
    let a = put_record(bytes, at, 1, e, 0);
    let b = put_record(bytes, a, first, e, 1023);
    let c = put_times(bytes, b, times, then, e, 1024);
    put_record(bytes, c, 2, e, 0)
}

// Event action 1 writes both cells, 2 writes cell 1,023 and reads 1,024, 3 reads 1,023 and writes 1,024. No forks, no joins: each read of 1,024 has two pairs,
// the last write before it and the next one after it. The two pairs of cell 1,023 cover all others.
fn put_readings(bytes: &mut [u8], writes: usize, reads: usize) -> usize {
    let a = put_accesses(bytes, 0, 1, 6, writes, 6);
    let b = put_accesses(bytes, a, 2, 6, reads, 5);
    let c = put_accesses(bytes, b, 3, 5, 1, 6);
    close(bytes, 0, c, 3)
}

fn readings(writes: usize, reads: usize) {
    let mut bytes = space();
    let n = put_readings(&mut bytes, writes, reads);
    show::first(&bytes, n);
}

// fork of the event 32 later, for the last 32 a read
fn put_fork(bytes: &mut [u8], at: usize, e: u16) -> usize {
    if e <= 992 {
        return put_record(bytes, at, 3, e, e + 32);
    }
    put_record(bytes, at, 5, e, 1024)
}

fn put_event(bytes: &mut [u8], at: usize, e: u16) -> usize {
    let a = put_record(bytes, at, 1, e, 0);
    let b = put_fork(bytes, a, e);
    let c = put_record(bytes, b, 6, e, 1024);
    put_record(bytes, c, 2, e, 0)
}

fn put_events(bytes: &mut [u8]) -> usize {
    let mut n = 0;
    for e in 1..=1024 {
        n = put_event(bytes, n, e);
    }
    close(bytes, 0, n, 1024)
}

fn events() {
    let mut bytes = space();
    let n = put_events(&mut bytes);
    show::first(&bytes, n);
}

pub(crate) fn texts() {
    show::title(b"4096 records, refused");
    unended();
    too_wide();
    show::title(b"4096 records, most pairs");
    readings(1, 4085);
    show::title(b"4096 records, longest text");
    readings(8, 4078);
    show::title(b"4096 records, longest lines");
    readings(998, 3088);
    show::title(b"4096 records, longest header");
    events();
}
