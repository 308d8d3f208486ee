// Bytes stored without the recorder, and without the writer that it stores by: what it wrote is held against these.
use records::Record;

fn set(bytes: &mut [u8], at: usize, v: usize) {
    if at < bytes.len() {
        bytes[at] = (v % 256) as u8;
    }
}

// The record that would have number n + 1.
pub(crate) fn put(bytes: &mut [u8], n: u16, rec: Record) {
    let at = 5 * usize::from(n);
    let first = usize::from(rec.first);
    let second = usize::from(rec.second);
    set(bytes, at, usize::from(rec.kind));
    set(bytes, at + 1, first);
    set(bytes, at + 2, first / 256);
    set(bytes, at + 3, second);
    set(bytes, at + 4, second / 256);
}

// A trailer after n records.
pub(crate) fn close(bytes: &mut [u8], n: u16) {
    let at = 5 * usize::from(n);
    set(bytes, at, at);
    set(bytes, at + 1, at / 256);
    set(bytes, at + 2, at / 65536);
    set(bytes, at + 3, 0);
    set(bytes, at + 4, 0);
    set(bytes, at + 5, 0);
    set(bytes, at + 6, 1);
    set(bytes, at + 7, 167);
}

// The first n bytes; all, where there are fewer.
pub(crate) fn front(bytes: &[u8], n: usize) -> &[u8] {
    if bytes.len() < n {
        return bytes;
    }
    let start = 0;
    &bytes[start..n]
}

fn matched(found: u64, a: &[u8], b: &[u8], i: usize) -> u64 {
    if a.len() <= i {
        return found;
    }
    if b.len() <= i {
        return found;
    }
    if a[i] == b[i] {
        return std::num::wrapping_add_u64(found, 1);
    }
    found
}

// How many of the first n bytes are the same.
pub(crate) fn same(a: &[u8], b: &[u8], n: usize) -> u64 {
    let mut found = 0;
    for i in 0..n {
        found = matched(found, a, b, i);
    }
    found
}
