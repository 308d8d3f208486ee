// The shortest inputs, the longest, one byte more, and the widest orders.
use crate::draft::{close, put_action, put_unordered};
use crate::show;

pub(crate) fn short() {
    show::title(b"no bytes");
    show::report(&[]);
    show::title(b"trailer alone");
    show::report(&[0, 0, 0, 0, 0, 0, 1, 0xA7]);
}

// T: begin 1, fork 1 2, fork 1 3, end 1, begin 2, write 2 1, write 2 2, end 2, begin 3, read 3 2, read 3 1, end 3.
fn put_t(bytes: &mut [u8], start: usize) -> usize {
    let a = put_action(bytes, start, 1, 3, 2, 3);
    let b = put_action(bytes, a, 2, 6, 1, 2);
    let c = put_action(bytes, b, 3, 5, 2, 1);
    close(bytes, start, c, 3)
}

// T after that many bytes of the job file: 68 bytes more.
fn after(job: usize) {
    let mut bytes = [0xA7u8; 32769];
    let n = put_t(&mut bytes, job);
    show::first(&bytes, n);
}

pub(crate) fn sizes() {
    show::title(b"32768 bytes");
    after(32700);
    show::title(b"32769 bytes");
    after(32701);
}

// Event actions without order between them: a chain for each.
fn unordered(from: u16, events: u16) {
    let mut bytes = [0u8; 668];
    let n = put_unordered(&mut bytes, 0, from);
    let end = close(&mut bytes, 0, n, events);
    show::first(&bytes, end);
}

pub(crate) fn chains() {
    show::title(b"32 chains");
    unordered(2, 32);
    show::title(b"33 chains");
    unordered(1, 33);
}
