// Document 01's trace T, each step lent just the bytes that it needs; then its closing over fewer and more.
use crate::{limits, say};
use recorder::Recorder;

fn step_over(bytes: &mut [u8], space: usize, r: Recorder, i: usize) -> Recorder {
    if bytes.len() < space {
        return r;
    }
    let start = 0;
    let part = &mut bytes[start..space];
    let next = recorder::step_on(part, r, limits::step_of_t(i));
    next.recorder
}

fn recorded(bytes: &mut [u8]) -> Recorder {
    let opened = recorder::open_on(bytes);
    let mut r = opened.recorder;
    let mut space = 13;
    for i in 0..12 {
        r = step_over(bytes, space, r, i);
        space = std::num::wrapping_add_usize(space, 5);
    }
    r
}

fn close_over(bytes: &mut [u8], space: usize, r: Recorder) {
    if bytes.len() < space {
        return;
    }
    let start = 0;
    let part = &mut bytes[start..space];
    let ended = recorder::close_on(part, r);
    let closing = ended.answer;
    say::number(b"records ", r.count as usize);
    say::number(b" closing over ", space);
    say::closing(closing);
    say::line();
}

pub(crate) fn all(bytes: &mut [u8]) {
    let r = recorded(bytes);
    for space in 59..70 {
        close_over(bytes, space, r);
    }
}
