// Traces byte by byte: the shortest ones, one refusal of each number with its place, and which refusal comes first.
use crate::show::reading;
use trials::line::{line_end, word};

fn shown(bytes: &[u8]) {
    reading(trace::read(bytes));
}

pub(crate) fn empty() {
    word(b"empty");
    shown(&[]);
    line_end();
}

pub(crate) fn trailer() {
    word(b"trailer");
    shown(&[0, 0, 0, 0, 0, 0, 1, 0xA7]);
    line_end();
}

fn of_the_trailer() {
    shown(&[0, 0, 0, 0, 0, 1, 0xA7]);
    shown(&[0, 0, 0, 0, 0, 0, 1, 0xA6]);
    shown(&[0, 0, 0, 0, 0, 0, 2, 0xA7]);
    shown(&[5, 0, 0, 0, 0, 0, 1, 0xA7]);
}

fn of_a_record() {
    // kind 7 after begin 1
    shown(&[1, 1, 0, 0, 0, 7, 1, 0, 1, 0, 10, 0, 0, 0, 1, 0, 1, 0xA7]);
    // begin 1 whose second is 1
    shown(&[1, 1, 0, 1, 0, 5, 0, 0, 0, 1, 0, 1, 0xA7]);
    // read 2 1 inside event action 1
    shown(&[1, 1, 0, 0, 0, 5, 2, 0, 1, 0, 10, 0, 0, 0, 1, 0, 1, 0xA7]);
    // fork 1 1
    shown(&[1, 1, 0, 0, 0, 3, 1, 0, 1, 0, 10, 0, 0, 0, 1, 0, 1, 0xA7]);
    // join 1 2, where 2 hasn't ended
    shown(&[4, 1, 0, 2, 0, 5, 0, 0, 0, 0, 0, 1, 0xA7]);
}

fn of_the_end() {
    // begin 1 alone
    shown(&[1, 1, 0, 0, 0, 5, 0, 0, 0, 1, 0, 1, 0xA7]);
    // begin 1, end 1, join 2 1
    shown(&[
        1, 1, 0, 0, 0, 2, 1, 0, 0, 0, 4, 2, 0, 1, 0, 15, 0, 0, 0, 1, 0, 1, 0xA7,
    ]);
    // begin 1, end 1, and 2 begins in the trailer
    shown(&[1, 1, 0, 0, 0, 2, 1, 0, 0, 0, 10, 0, 0, 0, 2, 0, 1, 0xA7]);
}

pub(crate) fn each() {
    word(b"refusals");
    of_the_trailer();
    of_a_record();
    of_the_end();
    line_end();
}

// Traces to which two refusals apply: 1 and 2, 2 and 3, 3 and 4, 4 and 5, 5 and 6, 6 and 7, 7 and 8, 8 and 9, 9 and 10.
pub(crate) fn order() {
    word(b"order");
    shown(&[0, 0, 0, 0, 0, 0, 2, 0xA6]);
    shown(&[5, 0, 0, 0, 0, 0, 2, 0xA7]);
    shown(&[7, 1, 0, 1, 0, 4, 0, 0, 0, 0, 0, 1, 0xA7]);
    shown(&[7, 0, 0, 0, 0, 5, 0, 0, 0, 0, 0, 1, 0xA7]);
    shown(&[2, 0, 0, 0, 0, 5, 0, 0, 0, 0, 0, 1, 0xA7]);
    shown(&[1, 1, 0, 0, 0, 1, 1, 0, 0, 0, 10, 0, 0, 0, 2, 0, 1, 0xA7]);
    shown(&[
        1, 1, 0, 0, 0, 2, 1, 0, 0, 0, 4, 1, 0, 2, 0, 15, 0, 0, 0, 1, 0, 1, 0xA7,
    ]);
    shown(&[4, 1, 0, 1, 0, 5, 0, 0, 0, 0, 0, 1, 0xA7]);
    shown(&[1, 1, 0, 0, 0, 5, 0, 0, 0, 0, 0, 1, 0xA7]);
    line_end();
}

// begin 258, end 258 after three bytes of the job file, two of which look like the end of a trailer
pub(crate) fn before() {
    word(b"before");
    shown(&[
        9, 1, 0xA7, 1, 2, 1, 0, 0, 2, 2, 1, 0, 0, 10, 0, 0, 0, 1, 0, 1, 0xA7,
    ]);
    line_end();
}
