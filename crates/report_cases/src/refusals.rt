// An input for each refusal from 1 to 10.
use crate::show;

fn of_the_trailer() {
    // 1: the last byte
    show::report(&[0, 0, 0, 0, 0, 0, 1, 0xA6]);
    // 2: edition 2
    show::report(&[0, 0, 0, 0, 0, 0, 2, 0xA7]);
    // 3: more than the bytes before the trailer
    show::report(&[5, 0, 0, 0, 0, 0, 1, 0xA7]);
}

fn of_a_record() {
    // 4: kind 7 after begin 1
    show::report(&[1, 1, 0, 0, 0, 7, 1, 0, 1, 0, 10, 0, 0, 0, 1, 0, 1, 0xA7]);
    // 5: begin 1 whose second is 1
    show::report(&[1, 1, 0, 1, 0, 5, 0, 0, 0, 1, 0, 1, 0xA7]);
    // 6: read 2 1 inside event action 1
    show::report(&[1, 1, 0, 0, 0, 5, 2, 0, 1, 0, 10, 0, 0, 0, 1, 0, 1, 0xA7]);
    // 7: fork 1 1
    show::report(&[1, 1, 0, 0, 0, 3, 1, 0, 1, 0, 10, 0, 0, 0, 1, 0, 1, 0xA7]);
    // 8: join 1 2, where 2 hasn't ended
    show::report(&[4, 1, 0, 2, 0, 5, 0, 0, 0, 0, 0, 1, 0xA7]);
}

fn of_the_end() {
    // 9: begin 1 alone
    show::report(&[1, 1, 0, 0, 0, 5, 0, 0, 0, 1, 0, 1, 0xA7]);
    // 10: begin 1, end 1, and 2 begins in the trailer
    show::report(&[1, 1, 0, 0, 0, 2, 1, 0, 0, 0, 10, 0, 0, 0, 2, 0, 1, 0xA7]);
}

pub(crate) fn each() {
    show::title(b"refusals 1 to 10");
    of_the_trailer();
    of_a_record();
    of_the_end();
}
