// The twelve steps of document 01's trace T, over every space from no byte to more than enough.
use crate::say;
use recorder::Recorder;
use records::Record;
use trace::Refusal;

#[derive(Clone, Copy)]
struct Run {
    recorder: Recorder,
    taken: usize,
    last: Result<(), Refusal>,
}

fn record(kind: u8, first: u16, second: u16) -> Record {
    Record {
        kind: kind,
        first: first,
        second: second,
    }
}

pub(crate) fn step_of_t(i: usize) -> Record {
    match i {
        0 => record(1, 1, 0),
        1 => record(3, 1, 2),
        2 => record(3, 1, 3),
        3 => record(2, 1, 0),
        4 => record(1, 2, 0),
        5 => record(6, 2, 1),
        6 => record(6, 2, 2),
        7 => record(2, 2, 0),
        8 => record(1, 3, 0),
        9 => record(5, 3, 2),
        10 => record(5, 3, 1),
        _ => record(2, 3, 0),
    }
}

// Steps until one is refused.
fn steps(bytes: &mut [u8], first: Recorder) -> Run {
    let mut r = first;
    for i in 0..12 {
        let next = recorder::step_on(bytes, r, step_of_t(i));
        let answer = next.answer;
        if let Err(f) = answer {
            return Run {
                recorder: r,
                taken: i,
                last: Err(f),
            };
        }
        let after = next.recorder;
        r = after;
    }
    Run {
        recorder: r,
        taken: 12,
        last: Ok(()),
    }
}

fn over(bytes: &mut [u8], space: usize) {
    if bytes.len() < space {
        return;
    }
    let start = 0;
    let part = &mut bytes[start..space];
    let opened = recorder::open_on(part);
    let first = opened.recorder;
    let opening = opened.answer;
    let run = steps(part, first);
    let r = run.recorder;
    let last = run.last;
    let ended = recorder::close_on(part, r);
    let closing = ended.answer;
    say::number(b"space ", space);
    say::opening(opening);
    say::number(b" steps ", run.taken);
    say::stepped(last);
    say::closing(closing);
    say::line();
}

pub(crate) fn all(bytes: &mut [u8]) {
    for space in 0..75 {
        over(bytes, space);
    }
}
