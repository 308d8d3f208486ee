// States that nobody opened, over bytes that hold something else: every call still answers.
use crate::say;
use recorder::Recorder;
use records::{EventId, Record};

fn count(i: usize) -> u16 {
    match i {
        0 => 0,
        1 => 3,
        2 => 4095,
        3 => 4096,
        4 => 4097,
        _ => 65535,
    }
}

fn state(i: usize) -> Recorder {
    Recorder {
        count: count(i % 6),
        situation: (i / 6 % 4 * 85) as u8,
        owner: EventId(7),
        closed: false,
    }
}

fn over(bytes: &mut [u8], space: usize, i: usize) {
    if bytes.len() < space {
        return;
    }
    let start = 0;
    let part = &mut bytes[start..space];
    let r = state(i);
    let kind = (1 + i / 24 % 4) as u8;
    let rec = Record {
        kind: kind,
        first: 7,
        second: 0,
    };
    let next = recorder::step_on(part, r, rec);
    let answer = next.answer;
    let ended = recorder::close_on(part, r);
    let closing = ended.answer;
    say::number(b"count ", r.count as usize);
    say::number(b" situation ", r.situation as usize);
    say::number(b" kind ", kind as usize);
    say::stepped(answer);
    say::closing(closing);
    say::line();
}

pub(crate) fn all(bytes: &mut [u8], space: usize) {
    for i in 0..96 {
        over(bytes, space, i);
    }
}
