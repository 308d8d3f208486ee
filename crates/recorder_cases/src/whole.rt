// A trace of 4,096 records, and one step more.
use crate::{raw, say};
use recorder::Recorder;
use records::{Record, Trace, access};
use trace::Refusal;

fn step_at(i: usize) -> Record {
    if i == 0 {
        return Record {
            kind: 1,
            first: 1024,
            second: 0,
        };
    }
    if i == 4095 {
        return Record {
            kind: 2,
            first: 1024,
            second: 0,
        };
    }
    Record {
        kind: (5 + i % 2) as u8,
        first: 1024,
        second: (1 + i % 1024) as u16,
    }
}

#[derive(Clone, Copy)]
struct Run {
    recorder: Recorder,
    taken: u64,
}

fn counted(n: u64, a: Result<(), Refusal>) -> u64 {
    match a {
        Ok(()) => std::num::wrapping_add_u64(n, 1),
        Err(_) => n,
    }
}

fn steps(bytes: &mut [u8], first: Recorder) -> Run {
    let mut r = first;
    let mut taken = 0;
    for i in 0..4096 {
        let next = recorder::step_on(bytes, r, step_at(i));
        let answer = next.answer;
        taken = counted(taken, answer);
        let after = next.recorder;
        r = after;
    }
    Run {
        recorder: r,
        taken: taken,
    }
}

fn matched(n: u64, a: Record, b: Record) -> u64 {
    if a.kind == b.kind && a.first == b.first && a.second == b.second {
        return std::num::wrapping_add_u64(n, 1);
    }
    n
}

// How many of the records read are the steps.
fn agree(recs: &[u8]) -> u64 {
    let mut same = 0;
    for i in 0..4096 {
        same = matched(same, access::record_at(recs, i), step_at(i));
    }
    same
}

pub(crate) fn full(bytes: &mut [u8]) {
    let opened = recorder::open_on(bytes);
    let first = opened.recorder;
    let run = steps(bytes, first);
    let r = run.recorder;
    say::count(b"taken ", run.taken);
    let one_more = Record {
        kind: 1,
        first: 1,
        second: 0,
    };
    let next = recorder::step_on(bytes, r, one_more);
    let answer = next.answer;
    say::stepped(answer);
    let last = next.recorder;
    let ended = recorder::close_on(bytes, last);
    let closing = ended.answer;
    say::closing(closing);
    read_back(bytes);
}

fn read_back(bytes: &[u8]) {
    let reading = trace::read(raw::front(bytes, 20488));
    say::reading(reading);
    let all = Trace {
        start: 0,
        records: 4096,
        events: 1,
        sends: false,
    };
    say::count(b" same ", agree(access::records(bytes, all)));
    say::line();
}
