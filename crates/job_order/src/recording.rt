// The recorder's calls from C. Its one state is four numbers that the caller keeps and lends to each call; nothing in them is trusted.
ghost use Rattle.std.specs.Prelude.{◌≡◌};
ghost use Rattle.trace.specs.Paper.{paper};
ghost use Rattle.job_order.specs.Recording.{state, recorder_of, closed_after, state_after, number_of, place_of, length_of, Opens, Steps, Closes};

use recorder::Recorder;
use records::{EventId, Record};
use trace::Refusal;

fn recorder_of(count: u16, situation: u8, owner: u16, closed: u8) -> Recorder
    ensures { result ≡ recorder_of (state count situation owner closed) }
{
    Recorder {
        count: count,
        situation: situation,
        owner: EventId(owner),
        closed: closed != 0,
    }
}

// A recorder that was closed keeps its number.
fn closed_after(before: u8, now: bool) -> u8
    ensures { result ≡ closed_after before now }
{
    if now {
        if before == 0 {
            return 1;
        }
        return before;
    }
    0
}

#[derive(Clone, Copy)]
struct Numbers {
    count: u16,
    situation: u8,
    owner: u16,
    closed: u8,
}

fn numbers_after(before: u8, r: Recorder) -> Numbers
    ensures { state result.count result.situation result.owner result.closed ≡ state_after before r }
{
    Numbers {
        count: r.count,
        situation: r.situation,
        owner: r.owner.0,
        closed: closed_after(before, r.closed),
    }
}

// A call's result: the number of its refusal, or 0.
fn number_of<T: Copy>(answer: Result<T, Refusal>) -> u16
    ensures { result ≡ number_of (paper answer) }
{
    match answer {
        Ok(_) => 0,
        Err(f) => f.reason.number(),
    }
}

fn place_of<T: Copy>(answer: Result<T, Refusal>) -> u16
    ensures { result ≡ place_of (paper answer) }
{
    match answer {
        Ok(_) => 0,
        Err(f) => f.place.0,
    }
}

// The length of a trace that was closed; a refused closing gives none, 0.
fn length_of(answer: Result<usize, Refusal>) -> usize
    ensures { result ≡ length_of (paper answer) }
{
    answer.unwrap_or(0)
}

// Opens a recorder over the space.
#[unsafe(no_mangle)]
pub extern "C" fn jco_recorder_open(
    space: &[u8],
    count: &mut u16,
    situation: &mut u8,
    owner: &mut u16,
    closed: &mut u8,
) -> u16
    ensures { Opens space.now (state count.new situation.new owner.new closed.new) result }
{
    let opened = recorder::open_on(space);
    let after = numbers_after(0, opened.recorder);
    *count = after.count;
    *situation = after.situation;
    *owner = after.owner;
    *closed = after.closed;
    number_of(opened.answer)
}

// One step: the record of this kind, first and second.
#[unsafe(no_mangle)]
pub extern "C" fn jco_recorder_step(
    space: &mut [u8],
    count: &mut u16,
    situation: &mut u8,
    owner: &mut u16,
    closed: &mut u8,
    kind: u8,
    first: u16,
    second: u16,
    place: &mut u16,
) -> u16
    ensures { Steps space.old space.new
        (state count.old situation.old owner.old closed.old)
        (state count.new situation.new owner.new closed.new)
        (record { kind = kind; first = first; second = second }) result place.new }
{
    let r = recorder_of(*count, *situation, *owner, *closed);
    let record = Record {
        kind: kind,
        first: first,
        second: second,
    };
    let next = recorder::step_on(space, r, record);
    let after = numbers_after(*closed, next.recorder);
    *count = after.count;
    *situation = after.situation;
    *owner = after.owner;
    *closed = after.closed;
    *place = place_of(next.answer);
    number_of(next.answer)
}

// Closes the trace; its length is counted from the first byte of the space.
#[unsafe(no_mangle)]
pub extern "C" fn jco_recorder_close(
    space: &mut [u8],
    count: &mut u16,
    situation: &mut u8,
    owner: &mut u16,
    closed: &mut u8,
    place: &mut u16,
    length: &mut usize,
) -> u16
    ensures { Closes space.old space.new
        (state count.old situation.old owner.old closed.old)
        (state count.new situation.new owner.new closed.new) result place.new length.new }
{
    let r = recorder_of(*count, *situation, *owner, *closed);
    let ended = recorder::close_on(space, r);
    let after = numbers_after(*closed, ended.recorder);
    *count = after.count;
    *situation = after.situation;
    *owner = after.owner;
    *closed = after.closed;
    *place = place_of(ended.answer);
    *length = length_of(ended.answer);
    number_of(ended.answer)
}
