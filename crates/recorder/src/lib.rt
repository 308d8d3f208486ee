// The recorder: a trace written step by step into lent bytes, each step checked by the reader's rules. Nothing in its state or in the bytes is trusted:
// over altered bytes, or with a state made up by somebody, every call is still without fault.
#![tactic(auto)]

mod look;

ghost use Rattle.std.specs.Prelude.{◌≡◌, Ok, Err, false, ◌≤◌};
ghost use Rattle.recorder.specs.Recording.{stepped_paper, closing_paper, left, of_opening, of_step, of_closing, of_numbers};
ghost use Rattle.recorder.specs.Recording.{held, space, open_left, step_left, close_left};

use records::store::{put_record, put_trailer};
use records::{EventId, Operation, RECORD_BYTES, Record, TRAILER_BYTES};
use trace::{Reason, Refusal};

// The recorder's one state: how many records are stored, the situation, the open or joining event, and whether the trace is closed.
#[derive(Clone, Copy)]
pub struct Recorder {
    pub count: u16,
    pub situation: u8,
    pub owner: EventId,
    pub closed: bool,
}

// The recorder after a call, and what the call answers: of a closing that is the length of the closed trace, from the first byte of the space lent.
#[derive(Clone, Copy)]
pub struct After<T> {
    pub recorder: Recorder,
    pub answer: Result<T, Refusal>,
}

// How many records are stored: at most 4,096, whatever the state says.
fn stored_records(r: Recorder) -> usize
    ensures { (result ≡ held r) × (result ≤ 4096) }
{
    (r.count as usize).min(4096)
}

// Is there space for one record more, and a trailer?
fn has_space(bytes: &[u8], n: usize) -> bool
    ensures { result ≡ space bytes.now n }
{
    n < 4096 && RECORD_BYTES * n + RECORD_BYTES + TRAILER_BYTES <= bytes.len()
}

// After a step that is taken the recorder has these numbers.
fn step_taken(count: u16, situation: u8, owner: EventId) -> After<()>
    ensures { (result.recorder ≡ of_numbers count situation owner false) × (result.answer ≡ Ok tt) }
{
    After {
        recorder: Recorder {
            count: count,
            situation: situation,
            owner: owner,
            closed: false,
        },
        answer: Ok(()),
    }
}

// A refused step or closing leaves the recorder as it was.
fn refused<T>(kept: Recorder, why: Refusal) -> After<T>
    ensures { (result.recorder ≡ kept) × (result.answer ≡ Err why) }
{
    After {
        recorder: kept,
        answer: Err(why),
    }
}

// A recorder over the bytes, with no record yet.
pub fn open_on(bytes: &[u8]) -> After<()>
    ensures { of_opening result bytes.now ≡ open_left bytes.now }
{
    let short = bytes.len() < TRAILER_BYTES;
    let recorder = Recorder {
        count: 0,
        situation: 0,
        owner: EventId(0),
        closed: short,
    };
    if short {
        return refused(recorder, Reason::NoSpace.at(Operation(0)));
    }
    After {
        recorder: recorder,
        answer: Ok(()),
    }
}

// One step, on bytes and numbers: the record is checked, and stored where there is space for it and a trailer.
pub fn step_numbers(
    bytes: &mut [u8],
    count: u16,
    situation: u8,
    owner: EventId,
    closed: bool,
    rec: Record,
) -> After<()>
    ensures { of_step result bytes.new ≡ step_left bytes.old (of_numbers count situation owner closed) rec }
{
    let r = Recorder {
        count: count,
        situation: situation,
        owner: owner,
        closed: closed,
    };
    if closed {
        return refused(r, Reason::Closed.at(Operation(0)));
    }
    let n = stored_records(r);
    match look::check(bytes, n, r, rec) {
        Err(why) => refused(r, why),
        Ok(next) => {
            if !has_space(bytes, n) {
                return refused(r, Reason::NoSpace.at(Operation(0)));
            }
            put_record(bytes, RECORD_BYTES * n, rec);
            step_taken((n + 1) as u16, next, EventId(rec.first))
        }
    }
}

// Closing, on bytes and numbers: the trailer is stored, and the recorder is closed.
pub fn close_numbers(
    bytes: &mut [u8],
    count: u16,
    situation: u8,
    owner: EventId,
    closed: bool,
) -> After<usize>
    ensures { of_closing result bytes.new ≡ close_left bytes.old (of_numbers count situation owner closed) }
{
    let r = Recorder {
        count: count,
        situation: situation,
        owner: owner,
        closed: closed,
    };
    if closed {
        return refused(r, Reason::Closed.at(Operation(0)));
    }
    let n = stored_records(r);
    if situation != 0 {
        return refused(r, Reason::StopsInside.at(Operation(n as u16)));
    }
    let at = RECORD_BYTES * n;
    if bytes.len() < at + TRAILER_BYTES {
        return refused(r, Reason::NoSpace.at(Operation(0)));
    }
    let begins = look::begins(bytes, n);
    put_trailer(bytes, at, at, begins);
    After {
        recorder: Recorder {
            count: count,
            situation: situation,
            owner: owner,
            closed: true,
        },
        answer: Ok(at + TRAILER_BYTES),
    }
}

// One step of the recorder that is lent: its numbers go in, and the recorder that comes back is stored.
pub fn step(r: &mut Recorder, bytes: &mut [u8], rec: Record) -> Result<(), Refusal>
    ensures { left (stepped_paper result) r.new bytes.new ≡ step_left bytes.old r.old rec }
{
    let next = step_numbers(bytes, r.count, r.situation, r.owner, r.closed, rec);
    *r = next.recorder;
    next.answer
}

// Closes the recorder that is lent, likewise.
pub fn close(r: &mut Recorder, bytes: &mut [u8]) -> Result<usize, Refusal>
    ensures { left (closing_paper result) r.new bytes.new ≡ close_left bytes.old r.old }
{
    let ended = close_numbers(bytes, r.count, r.situation, r.owner, r.closed);
    *r = ended.recorder;
    ended.answer
}

// One step of a recorder given by value, which is lent to `step`: whoever calls this has plain parameters only.
pub fn step_on(bytes: &mut [u8], r: Recorder, rec: Record) -> After<()>
    ensures { of_step result bytes.new ≡ step_left bytes.old r rec }
{
    let mut kept = r;
    let answer = step(&mut kept, bytes, rec);
    After {
        recorder: kept,
        answer: answer,
    }
}

// Closes a recorder given by value, which is lent to `close`.
pub fn close_on(bytes: &mut [u8], r: Recorder) -> After<usize>
    ensures { of_closing result bytes.new ≡ close_left bytes.old r }
{
    let mut kept = r;
    let answer = close(&mut kept, bytes);
    After {
        recorder: kept,
        answer: answer,
    }
}
