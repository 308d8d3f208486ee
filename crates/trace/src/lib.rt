// Traces of event actions: the refusals, and the reader, which checks a trace record by record.
#![tactic(auto)]

mod frame;
mod place;
pub mod rule;
mod scan;
mod status;

ghost use Rattle.std.specs.Prelude.{◌≡◌, ◌≤◌};
ghost use Rattle.trace.specs.Reading.{read_reply};
ghost use Rattle.trace.specs.Paper.{number_of, paper};
ghost use Rattle.trace.specs.Plain.{earlier, FirstPass, TracesLinks};

use links::{fill_all, first_blocked};
use records::access::records_from;
use records::{Operation, Trace, access};

// Why a call is refused: the refusals of document 01, because of the input (1 to 13) and of the state (21 to 26), and 31 of document 02, each with its number.
#[derive(Clone, Copy, PartialEq, Eq)]
pub enum Reason {
    NoTrailer = 1,
    Edition = 2,
    Distance = 3,
    UnknownKind = 4,
    Identifier = 5,
    OutOfPlace = 6,
    BegunAlready = 7,
    NotEnded = 8,
    StopsInside = 9,
    BeginCount = 10,
    NotInTrace = 11,
    NoRace = 12,
    TooLong = 13,
    ClockSpace = 21,
    WorkSpace = 22,
    Chains = 23,
    ListSpace = 24,
    NoSpace = 25,
    Closed = 26,
    Behind = 31,
}

impl Reason {
    // Document 01's number.
    pub fn number(self) -> u16
        ensures { result ≡ number_of self }
    {
        self as u16
    }

    // The refusal for this reason at that record, 0 where no record is concerned.
    pub fn at(self, place: Operation) -> Refusal
        ensures { result ≡ record { reason = self; place = place } }
    {
        Refusal {
            reason: self,
            place: place,
        }
    }
}

// A refusal: why, and a record number, 0 where no record is concerned.
#[derive(Clone, Copy, PartialEq, Eq)]
pub struct Refusal {
    pub reason: Reason,
    pub place: Operation,
}

// What a pass by refusals 1 to 10 finds: its reading, where record 1 starts, how many records passed 4 to 8, and whether one of those is a send.
#[derive(Clone, Copy, PartialEq, Eq)]
pub struct Scanned {
    pub reading: Result<Trace, Refusal>,
    pub start: usize,
    pub passed: usize,
    pub sends: bool,
}

// 31 at the begin at position `blocked`, where that is among the records that passed 4 to 8; else the reading of the first pass.
fn earlier_of(first: Scanned, blocked: usize) -> Result<Trace, Refusal>
    requires { first.passed ≤ 4096 }
    ensures { paper result ≡ earlier first blocked }
{
    if blocked < first.passed {
        return Err(Reason::Behind.at(Operation((blocked + 1) as u16)));
    }
    first.reading
}

// Reads the trace that the bytes end with, by refusals 1 to 10 alone: in one pass over the records. Where that met no send it is the whole reading.
pub fn read_plain(bytes: &[u8]) -> Scanned
    ensures { FirstPass bytes.now result }
{
    let framed = frame::frame(bytes);
    // By let .. else, the form that document 01 names for the reader's answer.
    let Ok(t) = framed else {
        return Scanned {
            reading: framed,
            start: 0,
            passed: 0,
            sends: false,
        };
    };
    scan::scan(access::records(bytes, t), t.start, t.events)
}

// Reads the trace that the bytes end with; bytes before record 1 are ignored.
pub fn read(bytes: &[u8]) -> Result<Trace, Refusal>
    ensures { paper result ≡ read_reply bytes.now }
{
    let first = read_plain(bytes);
    if !first.sends {
        return first.reading;
    }
    let passed = records_from(bytes, first.start, first.passed);
    earlier_of(first, first_blocked(passed))
}

// The same reading, with the ranks of an accepted trace's events and its table of what happens before what in lent memory.
pub fn read_linked(
    bytes: &[u8],
    ranks: &mut [u16; 1025],
    table: &mut [u64; 8704],
) -> Result<Trace, Refusal>
    ensures { (paper result ≡ read_reply bytes.now) × TracesLinks bytes.now ranks.new table.new }
{
    let first = read_plain(bytes);
    let passed = records_from(bytes, first.start, first.passed);
    let blocked = fill_all(passed, ranks, table);
    earlier_of(first, blocked)
}
