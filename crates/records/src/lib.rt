// The records of a trace: identifiers, where records stand in the bytes and what each says, read and written.
#![tactic(auto)]

pub mod access;
pub mod kinds;
pub mod search;
pub mod store;

pub use kinds::Kind;

// An event's number, 1 to 1,024: the source's EventId.
#[derive(Clone, Copy, PartialEq, Eq, PartialOrd, Ord)]
pub struct EventId(pub u16);

// A cell's number, 1 to 1,024: the source's Var.
#[derive(Clone, Copy, PartialEq, Eq, PartialOrd, Ord)]
pub struct Var(pub u16);

// A record's number, from 1 in trace order: the source's Operation.
#[derive(Clone, Copy, PartialEq, Eq, PartialOrd, Ord)]
pub struct Operation(pub u16);

// One record of a trace.
#[derive(Clone, Copy, PartialEq, Eq)]
pub struct Record {
    pub kind: u8,
    pub first: u16,
    pub second: u16,
}

// A record's bytes, and the trailer's.
pub const RECORD_BYTES: usize = 5;

pub const TRAILER_BYTES: usize = 8;

// An accepted trace: where record 1 starts in the bytes, how many records and how many event actions, and whether a record is a send.
#[derive(Clone, Copy, PartialEq, Eq)]
pub struct Trace {
    pub start: usize,
    pub records: usize,
    pub events: usize,
    pub sends: bool,
}
