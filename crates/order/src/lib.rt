// Happens-before, chains and vector clocks.
#![tactic(auto)]

pub mod from_table;
mod linking;
mod merge;
pub mod merging;
mod rows;

ghost use Rattle.std.specs.Prelude.{◌≡◌, length};
ghost use Rattle.std.specs.Option.{option_copied};
ghost use Rattle.trace.specs.Paper.{paper};
ghost use Rattle.trace.specs.Reading.{read_reply};
ghost use Rattle.order.specs.Fill.{no_chains};
ghost use Rattle.order.specs.Prepare.{asked, within, read_within};
ghost use Rattle.order.specs.loops.TablePass.{TellsLinks};
ghost use Rattle.order.specs.Paper.{Fills, Prepares};

use links::no_bits;
use records::{Operation, Trace, access};
use slices::{clear, zeros};
use trace::{Reason, Refusal};

// What filling finds, the number of chains used or why it is refused, with the trace to go on with: the one that was read where the call passes 22,
// else one with no records.
#[derive(Clone, Copy)]
pub struct Prepared {
    pub answer: Result<usize, Refusal>,
    pub trace: Trace,
}

// What a call asks about and is lent: the records from the lowest to the highest, from 1 to 0 none; the width of its clocks; the bytes of its work space.
#[derive(Clone, Copy)]
pub struct Call {
    pub lowest: Operation,
    pub highest: Operation,
    pub width: usize,
    pub room: usize,
}

// Are all records that are asked about in a trace of that many records?
fn has_records(call: Call, records: usize) -> bool
    ensures { result ≡ asked call.lowest.0 call.highest.0 records }
{
    1 <= call.lowest.0 && (call.highest.0 as usize) <= records
}

// A reading for a call that is lent `space` clocks: 11 where a record is not in the trace, 21 where the
// rows do not fit the clocks, 22 where there are more event actions than bytes.
fn read_within(reading: Result<Trace, Refusal>, call: Call, space: usize) -> Result<Trace, Refusal>
    ensures { paper result ≡ within (paper reading) call.lowest.0 call.highest.0 call.width space call.room }
{
    let t = reading?;
    if !has_records(call, t.records) {
        return Err(Reason::NotInTrace.at(Operation(0)));
    }
    if !clocks::has_space(call.width, t.events, space) {
        return Err(Reason::ClockSpace.at(Operation(0)));
    }
    if call.room < t.events {
        return Err(Reason::WorkSpace.at(Operation(0)));
    }
    Ok(t)
}

// Fills the lent clocks for a call whose reading is at hand; where there is a table of what happens before what, from that.
fn fill_within(
    bytes: &[u8],
    reading: Result<Trace, Refusal>,
    call: Call,
    clocks: &mut [u16],
    chosen: &mut [u16],
    ranks: &mut [u16; 1025],
    table: Option<&[u64]>,
) -> Prepared
    requires { (paper reading ≡ read_reply bytes.now) × (chosen.old ≡ no_chains) × TellsLinks bytes.now (option_copied table) }
    ensures { Prepares bytes.now (read_within bytes.now call.lowest.0 call.highest.0 call.width (length clocks.old) call.room)
        call.width clocks.old clocks.new chosen.new ranks.old ranks.new result.answer result.trace }
{
    let ready = read_within(reading, call, clocks.len());
    let t = match ready {
        Ok(t) => t,
        Err(why) => return rows::unfilled(why),
    };
    let answer = rows::fill_rows(
        access::records(bytes, t),
        t.events,
        call.width,
        clocks,
        chosen,
        ranks,
        table,
    );
    Prepared {
        answer: answer,
        trace: t,
    }
}

// The same for a trace with sends, read here. Not inlined, so that the table stands in no frame of a call for a trace without sends.
#[inline(never)]
fn prepare_linked(
    bytes: &[u8],
    call: Call,
    clocks: &mut [u16],
    chosen: &mut [u16],
    ranks: &mut [u16; 1025],
) -> Prepared
    requires { chosen.old ≡ no_chains }
    ensures { Prepares bytes.now (read_within bytes.now call.lowest.0 call.highest.0 call.width (length clocks.old) call.room)
        call.width clocks.old clocks.new chosen.new ranks.old ranks.new result.answer result.trace }
{
    let mut read_ranks = zeros::<u16, 1025>();
    let mut table = no_bits();
    let reading = trace::read_linked(bytes, &mut read_ranks, &mut table);
    fill_within(bytes, reading, call, clocks, chosen, ranks, Some(&table))
}

// Reads the trace once and fills the lent clocks, for a call: 11 comes before 21, and 22 between 21 and 23. Gives the chain of each row in `chosen`,
// and the ranks of all events in `ranks` where the call passes 22.
pub fn prepare(
    bytes: &[u8],
    call: Call,
    clocks: &mut [u16],
    chosen: &mut [u16; 1024],
    ranks: &mut [u16; 1025],
) -> Prepared
    ensures { Prepares bytes.now (read_within bytes.now call.lowest.0 call.highest.0 call.width (length clocks.old) call.room)
        call.width clocks.old clocks.new chosen.new ranks.old ranks.new result.answer result.trace }
{
    clear(chosen, 1024);
    let first = trace::read_plain(bytes);
    if first.sends {
        return prepare_linked(bytes, call, clocks, chosen, ranks);
    }
    let reading = first.reading;
    fill_within(bytes, reading, call, clocks, chosen, ranks, None)
}

// Fills the lent clocks with the clock rows of the trace. No trace has more event actions than 1,024.
pub fn fill(bytes: &[u8], width: usize, clocks: &mut [u16]) -> Result<usize, Refusal>
    ensures { Fills bytes.now width clocks.old clocks.new result }
{
    let mut chosen = zeros::<u16, 1024>();
    let mut ranks = zeros::<u16, 1025>();
    let call = Call {
        lowest: Operation(1),
        highest: Operation(0),
        width,
        room: 1024,
    };
    let first = trace::read_plain(bytes);
    if first.sends {
        let prepared = prepare_linked(bytes, call, clocks, &mut chosen, &mut ranks);
        return prepared.answer;
    }
    let reading = first.reading;
    let prepared = fill_within(bytes, reading, call, clocks, &mut chosen, &mut ranks, None);
    prepared.answer
}
