// The calls from C: numbers and slices only. A call's result is 0 or the refusal's number; what it finds besides is stored through its last parameters, and
// each of these is stored in every case, 0 where there is nothing to give.
#![tactic(auto)]

pub mod compacting;
mod give;
pub mod recording;

ghost use Rattle.std.specs.Prelude.{true, false};
ghost use Rattle.job_order.specs.Calls.{Reads, FillsOut, Answers, ListsOut, AsksPair};

use records::{EventId, Operation};

// Reads the trace that the bytes end with.
#[unsafe(no_mangle)]
pub extern "C" fn jco_read(
    bytes: &[u8],
    place: &mut u16,
    start: &mut usize,
    records: &mut usize,
    events: &mut usize,
) -> u16
    ensures { Reads bytes.now result place.new start.new records.new events.new }
{
    let given = give::reading(trace::read(bytes));
    *place = given.place;
    *start = given.start;
    *records = given.records;
    *events = given.events;
    given.number
}

// Fills the lent clocks with the clock rows of the trace.
#[unsafe(no_mangle)]
pub extern "C" fn jco_fill(
    bytes: &[u8],
    width: usize,
    clocks: &mut [u16],
    place: &mut u16,
    chains: &mut usize,
) -> u16
    ensures { FillsOut bytes.now width clocks.old clocks.new result place.new chains.new }
{
    let given = give::filling(order::fill(bytes, width, clocks));
    *place = given.place;
    *chains = given.chains;
    given.number
}

// The order question: which way round do the actions of events t and u stand?
#[unsafe(no_mangle)]
pub extern "C" fn jco_order(
    bytes: &[u8],
    width: usize,
    clocks: &[u16],
    t: u16,
    u: u16,
    place: &mut u16,
    relation: &mut u8,
) -> u16
    ensures { Answers bytes.now width clocks.now t u result place.new relation.new }
{
    let answer = question::ask_order(bytes, width, clocks, EventId(t), EventId(u));
    let given = give::answer(answer);
    *place = given.place;
    *relation = given.relation;
    given.number
}

// The list of all races of the trace.
#[unsafe(no_mangle)]
pub extern "C" fn jco_all_races(
    bytes: &[u8],
    width: usize,
    clocks: &mut [u16],
    work: &mut [u8],
    list: &mut [u16],
    place: &mut u16,
    events: &mut usize,
    records: &mut usize,
    chains: &mut usize,
    count: &mut usize,
) -> u16
    ensures { ListsOut false bytes.now width clocks.old clocks.new work.old work.new
        list.old list.new result place.new events.new records.new chains.new count.new }
{
    let listing = races::all_races(bytes, width, clocks, work, list);
    let given = give::listing(listing);
    *place = given.place;
    *events = given.events;
    *records = given.records;
    *chains = given.chains;
    *count = given.count;
    given.number
}

// The short list of the trace.
#[unsafe(no_mangle)]
pub extern "C" fn jco_short_list(
    bytes: &[u8],
    width: usize,
    clocks: &mut [u16],
    work: &mut [u8],
    list: &mut [u16],
    place: &mut u16,
    events: &mut usize,
    records: &mut usize,
    chains: &mut usize,
    count: &mut usize,
) -> u16
    ensures { ListsOut true bytes.now width clocks.old clocks.new work.old work.new
        list.old list.new result place.new events.new records.new chains.new count.new }
{
    let listing = races::short_list(bytes, width, clocks, work, list);
    let given = give::listing(listing);
    *place = given.place;
    *events = given.events;
    *records = given.records;
    *chains = given.chains;
    *count = given.count;
    given.number
}

// The pair question: records a and b.
#[unsafe(no_mangle)]
pub extern "C" fn jco_ask_pair(
    bytes: &[u8],
    width: usize,
    clocks: &mut [u16],
    work: &mut [u8],
    list: &mut [u16],
    a: u16,
    b: u16,
    place: &mut u16,
    covered: &mut u8,
    count: &mut usize,
) -> u16
    ensures { AsksPair bytes.now width clocks.old clocks.new work.old work.new
        list.old list.new a b result place.new covered.new count.new }
{
    let answer = pair::ask_pair(bytes, width, clocks, work, list, Operation(a), Operation(b));
    let given = give::pair(answer);
    *place = given.place;
    *covered = given.covered;
    *count = given.count;
    given.number
}
