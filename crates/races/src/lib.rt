// The races of a trace: the list of all of them, and the short list.
#![tactic(auto)]

mod candidates;
mod filled;
mod keeping;
mod leading;
mod lists;
mod racing;
mod raising;
mod refilling;

ghost use Rattle.std.specs.Prelude.{true, false};
ghost use Rattle.races.specs.Paper.{Lists};

use trace::Refusal;

// An entry's numbers, in this order: first, second, cell, shape (1 ww, 2 wr, 3 rw) and mark (1 open, 0 covered).
pub const ENTRY_NUMBERS: usize = 5;

// A list that was made: its event actions, records, chains used and entries.
#[derive(Clone, Copy)]
pub struct Summary {
    pub events: usize,
    pub records: usize,
    pub chains: usize,
    pub count: usize,
}

// The list of all races of a trace, its entries ordered by second record, then first.
pub fn all_races(
    bytes: &[u8],
    width: usize,
    clocks: &mut [u16],
    work: &mut [u8],
    list: &mut [u16],
) -> Result<Summary, Refusal>
    ensures { Lists false bytes.now width clocks.old clocks.new work.old work.new
        list.old list.new result }
{
    lists::list_races(bytes, width, clocks, work, list, false)
}

// The short list of a trace: the neighbouring accesses that race, as entries of the same form.
pub fn short_list(
    bytes: &[u8],
    width: usize,
    clocks: &mut [u16],
    work: &mut [u8],
    list: &mut [u16],
) -> Result<Summary, Refusal>
    ensures { Lists true bytes.now width clocks.old clocks.new work.old work.new
        list.old list.new result }
{
    lists::list_races(bytes, width, clocks, work, list, true)
}
