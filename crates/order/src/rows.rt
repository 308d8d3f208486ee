// All rows in one pass over the records: at a link the earlier row is merged into the later one, and at a begin the chain is read off the merged row.
ghost use Rattle.std.specs.Prelude.{◌≡◌, true, false, ◌+◌, ◌*◌, ◌-◌, ◌≤◌, ◌<◌, Err, min, eqb, length, get_or};
ghost use Rattle.records.specs.Bytes.{decode};
ghost use Rattle.records.specs.Kinds.{has_send};
ghost use Rattle.links.specs.Fill.{fill_all};
ghost use Rattle.trace.specs.Reply.{Reply};
ghost use Rattle.trace.specs.Reading.{Acceptable};
ghost use Rattle.clocks.specs.Rows.{space_for, rows_if, clear_row};
ghost use Rattle.order.specs.Fill.{events_in, no_chains};
ghost use Rattle.order.specs.Paper.{fill_paper};
ghost use Rattle.order.specs.Prepare.{no_trace};
ghost use Rattle.std.specs.Option.{option_copied};
ghost use Rattle.order.specs.loops.TablePass.{TellsOrder};
ghost use Rattle.order.specs.loops.FillsTrace.{FillsTrace};
ghost use Rattle.order.specs.loops.PassEnds.{Ready, Passes};
ghost use Rattle.order.specs.loops.Pass.{Rows, choose_in, NoneFull, begin_row, RoomToChoose, RoomToBegin, Are};

use crate::from_table::pass_table;
use crate::linking::pass_links;
use crate::{Prepared, merge};
use clocks::{add_one, clear_row, clear_rows};
use records::{Operation, Trace, access};
use slices::{clear, zeros};
use trace::{Reason, Refusal};

// The chain of row u, by its hint: no chain below 1,024 less that has all its members in the row.
fn choose_hinted(
    clocks: &[u16],
    width: usize,
    u: usize,
    sizes: &[u16],
    chains: usize,
    hint: u16,
) -> usize
    requires { RoomToChoose width u clocks.now sizes.now chains × (hint ≤ 1024)
        × NoneFull (u * width) clocks.now sizes.now (min chains (1024 - hint)) }
    ensures { result ≡ choose_in width u clocks.now sizes.now chains }
{
    let from = 1024 - (hint as usize);
    if chains <= from {
        return chains;
    }
    merge::choose(clocks, width, u, sizes, from, chains)
}

// Row u begins: the chains taken after it, or more than the width where none is left for it.
pub(crate) fn begin_row(
    clocks: &mut [u16],
    width: usize,
    u: usize,
    sizes: &mut [u16],
    chosen: &mut [u16],
    chains: usize,
) -> usize
    requires { RoomToBegin width u (record { clocks = clocks.old; sizes = sizes.old; chosen = chosen.old; chains = chains }) }
    ensures { Are (begin_row width u (record { clocks = clocks.old; sizes = sizes.old; chosen = chosen.old; chains = chains }))
        clocks.new sizes.new chosen.new result }
{
    let c = choose_hinted(clocks, width, u, sizes, chains, chosen[u]);
    if width <= c {
        return width + 1;
    }
    let a = u * width;
    let e = a + width;
    add_one(&mut clocks[a..e], c);
    sizes[c] += 1;
    chosen[u] = c as u16;
    if chains <= c {
        return c + 1;
    }
    chains
}

// Zeros in row u before it begins, where no link came to it.
fn clear_fresh(clocks: &mut [u16], width: usize, u: usize, chosen: &[u16])
    requires { (u < length chosen.now) × (u < 65536) }
    ensures { clocks.new ≡ rows_if (eqb (get_or chosen.now u 0) 0) (clear_row width u clocks.old) clocks.old }
{
    if chosen[u] == 0 {
        clear_row(clocks, width, u as u16);
    }
}

// How far the pass came: the chains taken, and the position of the begin that needs one more than the width has, or the number of records.
#[derive(Clone, Copy)]
pub(crate) struct Passed {
    pub chains: usize,
    pub position: usize,
}

// Over the records, where none is a send.
fn pass(
    recs: &[u8],
    ranks: &[u16],
    clocks: &mut [u16],
    width: usize,
    sizes: &mut [u16],
    chosen: &mut [u16],
) -> Passed
    requires { Ready (decode recs.now) width ranks.now clocks.old sizes.old chosen.old × (has_send (decode recs.now) ≡ false) }
    ensures { Passes (decode recs.now) width clocks.old clocks.new chosen.new result.chains result.position }
{
    let n = access::count(recs);
    let mut chains = 0;
    let mut u = 0;
    let mut i = 0;
    while i < n {
        clear_fresh(clocks, width, u, chosen);
        let next = begin_row(clocks, width, u, sizes, chosen, chains);
        if width < next {
            return Passed {
                chains: chains,
                position: i,
            };
        }
        chains = next;
        i = pass_links(recs, ranks, width, chains, clocks, chosen, i + 1);
        u += 1;
    }
    Passed {
        chains: chains,
        position: i,
    }
}

// By links that deliver in order, from the table; without one over the records.
fn pass_rows(
    recs: &[u8],
    events: usize,
    ranks: &[u16],
    table: Option<&[u64]>,
    clocks: &mut [u16],
    width: usize,
    sizes: &mut [u16],
    chosen: &mut [u16],
) -> Passed
    requires { Ready (decode recs.now) width ranks.now clocks.old sizes.old chosen.old
        × (events ≡ events_in (decode recs.now)) × TellsOrder (decode recs.now) (option_copied table) }
    ensures { Passes (decode recs.now) width clocks.old clocks.new chosen.new result.chains result.position }
{
    match table {
        Some(words) => pass_table(recs, events, ranks, words, clocks, width, sizes, chosen),
        None => pass(recs, ranks, clocks, width, sizes, chosen),
    }
}

// Refused before the clocks are filled.
pub(crate) fn unfilled(why: Refusal) -> Prepared
    ensures { (result.answer ≡ Err why) × (result.trace ≡ no_trace) }
{
    Prepared {
        answer: Err(why),
        trace: Trace {
            start: 0,
            records: 0,
            events: 0,
            sends: false,
        },
    }
}

// Refused at the begin at that position, whose chain has no place in the width.
fn past_width(position: usize) -> Result<usize, Refusal>
    requires { position < 65535 }
    ensures { fill_paper result ≡ Reply.refused 23 (position + 1) }
{
    Err(Reason::Chains.at(Operation((position + 1) as u16)))
}

// The rows of an accepted trace that has the space for them, the chain of each row, all 0 after 23, and the ranks of all events; from the
// table, where there is one.
pub(crate) fn fill_rows(
    recs: &[u8],
    events: usize,
    width: usize,
    clocks: &mut [u16],
    chosen: &mut [u16],
    ranks: &mut [u16; 1025],
    table: Option<&[u64]>,
) -> Result<usize, Refusal>
    requires { Acceptable (decode recs.now) × (events ≡ events_in (decode recs.now))
        × (space_for width events (length clocks.old) ≡ true) × (chosen.old ≡ no_chains)
        × TellsOrder (decode recs.now) (option_copied table) }
    ensures { FillsTrace (decode recs.now) events width clocks.old clocks.new result
        chosen.new ranks.new }
{
    let rows = events as u16;
    ranks::fill_ranks(recs, ranks);
    let mut sizes = zeros::<u16, 1024>();
    let passed = pass_rows(
        recs, events, ranks, table, clocks, width, &mut sizes, chosen,
    );
    let position = passed.position;
    if position < access::count(recs) {
        clear_rows(clocks, width, rows);
        clear(chosen, 1024);
        return past_width(position);
    }
    Ok(passed.chains)
}
