// The order question on an accepted trace.
ghost use Rattle.std.specs.Prelude.{◌≡◌};
ghost use Rattle.std.specs.Option.{option_copied};
ghost use Rattle.records.specs.Bytes.{decode};
ghost use Rattle.trace.specs.Reading.{Acceptable};
ghost use Rattle.order.specs.Fill.{events_in};
ghost use Rattle.order.specs.loops.TablePass.{TellsOrder};
ghost use Rattle.question.specs.loops.ChainPass.{ReadyChains, PassesChains};
ghost use Rattle.question.specs.Question.{order_paper, order_trace};

use crate::chains::{Asked, Passed, chain_pass};
use crate::from_table::table_pass;
use clocks::{Relation, has_space, relate};
use records::{EventId, Operation, access};
use trace::{Reason, Refusal};

// The chains of the rows asked for: by links that deliver in order, from the table; without one over the records.
fn pass_chains(
    recs: &[u8],
    events: usize,
    ranks: &[u16],
    asked: Asked,
    table: Option<&[u64]>,
) -> Passed
    requires { ReadyChains (decode recs.now) asked.width ranks.now × (events ≡ events_in (decode recs.now))
        × TellsOrder (decode recs.now) (option_copied table) }
    ensures { PassesChains (decode recs.now) asked.first asked.second asked.width result.position result.first result.second }
{
    match table {
        Some(words) => table_pass(recs, events, ranks, asked, words),
        None => chain_pass(recs, ranks, asked),
    }
}

// Events t and u of an accepted trace, whose order the table tells; without one no record is a send.
pub(crate) fn ask(
    recs: &[u8],
    events: usize,
    width: usize,
    clocks: &[u16],
    t: EventId,
    u: EventId,
    table: Option<&[u64]>,
) -> Result<Relation, Refusal>
    requires { Acceptable (decode recs.now) × (events ≡ events_in (decode recs.now)) × TellsOrder (decode recs.now) (option_copied table) }
    ensures { order_paper result ≡ order_trace (decode recs.now) events width clocks.now t.0 u.0 }
{
    let all = ranks::ranks(recs);
    let first = ranks::rank_of(&all, t);
    let second = ranks::rank_of(&all, u);
    if first == 0 {
        return Err(Reason::NotInTrace.at(Operation(0)));
    }
    if second == 0 {
        return Err(Reason::NotInTrace.at(Operation(0)));
    }
    if !has_space(width, events, clocks.len()) {
        return Err(Reason::ClockSpace.at(Operation(0)));
    }
    let x = first - 1;
    let y = second - 1;
    let asked = Asked {
        first: x as usize,
        second: y as usize,
        width: width,
    };
    let passed = pass_chains(recs, events, &all, asked, table);
    if passed.position < access::count(recs) {
        return Err(Reason::Chains.at(Operation((passed.position + 1) as u16)));
    }
    Ok(relate(clocks, width as u16, x, passed.first, y, passed.second))
}
