// The chains by links that deliver in order, from the table of bits.
ghost use Rattle.std.specs.Prelude.{◌≡◌, ◌≤◌, ◌<◌};
ghost use Rattle.records.specs.Bytes.{decode};
ghost use Rattle.bits.specs.Table.{bit_of};
ghost use Rattle.links.specs.Fill.{fill_all};
ghost use Rattle.order.specs.Links.{Links};
ghost use Rattle.order.specs.Fill.{events_in};
ghost use Rattle.order.specs.loops.FromTable.{Tells};
ghost use Rattle.question.specs.loops.ChainPass.{enter_chain, no_members, ReadyChains, PassesChains};
ghost use Rattle.question.specs.loops.TableChains.{bit_chain, ReadyRows, EntersRows};

use crate::chains::{Asked, Members, Passed};
use bits::get;
use order::from_table::begin_of;

// The lowest chain whose last member is before row u, or a new one.
fn chain_before(table: &[u64], members: &Members, u: usize) -> usize
    requires { members.now.chains ≤ 1024 }
    ensures { result ≡ bit_chain (bit_of table.now) members.now.lasts members.now.chains u }
{
    for c in 0..members.chains {
        if get(table, members.lasts[c] as usize, u) {
            return c;
        }
    }
    members.chains
}

// Row u enters its chain.
fn enter_row(table: &[u64], members: &mut Members, asked: Asked, u: usize)
    requires { (asked.width ≤ 1024) × (u < 1024) × (members.old.chains ≤ 1024) }
    ensures { members.new ≡ enter_chain asked.first asked.second asked.width u members.old
        (bit_chain (bit_of table.now) members.old.lasts members.old.chains u) }
{
    let c = chain_before(table, members, u);
    members.enter(asked, u, c);
}

// All rows, up to the first that needs more chains than the width has; how many entered a chain.
fn enter_rows(table: &[u64], events: usize, asked: Asked, members: &mut Members) -> usize
    requires { ReadyRows (bit_of table.now) events asked.width × (members.old ≡ no_members) }
    ensures { (l : Links) → Tells (bit_of table.now) events l
        → EntersRows l events asked.first asked.second asked.width result members.new.first members.new.second }
{
    for u in 0..events {
        enter_row(table, members, asked, u);
        if asked.width < members.chains {
            return u;
        }
    }
    events
}

// The chains of the rows asked for.
pub(crate) fn table_pass(
    recs: &[u8],
    events: usize,
    ranks: &[u16],
    asked: Asked,
    table: &[u64],
) -> Passed
    requires { ReadyChains (decode recs.now) asked.width ranks.now × (events ≡ events_in (decode recs.now)) ×
        (table.now ≡ (fill_all (decode recs.now)).words) }
    ensures { PassesChains (decode recs.now) asked.first asked.second asked.width result.position result.first result.second }
{
    let mut members = Members::none();
    let entered = enter_rows(table, events, asked, &mut members);
    Passed {
        position: begin_of(recs, entered),
        first: members.first,
        second: members.second,
    }
}
