// The row of an event action straight from the table of bits that tells what happens before it.
ghost use Rattle.std.specs.Prelude.{◌≡◌, ◌<◌};
ghost use Rattle.order.specs.Links.{Links};
ghost use Rattle.records.specs.Bytes.{decode};
ghost use Rattle.bits.specs.Table.{bit_of};
ghost use Rattle.links.specs.Fill.{fill_all};
ghost use Rattle.clocks.specs.Rows.{rows_if};
ghost use Rattle.order.specs.loops.FromTable.{take_own, take_before, make_row, RoomToTake, RoomToMake, Tells, ReadyToMake, MakesRows};
ghost use Rattle.order.specs.Fill.{events_in, begin_position};
ghost use Rattle.order.specs.loops.Pass.{Are};
ghost use Rattle.order.specs.loops.PassEnds.{Ready, Passes};

use crate::rows::{Passed, begin_row};
use bits::get;
use clocks::clear_row;
use records::access;

// Row u at t's chain becomes t's own entry, where t is before u.
fn take_own(table: &[u64], t: usize, u: usize, width: usize, clocks: &mut [u16], chosen: &[u16])
    requires { RoomToTake width u clocks.old chosen.now × (t < u) }
    ensures { clocks.new ≡ rows_if (bit_of table.now t u)
        (take_own width u chosen.now t clocks.old) clocks.old }
{
    if get(table, t, u) {
        let c = chosen[t] as usize;
        clocks[u * width + c] = clocks[t * width + c];
    }
}

// Each event action before u, in order of begin, leaves its own entry at its chain in row u.
pub(crate) fn take_before(table: &[u64], u: usize, width: usize, clocks: &mut [u16], chosen: &[u16])
    requires { RoomToTake width u clocks.old chosen.now }
    ensures { clocks.new ≡ take_before (λ t. bit_of table.now t u) width u chosen.now u clocks.old }
{
    for t in 0..u {
        take_own(table, t, u, width, clocks, chosen);
    }
}

// Row u from the table: the chains taken after it, or more than the width where none is left for it.
pub(crate) fn make_row(
    table: &[u64],
    u: usize,
    width: usize,
    clocks: &mut [u16],
    sizes: &mut [u16],
    chosen: &mut [u16],
    chains: usize,
) -> usize
    requires { RoomToMake (bit_of table.now) width u (record { clocks = clocks.old; sizes = sizes.old; chosen = chosen.old; chains = chains }) }
    ensures { Are (make_row (bit_of table.now) width u
        (record { clocks = clocks.old; sizes = sizes.old; chosen = chosen.old; chains = chains }))
        clocks.new sizes.new chosen.new result }
{
    clear_row(clocks, width, u as u16);
    take_before(table, u, width, clocks, chosen);
    chosen[u] = 1024;
    begin_row(clocks, width, u, sizes, chosen, chains)
}

// How many rows were made, and the chains taken.
#[derive(Clone, Copy)]
pub(crate) struct MadeRows {
    pub rows: usize,
    pub chains: usize,
}

// All rows from the table, up to the first that needs more chains than the width has.
pub(crate) fn make_rows(
    table: &[u64],
    events: usize,
    width: usize,
    clocks: &mut [u16],
    sizes: &mut [u16],
    chosen: &mut [u16],
) -> MadeRows
    requires { ReadyToMake (bit_of table.now) events width clocks.old sizes.old chosen.old }
    ensures { (l : Links) → Tells (bit_of table.now) events l
        → MakesRows l events width clocks.old clocks.new chosen.new result.rows result.chains }
{
    let mut chains = 0;
    for u in 0..events {
        let next = make_row(table, u, width, clocks, sizes, chosen, chains);
        if width < next {
            return MadeRows {
                rows: u,
                chains: chains,
            };
        }
        chains = next;
    }
    MadeRows {
        rows: events,
        chains: chains,
    }
}

// The position of the begin of row u, or the number of records.
pub fn begin_of(recs: &[u8], u: usize) -> usize
    ensures { result ≡ begin_position (decode recs.now) u }
{
    let n = access::count(recs);
    let mut begun = 0usize;
    for i in 0..n {
        if access::kind_at(recs, i) == 1 {
            if begun == u {
                return i;
            }
            begun += 1;
        }
    }
    n
}

// All rows from the table.
pub(crate) fn pass_table(
    recs: &[u8],
    events: usize,
    ranks: &[u16],
    table: &[u64],
    clocks: &mut [u16],
    width: usize,
    sizes: &mut [u16],
    chosen: &mut [u16],
) -> Passed
    requires { Ready (decode recs.now) width ranks.now clocks.old sizes.old chosen.old
        × (events ≡ events_in (decode recs.now)) × (table.now ≡ (fill_all (decode recs.now)).words) }
    ensures { Passes (decode recs.now) width clocks.old clocks.new chosen.new result.chains result.position }
{
    let made = make_rows(table, events, width, clocks, sizes, chosen);
    Passed {
        chains: made.chains,
        position: begin_of(recs, made.rows),
    }
}
