// What happens before what, kept as a table of bits while rows are raised, and the rows made from it again.
ghost use Rattle.std.specs.Prelude.{◌≡◌, ◌++◌, ◌+◌, ◌*◌, ◌≤◌, ◌<◌, length, get_or, drop};
ghost use Rattle.slices.specs.Slices.{zeros};
ghost use Rattle.bits.specs.Table.{bit_of};
ghost use Rattle.clocks.specs.Rows.{rows_if};
ghost use Rattle.order.specs.Clocks.{clocks_of};
ghost use Rattle.order.specs.loops.FromTable.{take_own, take_before, RoomToTake};
ghost use Rattle.races.specs.loops.FilledClocks.{RowsIn};
ghost use Rattle.races.specs.loops.Keeping.{Kept, MayKeep, Restorable};

use crate::filled::Layout;
use crate::refilling::add_to_row;
use bits::{get, put};
use clocks::clear_row;

// Bit t of row u: whether t happens before u.
fn keep_bit(layout: Layout<'_>, clocks: &[u16], t: usize, u: usize, table: &mut [u64])
    requires { RowsIn layout.chosen.now layout.width clocks.now t u × (t < u) × (u < 1024)
        × Kept layout.chosen.now layout.width clocks.now u t table.old }
    ensures { Kept layout.entry.chosen.now layout.entry.width clocks.now u (t + 1) table.new }
{
    if layout.comes_before(clocks, t, u) {
        put(table, t, u);
    }
}

fn keep_row(layout: Layout<'_>, clocks: &[u16], u: usize, table: &mut [u64])
    requires { MayKeep layout.chosen.now layout.events layout.width clocks.now × (u < layout.events)
        × Kept layout.chosen.now layout.width clocks.now u 0 table.old }
    ensures { Kept layout.entry.chosen.now layout.entry.width clocks.now (u + 1) 0 table.new }
{
    for t in 0..u {
        keep_bit(layout, clocks, t, u, table);
    }
}

// What happens before each row, into a table without bits.
pub(crate) fn keep_rows(layout: Layout<'_>, clocks: &[u16], table: &mut [u64])
    requires { MayKeep layout.chosen.now layout.events layout.width clocks.now × (table.old ≡ zeros 8704) }
    ensures { Kept layout.entry.chosen.now layout.entry.width clocks.now layout.entry.events 0 table.new }
{
    for u in 0..layout.events {
        keep_row(layout, clocks, u, table);
    }
}

// Row u at t's chain becomes t's own entry, where t is before u. Written again here: in the crate below, where rows are filled from a table, it has a
// `requires`, so it is not public.
fn take_own(table: &[u64], layout: Layout<'_>, clocks: &mut [u16], t: usize, u: usize)
    requires { RoomToTake layout.width u clocks.old layout.chosen.now × (t < u) }
    ensures { clocks.new ≡ rows_if (bit_of table.now t u)
        (take_own layout.entry.width u layout.entry.chosen.now t clocks.old) clocks.old }
{
    if get(table, t, u) {
        let c = layout.chosen[t] as usize;
        clocks[u * layout.width + c] = clocks[t * layout.width + c];
    }
}

fn take_before(table: &[u64], layout: Layout<'_>, clocks: &mut [u16], u: usize)
    requires { RoomToTake layout.width u clocks.old layout.chosen.now }
    ensures { clocks.new ≡ take_before (λ t. bit_of table.now t u) layout.entry.width u layout.entry.chosen.now u clocks.old }
{
    for t in 0..u {
        take_own(table, layout, clocks, t, u);
    }
}

// The rows from the table, whatever they hold.
pub(crate) fn restore_rows(table: &[u64], layout: Layout<'_>, clocks: &mut [u16])
    requires { Restorable (bit_of table.now) layout.events layout.width layout.chosen.now clocks.old }
    ensures { (f : Restorable (bit_of table.now) layout.entry.events layout.entry.width layout.entry.chosen.now clocks.old)
        → clocks.new ≡ clocks_of f.links layout.entry.width layout.entry.events ++ drop (layout.entry.events * layout.entry.width) clocks.old }
{
    for u in 0..layout.events {
        clear_row(clocks, layout.width, u as u16);
        take_before(table, layout, clocks, u);
        add_to_row(clocks, layout.width, u, layout.chosen[u] as usize);
    }
}
