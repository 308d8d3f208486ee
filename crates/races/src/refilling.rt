// The clock rows once more, where the chain of each row is known.
ghost use Rattle.std.specs.Prelude.{◌≡◌, ◌++◌, ◌+◌, ◌*◌, ◌≤◌, ◌<◌, length, get_or, drop};
ghost use Rattle.records.specs.Bytes.{decode};
ghost use Rattle.order.specs.Fill.{events_in, trace_clocks};
ghost use Rattle.order.specs.loops.Pass.{tick};
ghost use Rattle.races.specs.loops.Refilling.{Refillable};

use crate::filled::Layout;
use clocks::{add_one, clear_rows};
use order::merging::merge_links;

// One more at entry c of row u.
pub(crate) fn add_to_row(clocks: &mut [u16], width: usize, u: usize, c: usize)
    requires { (u * width + width ≤ length clocks.old) × (c < width) × (get_or clocks.old (u * width + c) 0 < 65535) }
    ensures { clocks.new ≡ tick width u c clocks.old }
{
    let a = u * width;
    let e = a + width;
    add_one(&mut clocks[a..e], c);
}

// Fills the rows anew, whatever they hold.
pub(crate) fn refill(layout: Layout<'_>, clocks: &mut [u16])
    requires { Refillable (decode layout.recs.now) layout.ranks.now layout.chosen.now layout.events layout.width clocks.old }
    ensures { clocks.new ≡ trace_clocks (decode layout.entry.recs.now) layout.entry.width
        ++ drop (events_in (decode layout.entry.recs.now) * layout.entry.width) clocks.old }
{
    clear_rows(clocks, layout.width, layout.events as u16);
    let mut chains = 0;
    let mut i = 0;
    for u in 0..layout.events {
        let c = layout.chosen[u] as usize;
        add_to_row(clocks, layout.width, u, c);
        chains = chains.max(c + 1);
        i = merge_links(
            layout.recs,
            layout.ranks,
            layout.width,
            chains,
            clocks,
            i + 1,
        );
    }
}
