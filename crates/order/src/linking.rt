// The walk along the links when rows are filled: the first link that comes to a row copies, whatever the row held, any further one merges, and
// each leaves a hint from which chain on the chain of the row is looked for.
ghost use Rattle.std.specs.Prelude.{◌≡◌, ◌-◌, max, eqb, get_or, set};
ghost use Rattle.records.specs.Bytes.{decode};
ghost use Rattle.clocks.specs.Rows.{rows_if, merge_row, copy_row};
ghost use Rattle.order.specs.loops.Walk.{ordering_by, TakesLink, FillWalks};

use clocks::{copy_row, merge_row};
use ranks::Ordering;
use records::access;
use slices::get;

fn hint_of(c: u16) -> u16
    ensures { result ≡ 1024 - c }
{
    if 1024 < c {
        return 0;
    }
    1024 - c
}

// A link comes from row p to row u: no chain below that of p has all its members in row p.
fn note(hints: &mut [u16], p: u16, u: u16)
    ensures { hints.new ≡ set hints.old u (max (get_or hints.old u 0) (1024 - get_or hints.old p 0)) }
{
    let hint = hint_of(get(hints, p as usize));
    let at = u as usize;
    if hints.len() <= at {
        return;
    }
    if hints[at] < hint {
        hints[at] = hint;
    }
}

fn take_link(width: usize, chains: usize, p: u16, u: u16, clocks: &mut [u16], hints: &mut [u16])
    ensures clocks_after { clocks.new ≡ rows_if (eqb (get_or hints.old u 0) 0)
        (copy_row width chains p u clocks.old) (merge_row width chains p u clocks.old) }
    ensures hints_after { hints.new ≡ set hints.old u (max (get_or hints.old u 0) (1024 - get_or hints.old p 0)) }
{
    let hint = get(hints, u as usize);
    note(hints, p, u);
    if hint == 0 {
        copy_row(clocks, width, chains, p, u);
        return;
    }
    merge_row(clocks, width, chains, p, u);
}

// The record at position i. Is it a begin?
fn pass_record(
    recs: &[u8],
    ranks: &[u16],
    i: usize,
    width: usize,
    chains: usize,
    clocks: &mut [u16],
    hints: &mut [u16],
) -> bool
    ensures { TakesLink width chains (ordering_by (decode recs.now) ranks.now i)
        clocks.old hints.old clocks.new hints.new result }
{
    let said = ranks::ordering_at(recs, ranks, i);
    match said {
        Ordering::Link(p, u) => {
            take_link(width, chains, p, u, clocks, hints);
            false
        }
        Ordering::Begin(_) => true,
        Ordering::Nothing => false,
    }
}

// From record `from` on up to the next begin. Gives the position of that begin, or the number of records; `from` where that is larger.
pub(crate) fn pass_links(
    recs: &[u8],
    ranks: &[u16],
    width: usize,
    chains: usize,
    clocks: &mut [u16],
    hints: &mut [u16],
    from: usize,
) -> usize
    ensures { FillWalks (decode recs.now) ranks.now width chains from
        clocks.old hints.old clocks.new hints.new result }
{
    let n = access::count(recs);
    let first = access::skip_accesses(recs, from);
    for i in first..n {
        if pass_record(recs, ranks, i, width, chains, clocks, hints) {
            return i;
        }
    }
    first.max(n)
}
