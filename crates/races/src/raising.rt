// The marks of a list's entries by the rows of the combined order, happens-before and the races of the list: made in place in the lent clocks, event
// action by event action.
ghost use Rattle.std.specs.Prelude.{◌≡◌, true, ℕ, ◌+◌, ◌*◌, ◌-◌, ◌≤◌, ◌<◌, max, length, get_or};
ghost use Rattle.records.specs.Bytes.{decode};
ghost use Rattle.races.specs.loops.FilledClocks.{FilledClocks, RowsIn};
ghost use Rattle.races.specs.Lists.{entry_numbers};
ghost use Rattle.races.specs.loops.Marking.{first};
ghost use Rattle.races.specs.loops.Raising.{Unmarked, MarksList, row_in, mark_in, Markable, MarksSecond, raise_by, raise_down, MarksAll};
ghost use Rattle.races.specs.loops.Raising.{by_records, by_clocks, onward, MayGo, Went};
ghost use Rattle.races.specs.loops.Leading.{MayLead};

use crate::ENTRY_NUMBERS;
use crate::filled::Layout;
use crate::keeping::{keep_rows, restore_rows};
use crate::leading::lead_in;
use crate::refilling::refill;
use clocks::merge_row;
use links::no_bits;
use order::merging::merge_links;
use ranks::row_at;

// The row of the record with that number.
fn row_of(recs: &[u8], ranks: &[u16], number: u16) -> usize
    requires { 0 < number }
    ensures { (result ≡ row_in (decode recs.now) ranks.now (number - 1)) × (result < 65536) }
{
    row_at(recs, ranks, (number - 1) as usize)
}

// 0 where row t leads to row u as it stands, else 1.
fn mark_of(layout: Layout<'_>, clocks: &[u16], t: usize, u: usize) -> u16
    requires { RowsIn layout.chosen.now layout.width clocks.now t u }
    ensures { result ≡ mark_in layout.entry.chosen.now layout.entry.width clocks.now t u }
{
    if layout.comes_before(clocks, t, u) {
        0
    } else {
        1
    }
}

// Marks the entries of one second access of row u, from k on; the entry after them.
fn mark_second(
    layout: Layout<'_>,
    clocks: &[u16],
    u: usize,
    list: &mut [u16],
    k: usize,
    count: usize,
) -> usize
    requires { Markable (decode layout.recs.now) layout.ranks.now layout.chosen.now layout.width clocks.now u list.old k count }
    ensures { MarksSecond (decode layout.entry.recs.now) list.old list.new k count result }
{
    let second = list[ENTRY_NUMBERS * k + 1];
    for e in k..count {
        if list[ENTRY_NUMBERS * e + 1] != second {
            return e;
        }
        let t = row_of(layout.recs, layout.ranks, list[ENTRY_NUMBERS * e]);
        list[ENTRY_NUMBERS * e + 4] = mark_of(layout, clocks, t, u);
    }
    count
}

// Raises row u by entry j, where that is open.
fn raise_by(layout: Layout<'_>, chains: usize, clocks: &mut [u16], u: usize, list: &[u16], j: usize)
    requires { (entry_numbers * j + entry_numbers ≤ length list.now) × (u < 65536) × (0 < first list.now j) }
    ensures { clocks.new
        ≡ raise_by (decode layout.entry.recs.now) layout.entry.ranks.now layout.entry.width chains u list.now j clocks.old }
{
    if list[ENTRY_NUMBERS * j + 4] == 1 {
        let t = row_of(layout.recs, layout.ranks, list[ENTRY_NUMBERS * j]);
        merge_row(clocks, layout.width, chains, t as u16, u as u16);
    }
}

// Raises row u by the open entries from k on, before e, the last first, down to the first one whose first access writes.
fn raise(
    layout: Layout<'_>,
    chains: usize,
    clocks: &mut [u16],
    u: usize,
    list: &[u16],
    k: usize,
    e: usize,
)
    requires { (k ≤ e) × (entry_numbers * e ≤ length list.now) × (u < 65536) × ((i : ℕ) → k ≤ i → i < e → 0 < first list.now i) }
    ensures { clocks.new
        ≡ raise_down (decode layout.entry.recs.now) layout.entry.ranks.now layout.entry.width chains u list.now k (e - k) clocks.old }
{
    for j in (k..e).rev() {
        raise_by(layout, chains, clocks, u, list, j);
        if list[ENTRY_NUMBERS * j + 3] != 3 {
            return;
        }
    }
}

// The chains taken by row u and those before, where those before took that many.
fn more_chains(chosen: &[u16], chains: usize, u: usize) -> usize
    requires { u < length chosen.now }
    ensures { result ≡ max chains (get_or chosen.now u 0 + 1) }
{
    chains.max(chosen[u] as usize + 1)
}

// Where raising stands: at that row, and the chains taken by it and those before. Without a send, position is that of the row's begin.
#[derive(Clone, Copy)]
struct Stand {
    row: usize,
    position: usize,
    chains: usize,
}

// Goes on to row u along the records: rows are merged along the links.
fn walk_on(layout: Layout<'_>, clocks: &mut [u16], s: Stand, u: usize) -> Stand
    requires { MayGo (decode layout.recs.now) layout.chosen.now layout.width clocks.old s.row s.position u }
    ensures { Went (by_records layout.entry.chosen.now layout.entry.width (decode layout.entry.recs.now) layout.entry.ranks.now)
        s.row s.position s.chains clocks.old u result.row result.position result.chains clocks.new }
{
    let mut i = s.position;
    let mut chains = s.chains;
    for t in s.row..u {
        i = merge_links(
            layout.recs,
            layout.ranks,
            layout.width,
            chains,
            clocks,
            i + 1,
        );
        chains = more_chains(layout.chosen, chains, t + 1);
    }
    Stand {
        row: u,
        position: i,
        chains: chains,
    }
}

// Goes on to row u by the clocks alone.
fn lead_on(layout: Layout<'_>, clocks: &mut [u16], s: Stand, u: usize) -> Stand
    requires { (s.row ≤ u) × MayLead layout.chosen.now layout.width clocks.old u }
    ensures { Went (by_clocks layout.entry.chosen.now layout.entry.width) s.row s.position s.chains
        clocks.old u result.row result.position result.chains clocks.new }
{
    let mut chains = s.chains;
    for t in s.row..u {
        lead_in(layout.chosen, layout.width, chains, clocks, t + 1);
        chains = more_chains(layout.chosen, chains, t + 1);
    }
    Stand {
        row: u,
        position: s.position,
        chains: chains,
    }
}

// Goes on to row u.
fn go_on(layout: Layout<'_>, clocks: &mut [u16], s: Stand, u: usize) -> Stand
    requires { MayGo (decode layout.recs.now) layout.chosen.now layout.width clocks.old s.row s.position u }
    ensures { Went (onward (decode layout.entry.recs.now) layout.entry.ranks.now layout.entry.chosen.now layout.entry.width)
        s.row s.position s.chains clocks.old u result.row result.position result.chains clocks.new }
{
    if layout.sends {
        lead_on(layout, clocks, s, u)
    } else {
        walk_on(layout, clocks, s, u)
    }
}

// Marks that many entries. The clocks are filled before; afterwards their rows hold other things.
fn mark_all(layout: Layout<'_>, clocks: &mut [u16], list: &mut [u16], count: usize)
    requires { FilledClocks (decode layout.recs.now) layout.ranks.now layout.chosen.now layout.width clocks.old
        × Unmarked (decode layout.recs.now) list.old count }
    ensures { MarksAll (decode layout.entry.recs.now) layout.entry.width clocks.old clocks.new list.old list.new count }
{
    let mut s = Stand {
        row: 0,
        position: 0,
        chains: 1,
    };
    let mut k = 0;
    // By `while`: from each second access it goes on to the next one's entries.
    while k < count {
        let u = row_of(layout.recs, layout.ranks, list[ENTRY_NUMBERS * k + 1]);
        s = go_on(layout, clocks, s, u);
        let e = mark_second(layout, clocks, u, list, k, count);
        if e < count {
            raise(layout, s.chains, clocks, u, list, k, e);
        }
        k = e;
    }
}

// Marks that many entries of a trace with a send; the clocks are filled before and after. Records don't say all its links: what happens before what is
// kept in a table, and the rows are made from it again. Not inlined, so that the table stands in no frame of a call for a trace without sends.
#[inline(never)]
fn mark_linked(layout: Layout<'_>, clocks: &mut [u16], list: &mut [u16], count: usize)
    requires { FilledClocks (decode layout.recs.now) layout.ranks.now layout.chosen.now layout.width clocks.old
        × Unmarked (decode layout.recs.now) list.old count }
    ensures { MarksList (decode layout.entry.recs.now) clocks.old clocks.new list.old list.new count }
{
    let mut table = no_bits();
    keep_rows(layout, clocks, &mut table);
    mark_all(layout, clocks, list, count);
    restore_rows(&table, layout, clocks);
}

// Marks that many entries; the clocks are filled before and after.
pub(crate) fn mark_list(layout: Layout<'_>, clocks: &mut [u16], list: &mut [u16], count: usize)
    requires { FilledClocks (decode layout.recs.now) layout.ranks.now layout.chosen.now layout.width clocks.old
        × Unmarked (decode layout.recs.now) list.old count }
    ensures { MarksList (decode layout.entry.recs.now) clocks.old clocks.new list.old list.new count }
{
    if count == 0 {
        return;
    }
    if layout.sends {
        mark_linked(layout, clocks, list, count);
    } else {
        mark_all(layout, clocks, list, count);
        refill(layout, clocks);
    }
}
