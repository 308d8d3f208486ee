// The event actions that lead to an access, by the clocks: found from the row of the access down.
ghost use Rattle.std.specs.Prelude.{◌≡◌, ◌↔◌, suc, ◌+◌, ◌-◌, ◌≤◌, ◌<◌, max, T, length, get_or, set};
ghost use Rattle.records.specs.Bytes.{decode};
ghost use Rattle.trace.specs.Reading.{Acceptable};
ghost use Rattle.races.specs.loops.FilledClocks.{rows};
ghost use Rattle.pair.specs.loops.Kept.{Starts, Split, Block, Noted, clashes, OneClashes, Bytes, Merged};
ghost use Rattle.pair.specs.loops.Kept.{Passing, Passes, PassesAll, Markable, MarksKept};

use crate::filled::Filled;
use records::access;
use slices::{clear, zeros};

// The first record of the event action of record i.
pub(crate) fn block_start(recs: &[u8], i: usize) -> usize
    ensures { Starts (decode recs.now) result i }
{
    let e = access::event_at(recs, i);
    for before in (0..i).rev() {
        if access::event_at(recs, before) != e {
            return before + 1;
        }
    }
    0
}

// A cell's byte is 2 where a kept access writes it, 1 where kept accesses only read it.
fn note_access(cells: &mut [u8], kind: u8, x: usize)
    requires { (5 ≤ kind) × (kind ≤ 6) × (x < length cells.old) × (get_or cells.old x 0 ≤ 2) }
    ensures { cells.new ≡ set cells.old x (max (get_or cells.old x 0) (kind - 4)) }
{
    if kind == 6 {
        cells[x] = 2;
        return;
    }
    if cells[x] == 0 {
        cells[x] = 1;
    }
}

// Notes the accesses of the records from lo on, before hi.
fn note(recs: &[u8], lo: usize, hi: usize, cells: &mut [u8])
    requires { Acceptable (decode recs.now) × (lo ≤ hi) × (hi ≤ length (decode recs.now)) × Bytes cells.old }
    ensures { Noted (decode recs.now) lo hi cells.old cells.new }
{
    if access::count(recs) < hi {
        return;
    }
    for i in lo..hi {
        let kind = access::base_kind_at(recs, i);
        if 4 < kind {
            note_access(cells, kind, access::cell_at(recs, i).0 as usize);
        }
    }
}

// A write conflicts with any kept access of its cell, a read with a kept write.
fn has_conflict(recs: &[u8], cells: &[u8], i: usize) -> bool
    requires { Acceptable (decode recs.now) × Bytes cells.now × (i < length (decode recs.now)) }
    ensures { result ≡ clashes (decode recs.now) cells.now i }
{
    let kind = access::base_kind_at(recs, i);
    if kind < 5 {
        return false;
    }
    6 < kind + cells[access::cell_at(recs, i).0 as usize]
}

// Does one of the records from lo on, before hi, conflict with a kept access?
fn have_conflict(recs: &[u8], lo: usize, hi: usize, cells: &[u8]) -> bool
    requires { Acceptable (decode recs.now) × Bytes cells.now × (hi ≤ length (decode recs.now)) }
    ensures { T result ↔ OneClashes (decode recs.now) cells.now lo hi }
{
    if access::count(recs) < hi {
        return false;
    }
    // By `for`: with `any` a test of bounds stays in the loop, which takes the pair question up to 1.08.
    for i in lo..hi {
        if has_conflict(recs, cells, i) {
            return true;
        }
    }
    false
}

// By index: nothing is known of what a zip leaves behind.
fn merge_part(part: &[u16], row: &mut [u16], chains: usize)
    requires { (chains ≤ length part.now) × (chains ≤ length row.old) }
    ensures { Merged part.now 0 chains row.old row.new }
{
    for c in 0..chains {
        row[c] = row[c].max(part[c]);
    }
}

// The row that starts there is merged into the own row.
fn merge_into(clocks: &[u16], at: usize, row: &mut [u16], chains: usize)
    requires { (at + chains ≤ length clocks.now) × (chains ≤ length row.old) }
    ensures { Merged clocks.now at chains row.old row.new }
{
    let e = at + chains;
    merge_part(&clocks[at..e], row, chains);
}

// Passes row t, whose records stand from lo on, before hi: it is kept where it happens before a kept one, or conflicts with one.
fn pass_row(
    filled: Filled<'_>,
    work: &mut [u8],
    row: &mut [u16],
    cells: &mut [u8],
    t: usize,
    lo: usize,
    hi: usize,
)
    requires { Passing (decode filled.recs.now) filled.chosen.now filled.width filled.chains filled.clocks.now
        work.old row.old cells.old × Block (decode filled.recs.now) t lo hi }
    ensures { Passes (decode filled.entry.recs.now) filled.entry.chosen.now filled.entry.width filled.entry.chains filled.entry.clocks.now (suc t) hi t lo
        work.old row.old cells.old work.new row.new cells.new }
{
    let c = filled.chosen[t] as usize;
    if row[c] < filled.clocks[t * filled.width + c] {
        if !have_conflict(filled.recs, lo, hi, cells) {
            return;
        }
        merge_into(filled.clocks, t * filled.width, row, filled.chains);
    }
    work[t] = 1;
    note(filled.recs, lo, hi, cells);
}

// Passes all event actions before row u, whose records end before `end`, the last first.
fn pass_down(
    filled: Filled<'_>,
    work: &mut [u8],
    row: &mut [u16],
    cells: &mut [u8],
    u: usize,
    end: usize,
)
    requires passing { Passing (decode filled.recs.now) filled.chosen.now filled.width filled.chains filled.clocks.now work.old row.old cells.old }
    requires split { Split (decode filled.recs.now) u end × (u ≤ rows (decode filled.recs.now)) }
    ensures { PassesAll (decode filled.entry.recs.now) filled.entry.chosen.now filled.entry.width filled.entry.chains filled.entry.clocks.now u end
        work.old row.old cells.old work.new row.new cells.new }
{
    let mut hi = end;
    for t in (0..u).rev() {
        let lo = block_start(filled.recs, hi - 1);
        pass_row(filled, work, row, cells, t, lo, hi);
        hi = lo;
    }
}

// Marks the event actions that lead to record b, of row u. The row is what happens before them.
pub(crate) fn mark_leading(filled: Filled<'_>, work: &mut [u8], row: &mut [u16], u: usize, b: usize)
    requires { Markable (decode filled.recs.now) filled.chosen.now filled.width filled.chains filled.clocks.now work.old row.old u b }
    ensures { MarksKept (decode filled.entry.recs.now) b work.old work.new }
{
    let mut cells = zeros::<u8, 1025>();
    clear(row, row.len());
    merge_into(filled.clocks, u * filled.width, row, filled.chains);
    let lo = block_start(filled.recs, b);
    note(filled.recs, lo, b, &mut cells);
    work[u] = 1;
    pass_down(filled, work, row, &mut cells, u, lo);
}
