// Where the first accesses that may race with a second access are looked for: along the accesses of its cell.
ghost use Rattle.std.specs.Prelude.{◌≡◌, ◌≢◌, cond, ◌+◌, ◌-◌, ◌≤◌, ◌<◌, eqb, length, set};
ghost use Rattle.records.specs.Bytes.{decode};
ghost use Rattle.races.specs.loops.FilledClocks.{BothIn};
ghost use Rattle.races.specs.loops.Candidates.{ordered_in, seen_after, firsts_from, firsts_to, Tables};
ghost use Rattle.races.specs.loops.ListPass.{Second, Ranges};
ghost use Rattle.records.specs.Search.{least_kind, may_race, NextAccess};

use crate::filled::Filled;
use clocks::is_before;
use records::access;

// By the number of a cell: do all its accesses from the start on happen before row u, or belong to it? It is 0 where there are none, and above 1,024
// where no such row is known.
fn is_ordered(filled: Filled<'_>, seen: u16, u: usize) -> bool
    requires { seen ≢ 0 → seen ≤ 1024 → BothIn filled.layout.chosen.now filled.layout.width filled.clocks.now (seen - 1) u }
    ensures { result ≡ ordered_in filled.entry.layout.chosen.now filled.entry.layout.width filled.entry.clocks.now seen u }
{
    match seen {
        0 => true,
        1..=1024 => is_before(filled.relation((seen - 1) as usize, filled.own_of(u))),
        _ => false,
    }
}

// The number of a cell after an access of row u: in the short list a write is its start. In three arms: with the first two as one condition, a list of few
// races takes up to 1.06.
fn seen_after(ordered: bool, short: bool, kind: u8, u: usize) -> u16
    requires { u < 1024 }
    ensures { result ≡ seen_after ordered short kind u }
{
    if ordered {
        (u + 1) as u16
    } else if short && kind == 6 {
        (u + 1) as u16
    } else {
        1025
    }
}

// By the number of a cell: what is known of its accesses, and the number of its last write.
#[derive(Drop)]
pub(crate) struct Cells {
    pub seen: [u16; 1025],
    pub writes: [u16; 1025],
}

impl Cells {
    // The access b of row u, of cell c, is taken into account.
    fn note(&mut self, c: usize, kind: u8, ordered: bool, short: bool, b: usize, u: usize)
        requires { (c < 1025) × (b < 4096) × (u < 1024) }
        ensures seen_after { self.new.seen ≡ set self.old.seen c (seen_after ordered short kind u) }
        ensures writes_after { self.new.writes ≡ cond (eqb kind 6) (set self.old.writes c (b + 1)) self.old.writes }
    {
        self.seen[c] = seen_after(ordered, short, kind, u);
        if kind == 6 {
            self.writes[c] = (b + 1) as u16;
        }
    }
}

// From where on first accesses are looked for, where the last write of the cell has the number `last`: in the short list from there.
fn firsts_from(short: bool, last: usize) -> usize
    ensures { result ≡ firsts_from short last }
{
    if short { last.saturating_sub(1) } else { 0 }
}

// Up to where those of an access b of that kind are looked for: a read races with none past the last write.
fn firsts_to(kind: u8, last: usize, b: usize) -> usize
    ensures { result ≡ firsts_to kind last b }
{
    if kind == 5 { last } else { b }
}

// Where the first accesses that may race with a second access are looked for: from one record on, before another.
#[derive(Clone, Copy)]
pub(crate) struct Firsts {
    pub from: usize,
    pub to: usize,
}

// Where those of the access b of row u are looked for: nowhere, if all accesses of its cell are ordered before it. Takes the access into account.
pub(crate) fn take_access(
    filled: Filled<'_>,
    cells: &mut Cells,
    b: usize,
    u: usize,
    short: bool,
) -> Firsts
    requires second { Second (decode filled.layout.recs.now) filled.layout.ranks.now filled.layout.chosen.now filled.layout.width filled.clocks.now b u }
    requires tables { Tables (decode filled.layout.recs.now) short b cells.old.seen cells.old.writes }
    ensures ranges { Ranges (decode filled.entry.layout.recs.now) short b result.from result.to }
    ensures tables_2 { Tables (decode filled.entry.layout.recs.now) short (b + 1) cells.new.seen cells.new.writes }
{
    let kind = access::kind_at(filled.layout.recs, b);
    let c = access::cell_at(filled.layout.recs, b).0 as usize;
    let last = cells.writes[c] as usize;
    let ordered = is_ordered(filled, cells.seen[c], u);
    cells.note(c, kind, ordered, short, b, u);
    if ordered {
        return Firsts { from: b, to: b };
    }
    Firsts {
        from: firsts_from(short, last),
        to: firsts_to(kind, last, b),
    }
}
