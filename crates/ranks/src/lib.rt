// The rank of an event: the place of its begin among the begins, counted from 1, and 0 where it has none. An event action's row is its rank less 1.
#![tactic(auto)]

ghost use Rattle.std.specs.Prelude.{◌≡◌, get_or, cond, ◌+◌, ◌-◌, ◌≤◌, ◌<◌, eqb};
ghost use Rattle.records.specs.Bytes.{decode};
ghost use Rattle.records.specs.Records.{at};
ghost use Rattle.ranks.specs.declared.Ordering.TheVariants.{Begin};
ghost use Rattle.ranks.specs.OrderingOf.{link_of, ordering_of};
ghost use Rattle.ranks.specs.Ranks.{with_rank, rank_if, ranks_upto, ranks_of};
ghost use Rattle.ranks.specs.loops.RanksTo.{RanksTo};

use records::{EventId, access};
use slices::{clear, get, put, zeros};

// What a record says of links and begins, between rows.
#[derive(Clone, Copy, PartialEq, Eq)]
pub enum Ordering {
    Link(u16, u16),
    Begin(u16),
    Nothing,
}

#[tactic(auto, unfolding(crate::specs::Ranks::with_rank))]
fn set_rank(ranks: &mut [u16], e: EventId, rank: usize)
    ensures { ranks.new ≡ with_rank ranks.old e.0 rank }
{
    put(ranks, e.0 as usize, (rank % 65536) as u16);
}

// A record of that kind and event after `found` begins: the ranks and the number of begins after it.
fn note_rank(ranks: &mut [u16], kind: u8, e: EventId, found: usize) -> usize
    requires { found < 9223372036854775807 }
    ensures { (result ≡ cond (eqb kind 1) (found + 1) found) × (ranks.new ≡ rank_if (eqb kind 1) ranks.old e.0 (found + 1)) }
{
    // By the byte: this is the longest scan, of every record.
    if kind == 1 {
        set_rank(ranks, e, found + 1);
        found + 1
    } else {
        found
    }
}

// Record i, where the table has the ranks of those before it: the number of begins after it.
fn note_record(recs: &[u8], ranks: &mut [u16], i: usize, found: usize) -> usize
    requires { (found < 9223372036854775807) × RanksTo (decode recs.now) i ranks.old found }
    ensures { RanksTo (decode recs.now) (i + 1) ranks.new result × (result ≤ found + 1) }
{
    let kind = access::kind_at(recs, i);
    let e = access::event_at(recs, i);
    note_rank(ranks, kind, e, found)
}

// The same for four records.
fn note_four(recs: &[u8], ranks: &mut [u16], i: usize, found: usize) -> usize
    requires { (found ≤ i) × (i < 9223372036854775800) × RanksTo (decode recs.now) i ranks.old found }
    ensures { RanksTo (decode recs.now) (i + 4) ranks.new result × (result ≤ i + 4) }
{
    let one = note_record(recs, ranks, i, found);
    let two = note_record(recs, ranks, i + 1, one);
    let three = note_record(recs, ranks, i + 2, two);
    note_record(recs, ranks, i + 3, three)
}

// The same for the records from i up to n.
fn note_last(recs: &[u8], ranks: &mut [u16], from: usize, n: usize, before: usize)
    requires { (before ≤ from) × (from ≤ n) × (n < 9223372036854775800) × RanksTo (decode recs.now) from ranks.old before }
    ensures { ranks.new ≡ ranks_upto (decode recs.now) n }
{
    let mut found = before;
    for i in from..n {
        found = note_record(recs, ranks, i, found);
    }
}

// The ranks of all events, by event number, in the lent table; four records at a time.
pub fn fill_ranks(recs: &[u8], ranks: &mut [u16; 1025])
    ensures { ranks.new ≡ ranks_of (decode recs.now) }
{
    let n = access::count(recs);
    clear(ranks, 1025);
    let mut found = 0;
    let mut i = 0;
    // By hand, four records a step: one record a step takes more instructions.
    while i + 4 <= n {
        found = note_four(recs, ranks, i, found);
        i += 4;
    }
    note_last(recs, ranks, i, n, found);
}

// The ranks of all events, by event number.
pub fn ranks(recs: &[u8]) -> [u16; 1025]
    ensures { result ≡ ranks_of (decode recs.now) }
{
    let mut ranks = zeros::<u16, 1025>();
    fill_ranks(recs, &mut ranks);
    ranks
}

// The rank of event e.
pub fn rank_of(ranks: &[u16], e: EventId) -> u16
    ensures { result ≡ get_or ranks.now e.0 0 }
{
    get(ranks, e.0 as usize)
}

// The row of record i's event action; 0 where that has none.
pub fn row_at(recs: &[u8], ranks: &[u16], i: usize) -> usize
    ensures { result ≡ get_or ranks.now (at (decode recs.now) i).first 0 - 1 }
{
    rank_of(ranks, access::event_at(recs, i)).saturating_sub(1) as usize
}

fn link_of(ranks: &[u16], before: EventId, after: EventId) -> Ordering
    ensures { result ≡ link_of (get_or ranks.now before.0 0) (get_or ranks.now after.0 0) }
{
    // Test by test: by `||` the order question takes up to 1.05 of the instructions.
    let from = rank_of(ranks, before);
    if from == 0 {
        return Ordering::Nothing;
    }
    let to = rank_of(ranks, after);
    if to == 0 {
        return Ordering::Nothing;
    }
    Ordering::Link(from - 1, to - 1)
}

fn begin_of(rank: u16) -> Ordering
    ensures { result ≡ Begin (rank - 1) }
{
    Ordering::Begin(rank.saturating_sub(1))
}

#[tactic(auto, unfolding(crate::specs::OrderingOf::ordering_of))]
pub fn ordering_at(recs: &[u8], ranks: &[u16], i: usize) -> Ordering
    ensures { result ≡ ordering_of (λ e. get_or ranks.now e 0) (at (decode recs.now) i) }
{
    // Test by test, and by the byte: by `match` the order question takes up to 1.2 of the instructions, by `kind_of` the short list up to 1.02.
    let kind = access::kind_at(recs, i);
    if 4 < kind {
        Ordering::Nothing
    } else if kind == 1 {
        begin_of(rank_of(ranks, access::event_at(recs, i)))
    } else if kind == 3 {
        link_of(ranks, access::event_at(recs, i), access::target_at(recs, i))
    } else if kind == 4 {
        link_of(ranks, access::target_at(recs, i), access::event_at(recs, i))
    } else {
        Ordering::Nothing
    }
}
