// Happens-before with links that deliver in order, as a table of bits by rank, and refusal 31.
#![tactic(auto)]

ghost use Rattle.std.specs.Prelude.{◌≡◌, ◌≢◌, ◌≤◌, ◌<◌, length};
ghost use Rattle.slices.specs.Slices.{zeros};
ghost use Rattle.records.specs.Bytes.{decode};
ghost use Rattle.ranks.specs.Ranks.{ranks_of};
ghost use Rattle.records.specs.Records.{at};
ghost use Rattle.links.specs.Rule.{rank_in, missing, behind, reach, Turned, Leaves, walk};
ghost use Rattle.links.specs.Fill.{linked, begin_row, Stepped, Stops, fill_from, fill_all};
ghost use Rattle.links.specs.Begin.{send_to, last_send, from_last, Mayed, may, table_blocked, begin_blocked};

use bits::{clear, get, has, or_row, or_set, put};
use ranks::{fill_ranks, rank_of, ranks};
use records::{EventId, Kind, RECORD_BYTES, access};
use slices::zeros;

// The event of rank u comes behind that of rank t; true where that has not begun.
#[tactic(auto, unfolding(crate::specs::Rule::missing, crate::specs::Rule::behind))]
fn put_behind(table: &mut [u64], t: u16, u: u16) -> bool
    ensures { (result ≡ missing t u) × (table.new ≡ behind t u table.old) }
{
    if t == 0 || u < t {
        return true;
    }
    let p = (t - 1) as usize;
    let v = (u - 1) as usize;
    if !get(table, p, v) {
        or_row(table, p, v);
    }
    false
}

// Row x reaches link l.
#[tactic(auto, unfolding(crate::specs::Rule::reach))]
fn reach_link(sets: &mut [u64], l: usize, table: &[u64], x: usize)
    ensures { sets.new ≡ reach l x table.now sets.old }
{
    if !has(sets, l, x) {
        or_set(sets, l, table, x);
    }
}

// Record j in the walk for event e of rank u; true where a target is missing.
fn link_turn(
    recs: &[u8],
    ranks: &[u16],
    j: usize,
    e: EventId,
    u: u16,
    table: &mut [u64],
    sets: &mut [u64],
) -> bool
    ensures { Turned (rank_in ranks.now) e.0 u (at (decode recs.now) j)
        table.old sets.old result table.new sets.new }
{
    let Some(link) = access::link_at(recs, j) else {
        return false;
    };
    let x = rank_of(ranks, access::event_at(recs, j));
    if x == 0 {
        return false;
    }
    let target = access::target_at(recs, j);
    if target == e {
        reach_link(sets, link, table, (x - 1) as usize);
        return false;
    }
    has(sets, link, (x - 1) as usize) && put_behind(table, rank_of(ranks, target), u)
}

// The walk down from position `from`. Begun within the records, no turn needs a test that its record is there.
fn link_walk(
    recs: &[u8],
    ranks: &[u16],
    from: usize,
    e: EventId,
    u: u16,
    table: &mut [u64],
    sets: &mut [u64],
) -> bool
    ensures { Leaves (walk (decode recs.now) (rank_in ranks.now) e.0 u from
        table.old sets.old) result table.new }
{
    for j in (0..from.min(access::count(recs))).rev() {
        if link_turn(recs, ranks, j, e, u, table, sets) {
            return true;
        }
    }
    false
}

fn link_rule(recs: &[u8], ranks: &[u16], from: usize, e: EventId, u: u16, table: &mut [u64]) -> bool
    ensures { Leaves (walk (decode recs.now) (rank_in ranks.now) e.0 u from
        table.old (zeros 64)) result table.new }
{
    let mut sets = zeros::<u64, 64>();
    link_walk(recs, ranks, from, e, u, table, &mut sets)
}

// A direct link by ranks.
#[tactic(auto, unfolding(crate::specs::Fill::linked))]
fn link_rows(table: &mut [u64], p: u16, u: u16)
    ensures { table.new ≡ linked p u table.old }
{
    if p != 0 && u != 0 {
        or_row(table, (p - 1) as usize, (u - 1) as usize);
    }
}

// The begin of e, the last send to which is the last of the first `from` records; true where 31 refuses it.
#[tactic(auto, unfolding(crate::specs::Fill::begin_row))]
fn begin_row(recs: &[u8], ranks: &[u16], from: usize, e: EventId, table: &mut [u64]) -> bool
    ensures { Leaves (begin_row (decode recs.now) (rank_in ranks.now) e.0 (rank_in ranks.now e.0) from
        table.old) result table.new }
{
    let u = rank_of(ranks, e);
    if u == 0 {
        return false;
    }
    put(table, (u - 1) as usize, (u - 1) as usize);
    link_rule(recs, ranks, from, e, u, table)
}

// A direct link from one event action to another.
fn link_events(ranks: &[u16], from: EventId, to: EventId, table: &mut [u64])
    ensures { table.new ≡ linked (rank_in ranks.now from.0) (rank_in ranks.now to.0) table.old }
{
    link_rows(table, rank_of(ranks, from), rank_of(ranks, to));
}

// Record i, where last holds one more than the position of the last send to each event; true where 31 refuses it.
fn fill_record(recs: &[u8], ranks: &[u16], i: usize, table: &mut [u64], last: &mut [u16]) -> bool
    requires { i < 9223372036854775807 }
    ensures { Stepped (decode recs.now) (rank_in ranks.now) i
        table.old last.old result table.new last.new }
{
    let e = access::event_at(recs, i);
    let target = access::target_at(recs, i);
    match access::kind_of(recs, i) {
        Kind::Begin => {
            let from = slices::get(last, e.0 as usize);
            return begin_row(recs, ranks, from as usize, e, table);
        }
        Kind::Join => link_events(ranks, target, e, table),
        Kind::Fork => link_events(ranks, e, target, table),
        Kind::Send(_) => {
            link_events(ranks, e, target, table);
            slices::put(last, target.0 as usize, ((i + 1) % 65536) as u16);
        }
        _ => {}
    }
    false
}

// The first n records; where it stopped.
fn fill_rows(recs: &[u8], ranks: &[u16], n: usize, table: &mut [u64], last: &mut [u16]) -> usize
    requires { n < 9223372036854775807 }
    ensures { Stops (fill_from (decode recs.now) (rank_in ranks.now) 0 n
        table.old last.old) result table.new }
{
    for i in 0..n {
        if fill_record(recs, ranks, i, table, last) {
            return i;
        }
    }
    n
}

// The table over all records, taken into the one lent; the position of the first begin that 31 refuses, or the number of records.
pub fn fill(recs: &[u8], ranks: &[u16], table: &mut [u64]) -> usize
    ensures { Stops (fill_from (decode recs.now) (rank_in ranks.now) 0 (length (decode recs.now))
        table.old (zeros 1025)) result table.new }
{
    let n = access::count(recs);
    let mut last = zeros::<u16, 1025>();
    fill_rows(recs, ranks, n, table, &mut last)
}

// The ranks and the table over all records, in lent memory; the position of the first begin that 31 refuses, or the number of records.
#[tactic(auto, unfolding(crate::specs::Fill::fill_all))]
pub fn fill_all(recs: &[u8], ranks: &mut [u16; 1025], table: &mut [u64; 8704]) -> usize
    ensures { Stops (fill_all (decode recs.now)) result table.new × (ranks.new ≡ ranks_of (decode recs.now)) }
{
    fill_ranks(recs, ranks);
    clear(table);
    fill(recs, ranks, table)
}

// A table without bits.
pub fn no_bits() -> [u64; 8704]
    ensures { result ≡ zeros 8704 }
{
    zeros::<u64, 8704>()
}

// No table, for a trace without sends.
pub fn no_words() -> [u64; 1]
    ensures { result ≡ zeros 1 }
{
    zeros::<u64, 1>()
}

// The position of the first begin that 31 refuses, or the number of records, with a table of its own. Not inlined, so that the table stands in no caller's
// frame.
#[inline(never)]
pub fn first_blocked(recs: &[u8]) -> usize
    ensures { result ≡ (fill_all (decode recs.now)).stop }
{
    let all = ranks(recs);
    let mut table = no_bits();
    fill(recs, &all, &mut table)
}

// Record j is a send to e.
#[tactic(auto, using(records::proofs::KindLaws::a_send), unfolding(crate::specs::Begin::send_to))]
fn is_send_to(recs: &[u8], j: usize, e: EventId) -> bool
    ensures { result ≡ send_to e.0 (at (decode recs.now) j) }
{
    access::link_at(recs, j).is_some() && access::target_at(recs, j) == e
}

// The position of the last send to e.
fn last_send_to(recs: &[u8], e: EventId) -> Option<usize>
    ensures last { from_last result ≡ last_send (decode recs.now) e.0 (length (decode recs.now)) }
    ensures inside { from_last result ≤ length (decode recs.now) }
{
    for j in (0..access::count(recs)).rev() {
        if is_send_to(recs, j, e) {
            return Some(j);
        }
    }
    None
}

// Record j on the way down, where `sent` marks the links that send to e further on; true where such a link sends to another event that has not begun.
fn may_turn(recs: &[u8], ranks: &[u16], j: usize, e: EventId, sent: &mut [u16]) -> bool
    ensures { Mayed (rank_in ranks.now) e.0 (at (decode recs.now) j) sent.old result sent.new }
{
    let Some(link) = access::link_at(recs, j) else {
        return false;
    };
    let target = access::target_at(recs, j);
    if target == e {
        slices::put(sent, link, 1);
        return false;
    }
    rank_of(ranks, target) == 0 && slices::get(sent, link) == 1
}

fn may_walk(recs: &[u8], ranks: &[u16], from: usize, e: EventId, sent: &mut [u16]) -> bool
    ensures { result ≡ may (decode recs.now) (rank_in ranks.now) e.0 from sent.old }
{
    for j in (0..from).rev() {
        if may_turn(recs, ranks, j, e, sent) {
            return true;
        }
    }
    false
}

// A link sends to another event that has not begun, before one of the first `from` records sends to e on it. Where not, no order needs to be known.
fn may_block(recs: &[u8], ranks: &[u16], from: usize, e: EventId) -> bool
    ensures { result ≡ may (decode recs.now) (rank_in ranks.now) e.0 from (zeros 4) }
{
    let mut sent = zeros::<u16, 4>();
    may_walk(recs, ranks, from, e, &mut sent)
}

// The table over all records, and the walk for e, whose row would be u. Not inlined, as `first_blocked`.
#[inline(never)]
fn blocked_by_table(recs: &[u8], ranks: &[u16], from: usize, e: EventId, u: usize) -> bool
    ensures { result ≡ table_blocked (decode recs.now) (rank_in ranks.now) from e.0 u }
{
    if 1023 < u {
        return false;
    }
    let mut table = no_bits();
    fill(recs, ranks, &mut table);
    put(&mut table, u, u);
    link_rule(recs, ranks, from, e, (u + 1) as u16, &mut table)
}

// 31 would refuse the begin of e after these records.
pub fn begin_blocked(recs: &[u8], e: EventId) -> bool
    ensures { result ≡ begin_blocked (decode recs.now) e.0 }
{
    let Some(last) = last_send_to(recs, e) else {
        return false;
    };
    let all = ranks(recs);
    may_block(recs, &all, last + 1, e)
        && blocked_by_table(recs, &all, last + 1, e, access::count_begins(recs))
}
