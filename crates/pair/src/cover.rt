// A cover of a race, found forwards and without further memory: from an event action that leads to b, the next race whose second record's event action leads
// to b.
ghost use Rattle.std.specs.Prelude.{◌≡◌, true, ◌*◌, ◌≤◌, ◌<◌, length, T, MatchOption};
ghost use Rattle.records.specs.Bytes.{decode};
ghost use Rattle.records.specs.Records.{at, event_of};
ghost use Rattle.order.specs.HappensBefore.{happens_before};
ghost use Rattle.coverage.specs.Race.{Race};
ghost use Rattle.coverage.specs.Leading.{coveredb, leads};
ghost use Rattle.races.specs.Traces.{setting_of};
ghost use Rattle.races.specs.loops.FilledClocks.{rows};
ghost use Rattle.pair.specs.Pair.{entry_numbers, GivesCover};
ghost use Rattle.pair.specs.loops.PairSearch.{goes_on, FirstIs, Next};
ghost use Rattle.pair.specs.loops.Leading.{Marks};

use crate::filled::{Filled, Ranked};
use crate::kept;
use clocks::{is_before, is_unordered};
use ranks::row_at;
use records::{access, search};

// A race: its two records.
#[derive(Clone, Copy)]
pub(crate) struct Step {
    pub first: usize,
    pub second: usize,
}

// Is a record of that kind no send, its row c unordered with row d, and does row t happen before it?
fn leads_on(filled: Filled<'_>, kind: u8, t: usize, c: usize, d: usize) -> bool
    requires { (t < 1024) × (c < 1024) × (d < 1024) }
    ensures { result ≡ goes_on filled.entry.chosen.now filled.entry.width filled.entry.clocks.now kind t c d }
{
    kind <= 6 && is_unordered(filled.relate(c, d)) && is_before(filled.relate(t, c))
}

// The first record from lo on, before d, that races with d and that the event action of row t happens before, where the event action of d is marked.
fn find_first(ranked: Ranked<'_>, work: &[u8], lo: usize, t: usize, d: usize) -> Option<usize>
    requires { (rows (decode ranked.filled.recs.now) ≤ length work.now) × (t < rows (decode ranked.filled.recs.now)) × (lo ≤ d)
        × (d < length (decode ranked.filled.recs.now)) }
    ensures { FirstIs (decode ranked.entry.filled.recs.now) ranked.entry.ranks.now work.now lo t d result }
{
    let recs = ranked.filled.recs;
    let kind = access::base_kind_at(recs, d);
    if kind < 5 {
        return None;
    }
    let u = row_at(recs, ranked.ranks, d);
    if work[u] == 0 {
        return None;
    }
    let x = access::cell_at(recs, d);
    let least = search::least_kind(kind);
    let mut c = search::next_access(recs, lo, d, x, least);
    // By `while`: from each access the search goes on to the next.
    while c < d {
        let kind = access::kind_at(recs, c);
        let row = row_at(recs, ranked.ranks, c);
        if leads_on(ranked.filled, kind, t, row, u) {
            return Some(c);
        }
        c = search::next_access(recs, c + 1, d, x, least);
    }
    None
}

// The next race of a cover, from the event action of t on, which leads to b; none where t happens before b. It is the first record that has such a race, with
// the first record of its own. No record before the event action of t can be the first of it.
fn next_race(ranked: Ranked<'_>, work: &[u8], t: usize, b: usize) -> Option<Step>
    requires { Marks (decode ranked.filled.recs.now) ranked.ranks.now work.now b × (t < b)
        × T (leads (setting_of (decode ranked.filled.recs.now)) b (event_of (at (decode ranked.filled.recs.now) t))) }
    ensures { MatchOption result (happens_before (decode ranked.entry.filled.recs.now) (event_of (at (decode ranked.entry.filled.recs.now) t))
        (event_of (at (decode ranked.entry.filled.recs.now) b)) ≡ true) (λ s. Next (decode ranked.entry.filled.recs.now) b t s.first s.second) }
{
    if ranked.is_before(t, b) {
        return None;
    }
    let lo = kept::block_start(ranked.filled.recs, t);
    let r = row_at(ranked.filled.recs, ranked.ranks, t);
    for d in lo..b {
        if let Some(c) = find_first(ranked, work, lo, r, d) {
            return Some(Step {
                first: c,
                second: d,
            });
        }
    }
    None
}

// Writes a cover of the race (a, b) as entries; gives their number.
pub(crate) fn put_cover(
    ranked: Ranked<'_>,
    work: &[u8],
    list: &mut [u16],
    a: usize,
    b: usize,
) -> usize
    requires marks { Marks (decode ranked.filled.recs.now) ranked.ranks.now work.now b }
    requires race { Race (setting_of (decode ranked.filled.recs.now)) a b × T (coveredb (setting_of (decode ranked.filled.recs.now)) a b)
        × (entry_numbers * rows (decode ranked.filled.recs.now) ≤ length list.old) }
    ensures { GivesCover (decode ranked.entry.filled.recs.now) a b result list.old list.new }
{
    let mut t = a;
    let mut k = 0;
    while let Some(step) = next_race(ranked, work, t, b) {
        crate::put_entry(list, k, (step.first + 1) as u16, (step.second + 1) as u16);
        k += 1;
        t = step.second;
    }
    k
}
