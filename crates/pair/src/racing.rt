// Which accesses race, by the clocks.
ghost use Rattle.std.specs.Prelude.{◌≡◌, ◌≤◌, ◌<◌, length, get_or};
ghost use Rattle.records.specs.Bytes.{decode};
ghost use Rattle.records.specs.Records.{at, event_of};
ghost use Rattle.order.specs.HappensBefore.{happens_before};
ghost use Rattle.coverage.specs.Race.{raceb};
ghost use Rattle.races.specs.Traces.{is_access, setting_of};
ghost use Rattle.races.specs.loops.Clashes.{conflict, clash};
ghost use Rattle.clocks.specs.WayRound.{relation_paper, relate_in};
ghost use Rattle.pair.specs.loops.PairSearch.{way_of};

use crate::filled::{Filled, Ranked};
use clocks::{Relation, is_unordered, relate};
use ranks::row_at;
use records::{Record, access};

pub(crate) fn is_access(r: Record) -> bool
    ensures { result ≡ is_access r }
{
    matches!(r.kind, 5 | 6)
}

// Both access, the same cell, and one of them writes.
pub(crate) fn is_conflict(a: Record, b: Record) -> bool
    ensures { result ≡ conflict a b }
{
    is_access(a) && is_access(b) && a.second == b.second && (a.kind == 6 || b.kind == 6)
}

// Whether records a and b conflict and are of two event actions.
pub(crate) fn is_clash(recs: &[u8], a: usize, b: usize) -> bool
    ensures { result ≡ clash (at (decode recs.now) a) (at (decode recs.now) b) }
{
    is_conflict(access::record_at(recs, a), access::record_at(recs, b))
        && access::event_at(recs, a) != access::event_at(recs, b)
}

impl Filled<'_> {
    // Which way round rows t and u stand.
    pub(crate) fn relate(self, t: usize, u: usize) -> Relation
        requires { (t < 1024) × (u < 1024) }
        ensures { relation_paper result ≡ relate_in self.entry.clocks.now self.entry.width t (get_or self.entry.chosen.now t 0)
            u (get_or self.entry.chosen.now u 0) }
    {
        relate(
            self.clocks,
            self.width as u16,
            t as u16,
            self.chosen[t],
            u as u16,
            self.chosen[u],
        )
    }
}

impl Ranked<'_> {
    // Which way round the event actions of records a and b stand.
    fn relation(self, a: usize, b: usize) -> Relation
        requires { (a < length (decode self.filled.recs.now)) × (b < length (decode self.filled.recs.now)) }
        ensures { relation_paper result ≡ way_of (decode self.entry.filled.recs.now) a b }
    {
        let t = row_at(self.filled.recs, self.ranks, a);
        let u = row_at(self.filled.recs, self.ranks, b);
        self.filled.relate(t, u)
    }

    // Whether the event action of record a happens before that of record b.
    pub(crate) fn is_before(self, a: usize, b: usize) -> bool
        requires { (a < length (decode self.filled.recs.now)) × (b < length (decode self.filled.recs.now)) }
        ensures { result ≡ happens_before (decode self.entry.filled.recs.now) (event_of (at (decode self.entry.filled.recs.now) a))
            (event_of (at (decode self.entry.filled.recs.now) b)) }
    {
        clocks::is_before(self.relation(a, b))
    }

    // Whether records a and b are a race, first then second.
    pub(crate) fn is_race(self, a: usize, b: usize) -> bool
        requires { b < length (decode self.filled.recs.now) }
        ensures { result ≡ raceb (setting_of (decode self.entry.filled.recs.now)) a b }
    {
        a < b && is_clash(self.filled.recs, a, b) && is_unordered(self.relation(a, b))
    }
}
