// The next access of a cell that conflicts with a given one.
ghost use Rattle.std.specs.Prelude.{◌≡◌, ◌+◌, ◌≤◌, ◌<◌, length};
ghost use Rattle.records.specs.Bytes.{decode};
ghost use Rattle.records.specs.Search.{least_kind, may_race, NextAccess, NextFrom};

use crate::{Var, access};

// The least kind of record that races with an access of that kind: with a read only a write does.
#[tactic(auto, unfolding(crate::specs::Search::least_kind))]
pub fn least_kind(kind: u8) -> u8
    ensures { result ≡ least_kind kind }
{
    if kind == 5 { 6 } else { 5 }
}

// May record i race with an access of cell c, by its kind's number, where only a record of that kind or a higher one does? Kinds above 6 are for the
// caller to tell apart.
#[tactic(auto, unfolding(crate::specs::Search::may_race))]
fn may_race(recs: &[u8], least: u8, c: Var, i: usize) -> bool
    ensures { result ≡ may_race (decode recs.now) least c.0 i }
{
    access::cell_at(recs, i) == c && least <= access::kind_at(recs, i)
}

// How many of the four records from i on stand before the first that may race with an access of cell c.
fn among_four(recs: &[u8], least: u8, c: Var, i: usize) -> usize
    requires { i ≤ length (decode recs.now) }
    ensures { NextAccess (decode recs.now) least c.0 i (i + 4) (i + result) }
{
    if may_race(recs, least, c, i) {
        return 0;
    }
    if may_race(recs, least, c, i + 1) {
        return 1;
    }
    if may_race(recs, least, c, i + 2) {
        return 2;
    }
    if may_race(recs, least, c, i + 3) {
        return 3;
    }
    4
}

// From record `from` on the next one that may race with an access of cell c, or `to`.
fn next_near(recs: &[u8], from: usize, to: usize, c: Var, least: u8) -> usize
    requires { (from ≤ to) × (to ≤ length (decode recs.now)) }
    ensures { NextAccess (decode recs.now) least c.0 from to result }
{
    for i in from..to {
        if may_race(recs, least, c, i) {
            return i;
        }
    }
    to
}

// The same, four records at a time; `to` where there are not that many records, and else `from` where it is past `to`.
pub fn next_access(recs: &[u8], from: usize, to: usize, c: Var, least: u8) -> usize
    ensures { NextFrom (decode recs.now) least c.0 from to result }
{
    if access::count(recs) < to {
        return to;
    }
    if to < from {
        return from;
    }
    let mut i = from;
    // By hand, four records a step: one record a step takes more instructions.
    while i + 4 <= to {
        let k = among_four(recs, least, c, i);
        if k < 4 {
            return i + k;
        }
        i += 4;
    }
    next_near(recs, i, to, c, least)
}
