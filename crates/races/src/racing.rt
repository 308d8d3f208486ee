// Which way round two rows stand, by the clocks.
ghost use Rattle.std.specs.Prelude.{◌≡◌, get_or};
ghost use Rattle.clocks.specs.Rows.{compare_in};
ghost use Rattle.clocks.specs.WayRound.{relation_paper, relate_in};
ghost use Rattle.races.specs.loops.FilledClocks.{RowsIn, BothIn, OwnIs};

use crate::filled::{Filled, Layout};
use clocks::{Relation, relate_entries};

// A row with its chain and its own entry there.
#[derive(Clone, Copy)]
pub(crate) struct Own {
    pub row: usize,
    pub chain: usize,
    pub entry: u16,
}

impl Layout<'_> {
    // Whether row t's own entry, at its chain, is at most row u's, as the rows stand, filled or raised: whether t leads to u.
    pub(crate) fn comes_before(self, clocks: &[u16], t: usize, u: usize) -> bool
        requires { RowsIn self.chosen.now self.width clocks.now t u }
        ensures { result ≡ compare_in clocks.now self.entry.width (get_or self.entry.chosen.now t 0) t u }
    {
        let c = self.chosen[t] as usize;
        clocks[t * self.width + c] <= clocks[u * self.width + c]
    }
}

impl Filled<'_> {
    pub(crate) fn own_of(self, u: usize) -> Own
        requires { RowsIn self.layout.chosen.now self.layout.width self.clocks.now u u }
        ensures { (result.row ≡ u) × OwnIs self.entry.layout.chosen.now self.entry.layout.width self.entry.clocks.now u result.chain result.entry }
    {
        let c = self.layout.chosen[u] as usize;
        let value = self.clocks[u * self.layout.width + c];
        Own {
            row: u,
            chain: c,
            entry: value,
        }
    }

    // Which way round row t and that row stand.
    pub(crate) fn relation(self, t: usize, u: Own) -> Relation
        requires { BothIn self.layout.chosen.now self.layout.width self.clocks.now t u.row
            × OwnIs self.layout.chosen.now self.layout.width self.clocks.now u.row u.chain u.entry }
        ensures { relation_paper result ≡ relate_in self.entry.clocks.now self.entry.layout.width t (get_or self.entry.layout.chosen.now t 0)
            u.row (get_or self.entry.layout.chosen.now u.row 0) }
    {
        let width = self.layout.width;
        let c = self.layout.chosen[t] as usize;
        let first = self.clocks[t * width + c];
        let there = self.clocks[u.row * width + c];
        let back = self.clocks[t * width + u.chain];
        relate_entries(t == u.row, first, there, u.entry, back)
    }
}
