// What is at hand once the clocks of an accepted trace are filled, lent to read.
ghost use Rattle.std.specs.Prelude.{◌≡◌};
ghost use Rattle.records.specs.Bytes.{decode};
ghost use Rattle.ranks.specs.Ranks.{ranks_of};
ghost use Rattle.order.specs.Fill.{chains_used};
ghost use Rattle.races.specs.loops.FilledClocks.{FilledClocks};
ghost use Rattle.races.specs.loops.FilledOnce.{filled_once};

// The records, and the clocks that are filled: the chain of each row, the width, and how many chains are used.
#[derive(Clone, Copy)]
pub(crate) struct Filled<'a> {
    pub recs: &'a [u8],
    pub chosen: &'a [u16],
    pub width: usize,
    pub chains: usize,
    pub clocks: &'a [u16],
    ghost filled: { FilledClocks (decode recs.now) (ranks_of (decode recs.now)) chosen.now width clocks.now } by { filled_once },
    ghost chains_are: { chains ≡ chains_used (decode recs.now) },
}

// And the ranks of the events.
#[derive(Clone, Copy)]
pub(crate) struct Ranked<'a> {
    pub filled: Filled<'a>,
    pub ranks: &'a [u16],
    ghost ranks_are: { ranks.now ≡ ranks_of (decode filled.recs.now) },
}
