// What is at hand once the clocks of an accepted trace are filled.
ghost use Rattle.std.specs.Prelude.{◌≡◌};
ghost use Rattle.records.specs.Bytes.{decode};
ghost use Rattle.records.specs.Kinds.{has_send};
ghost use Rattle.order.specs.Fill.{events_in};
ghost use Rattle.races.specs.loops.FilledClocks.{FilledClocks};
ghost use Rattle.races.specs.loops.FilledOnce.{filled_once};

// An accepted trace, and where its rows stand in clocks that are lent beside it: its records, its event actions, whether it has a send, the ranks of its
// events, the chain of each row, and the width.
#[derive(Clone, Copy)]
pub(crate) struct Layout<'a> {
    pub recs: &'a [u8],
    pub events: usize,
    pub sends: bool,
    pub ranks: &'a [u16],
    pub chosen: &'a [u16],
    pub width: usize,
    ghost events_are: { events ≡ events_in (decode recs.now) },
    ghost sends_are: { sends ≡ has_send (decode recs.now) },
}

// Clocks that are filled, and only read.
#[derive(Clone, Copy)]
pub(crate) struct Filled<'a> {
    pub layout: Layout<'a>,
    pub clocks: &'a [u16],
    ghost filled: { FilledClocks (decode layout.recs.now) layout.ranks.now layout.chosen.now layout.width clocks.now } by { filled_once },
}
