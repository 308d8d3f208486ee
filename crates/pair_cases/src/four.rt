// A list made into four pairs of its own, by value: what functions over a slice of pairs are run with.
ghost use Rattle.std.specs.Prelude.{◌≡◌, true, false};
ghost use Rattle.pair_lists.specs.Pairs.{PairLists};
ghost use Rattle.pair_cases.specs.FourPairs.{zero_pairs};

use pair_lists::{Pair, all_races_into, short_list_into};
use races::Summary;
use records::{Operation, Var};
use trace::Refusal;

#[derive(Clone, Copy)]
pub(crate) struct Few {
    pub answer: Result<Summary, Refusal>,
    pub pairs: [Pair; 4],
}

fn no_pairs() -> [Pair; 4]
    ensures { result ≡ zero_pairs }
{
    [Pair {
        first: Operation(0),
        second: Operation(0),
        cell: Var(0),
        shape: 0,
        mark: 0,
    }; 4]
}

// The list of all races where it has at most four entries, by value: a caller lends no structs.
pub(crate) fn all_races_few(
    bytes: &[u8],
    width: usize,
    clocks: &mut [u16],
    work: &mut [u8],
    numbers: &mut [u16],
) -> Few
    ensures { PairLists false bytes.now width clocks.old clocks.new work.old work.new
        numbers.old numbers.new zero_pairs result.pairs result.answer }
{
    let mut pairs = no_pairs();
    let answer = all_races_into(bytes, width, clocks, work, numbers, &mut pairs);
    Few {
        answer: answer,
        pairs: pairs,
    }
}

// The short list, likewise.
pub(crate) fn short_list_few(
    bytes: &[u8],
    width: usize,
    clocks: &mut [u16],
    work: &mut [u8],
    numbers: &mut [u16],
) -> Few
    ensures { PairLists true bytes.now width clocks.old clocks.new work.old work.new
        numbers.old numbers.new zero_pairs result.pairs result.answer }
{
    let mut pairs = no_pairs();
    let answer = short_list_into(bytes, width, clocks, work, numbers, &mut pairs);
    Few {
        answer: answer,
        pairs: pairs,
    }
}
