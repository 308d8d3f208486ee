// Both lists as pair structs, written into a lent slice: the lists over numbers, and a copy of their entries. Thin: all decisions are made over numbers.
#![tactic(auto)]

ghost use Rattle.std.specs.Prelude.{◌≡◌, true, false, ◌+◌, ◌*◌, ◌≤◌, length};
ghost use Rattle.races.specs.Lists.{entry_numbers};
ghost use Rattle.races.specs.Paper.{Lists};
ghost use Rattle.pair_lists.specs.Pairs.{space, PairLists};
ghost use Rattle.pair_lists.specs.loops.Copying.{Within, pair_at, puts};

use races::{ENTRY_NUMBERS, Summary};
use records::{Operation, Var};
use trace::Refusal;

// An entry of a list: its first and second record, its cell, its shape (1 ww, 2 wr, 3 rw) and its mark (1 open, 0 covered).
#[derive(Clone, Copy)]
pub struct Pair {
    pub first: Operation,
    pub second: Operation,
    pub cell: Var,
    pub shape: u16,
    pub mark: u16,
}

// How many numbers the list may have, so that its entries fit in both spaces.
fn space_for(numbers: usize, pairs: usize) -> usize
    ensures { (result ≡ space numbers pairs) × (result ≤ numbers) }
{
    if numbers / ENTRY_NUMBERS < pairs {
        return numbers;
    }
    ENTRY_NUMBERS * pairs
}

fn list_numbers(
    bytes: &[u8],
    width: usize,
    clocks: &mut [u16],
    work: &mut [u8],
    list: &mut [u16],
    short: bool,
) -> Result<Summary, Refusal>
    ensures { Lists short bytes.now width clocks.old clocks.new work.old work.new
        list.old list.new result }
{
    if short {
        return races::short_list(bytes, width, clocks, work, list);
    }
    races::all_races(bytes, width, clocks, work, list)
}

// The list over numbers, where it has at most `room` entries.
fn list_within(
    bytes: &[u8],
    width: usize,
    clocks: &mut [u16],
    work: &mut [u8],
    numbers: &mut [u16],
    room: usize,
    short: bool,
) -> Result<Summary, Refusal>
    ensures { Within short bytes.now width clocks.old clocks.new work.old work.new
        numbers.old numbers.new room result }
{
    let space = space_for(numbers.len(), room);
    list_numbers(bytes, width, clocks, work, &mut numbers[..space], short)
}

// The pair that an entry's numbers say.
fn pair_at(numbers: &[u16], i: usize) -> Pair
    requires { entry_numbers * i + entry_numbers ≤ length numbers.now }
    ensures { result ≡ pair_at numbers.now i }
{
    let k = ENTRY_NUMBERS * i;
    Pair {
        first: Operation(numbers[k]),
        second: Operation(numbers[k + 1]),
        cell: Var(numbers[k + 2]),
        shape: numbers[k + 3],
        mark: numbers[k + 4],
    }
}

// The first n pairs are set to what the numbers say.
fn copy_out(pairs: &mut [Pair], numbers: &[u16], n: usize)
    requires { (n ≤ length pairs.old) × (entry_numbers * n ≤ length numbers.now) }
    ensures { pairs.new ≡ puts pairs.old numbers.now n }
{
    for i in 0..n {
        pairs[i] = pair_at(numbers, i);
    }
}

// The short list, or the list of all races.
fn list_into(
    bytes: &[u8],
    width: usize,
    clocks: &mut [u16],
    work: &mut [u8],
    numbers: &mut [u16],
    pairs: &mut [Pair],
    short: bool,
) -> Result<Summary, Refusal>
    ensures { PairLists short bytes.now width clocks.old clocks.new work.old work.new
        numbers.old numbers.new pairs.old pairs.new result }
{
    let made = list_within(bytes, width, clocks, work, numbers, pairs.len(), short)?;
    copy_out(pairs, numbers, made.count);
    Ok(made)
}

// The list of all races of a trace, written into the pairs. The numbers are the list's space while it is made.
pub fn all_races_into(
    bytes: &[u8],
    width: usize,
    clocks: &mut [u16],
    work: &mut [u8],
    numbers: &mut [u16],
    pairs: &mut [Pair],
) -> Result<Summary, Refusal>
    ensures { PairLists false bytes.now width clocks.old clocks.new work.old work.new
        numbers.old numbers.new pairs.old pairs.new result }
{
    list_into(bytes, width, clocks, work, numbers, pairs, false)
}

// The short list of a trace, likewise.
pub fn short_list_into(
    bytes: &[u8],
    width: usize,
    clocks: &mut [u16],
    work: &mut [u8],
    numbers: &mut [u16],
    pairs: &mut [Pair],
) -> Result<Summary, Refusal>
    ensures { PairLists true bytes.now width clocks.old clocks.new work.old work.new
        numbers.old numbers.new pairs.old pairs.new result }
{
    list_into(bytes, width, clocks, work, numbers, pairs, true)
}
