// The whole text that the trace program prints, for every input.
#![tactic(auto)]

ghost use Rattle.std.specs.Prelude.{◌≡◌, ◌*◌, ◌≤◌};
ghost use Rattle.listing.specs.Lines.{Printed};
ghost use Rattle.report.specs.Text.{entry_line, entry_lines, Prints, lines_of};

use races::ENTRY_NUMBERS;
use records::{Operation, Var};
use slices::{get, zeros};
use trace::Reason;

// At most that many bytes of input; more is refusal 13.
pub const LONGEST: usize = 32768;

// The line of entry i of the list.
fn put_entry(list: &[u16], i: usize, text: &mut [u8], at: usize) -> usize
    requires { i ≤ 8192 }
    ensures { Printed text.old at (entry_line list.now i) text.new result }
{
    let from = ENTRY_NUMBERS * i;
    listing::put_pair(
        text,
        at,
        Operation(get(list, from)),
        Operation(get(list, from + 1)),
        Var(get(list, from + 2)),
        get(list, from + 3),
        get(list, from + 4),
    )
}

// The lines of that many entries.
fn put_entries(list: &[u16], count: usize, text: &mut [u8], at: usize) -> usize
    requires { count ≤ 8192 }
    ensures { Prints text.old at (entry_lines list.now 0 count) text.new result }
{
    let mut next = at;
    for i in 0..count {
        next = put_entry(list, i, text, next);
    }
    next
}

// Writes the text for that input; its length. Each line is written where it fits.
pub fn report(input: &[u8], text: &mut [u8]) -> usize
    ensures { Prints text.old 0 (lines_of input.now) text.new result }
{
    if LONGEST < input.len() {
        return listing::put_refusal(text, 0, Reason::TooLong.number() as usize, Operation(0));
    }
    let mut clocks = zeros::<u16, 32768>();
    let mut work = zeros::<u8, 1024>();
    let mut list = zeros::<u16, 40960>();
    let found = races::short_list(input, 32, &mut clocks, &mut work, &mut list);
    match found {
        Ok(s) => {
            let at = listing::put_header(text, 0, s.events, s.records, s.chains, s.count);
            put_entries(&list, s.count, text, at)
        }
        Err(f) => listing::put_refusal(text, 0, f.reason.number() as usize, f.place),
    }
}
