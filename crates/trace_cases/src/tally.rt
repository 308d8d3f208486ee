// Groups of many cases: how many agree with what is expected, and how many don't.
ghost use Rattle.std.specs.Prelude.{◌≤◌};

use crate::{identifiers, kinds};
use trials::line::{line_end, number, word};

// Case i of a group: 0 for the identifiers, 1 for the kinds.
fn agrees_at(group: u8, i: usize) -> usize
    ensures { result ≤ 1 }
{
    if group == 0 {
        return identifiers::agrees_at(i);
    }
    kinds::agrees_at(i)
}

fn agreements(group: u8, cases: usize) -> usize
    ensures { result ≤ cases }
{
    let mut agree = 0;
    for i in 0..cases {
        agree += agrees_at(group, i);
    }
    agree
}

fn tally(group: u8, cases: usize) {
    let agree = agreements(group, cases);
    number(agree);
    number(cases - agree);
    line_end();
}

pub(crate) fn identifiers() {
    word(b"identifiers");
    tally(0, 80);
}

pub(crate) fn kinds() {
    word(b"kinds");
    tally(1, 768);
}
