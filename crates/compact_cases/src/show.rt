// What the compactor answered and left, as numbers on the line.

use compactor::Slim;
use trace::Refusal;
use trials::line::{self, number, word};

pub(crate) fn compacting(r: Result<Slim, Refusal>) {
    match r {
        Ok(s) => {
            word(b" compacted");
            number(s.length);
            number(s.dropped);
        }
        Err(f) => {
            line::refusal(f.reason.number(), f.place.0);
        }
    }
}

// The first n of them, after a bar.
pub(crate) fn bytes(list: &[u8], n: usize) {
    word(b" |");
    line::bytes(list, n);
}
