// One line for each group of cases: a word, then what was found.

use records::Trace;
use trace::Refusal;
use trials::line::{self, number, word};

pub(crate) fn reading(r: Result<Trace, Refusal>) {
    match r {
        Ok(t) => {
            word(b" accepted");
            number(t.start);
            number(t.records);
            number(t.events);
        }
        Err(f) => {
            line::refusal(f.reason.number(), f.place.0);
        }
    }
}
