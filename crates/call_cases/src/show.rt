// What a call answered and left, as numbers on the line.
use clocks::Relation;
use pair::Verdict;
use races::Summary;
use trace::Refusal;
use trials::line::{self, number, word};

fn refusal(f: Refusal) {
    line::refusal(f.reason.number(), f.place.0);
}

pub(crate) fn filling(r: Result<usize, Refusal>) {
    match r {
        Ok(chains) => {
            word(b" filled");
            number(chains);
        }
        Err(f) => refusal(f),
    }
}

fn relation(r: Relation) {
    match r {
        Relation::Same => word(b" same"),
        Relation::Before => word(b" before"),
        Relation::After => word(b" after"),
        Relation::Unordered => word(b" unordered"),
    }
}

pub(crate) fn answer(r: Result<Relation, Refusal>) {
    match r {
        Ok(way) => relation(way),
        Err(f) => refusal(f),
    }
}

pub(crate) fn listing(r: Result<Summary, Refusal>) {
    match r {
        Ok(s) => {
            word(b" listed");
            number(s.events);
            number(s.records);
            number(s.chains);
            number(s.count);
        }
        Err(f) => refusal(f),
    }
}

pub(crate) fn pair(r: Result<Verdict, Refusal>) {
    match r {
        Ok(Verdict::Open(k)) => {
            word(b" open");
            number(k);
        }
        Ok(Verdict::Covered(k)) => {
            word(b" covered");
            number(k);
        }
        Err(f) => refusal(f),
    }
}

// The first n of them, after a bar.
pub(crate) fn numbers(list: &[u16], n: usize) {
    word(b" |");
    line::numbers(list, n);
}

pub(crate) fn bytes(list: &[u8], n: usize) {
    word(b" |");
    line::bytes(list, n);
}
