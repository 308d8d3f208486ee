// Links that deliver in order, against the rules as they stand. Of a trace written out: the position at which 31 stops it, or the number of its records,
// the differences from the rules, and the event actions ordered by then. Positions count from 0. Then all traces of a few forms, and random ones.
#![tactic(auto)]

mod cases;
mod draft;
mod random;
mod rules;
mod show;

use cases::Counts;
use records::access;
use trials::line::word;

fn count_text(text: &[u8], x: usize, before: Counts) -> Counts {
    let mut bytes = draft::space();
    draft::put_text(&mut bytes, text, x);
    cases::compare(access::records_from(&bytes, 0, draft::count(text)), before)
}

fn case(name: &[u8], text: &[u8]) {
    let mut bytes = draft::space();
    draft::put_text(&mut bytes, text, 0);
    word(name);
    word(b"\n  ");
    word(text);
    word(b"\n");
    cases::show(access::records_from(&bytes, 0, draft::count(text)));
}

fn one_sender() {
    case(b"no record", b"");
    case(b"in order", b"b1- 012 013 e1- b2- e2- b3- e3- ");
    case(b"out of order", b"b1- 012 013 e1- b3- e3- b2- e2- ");
    case(
        b"one target again and again",
        b"b1- 012 012 013 013 e1- b2- e2- b3- e3- ",
    );
    case(b"2, 3, 2: not 2", b"b1- 012 013 012 e1- b2- e2- b3- e3- ");
    case(b"2, 3, 2: nor 3", b"b1- 012 013 012 e1- b3- e3- b2- e2- ");
}

fn four_links() {
    case(
        b"each target on its own link",
        b"b1- 012 113 214 315 e1- b5- e5- b4- e4- b3- e3- b2- e2- ",
    );
    case(
        b"two targets on each link",
        b"b1- 012 113 214 315 016 117 218 319 e1- b2- e2- b3- e3- b4- e4- b5- e5- b6- e6- b7- e7- b8- e8- b9- e9- ",
    );
    case(
        b"relay",
        b"b1- 012 013 e1- b2- 124 e2- b3- 135 e3- b4- 246 e4- b5- 257 e5- b6- 368 e6- b7- 379 e7- b8- e8- b9- e9- ",
    );
    case(
        b"relay, out of order at its end",
        b"b1- 012 013 e1- b2- 124 e2- b3- 135 e3- b4- 246 e4- b5- 257 e5- b6- 368 e6- b7- 379 e7- b9- e9- b8- e8- ",
    );
}

fn never_begun() {
    case(b"behind one that never begins", b"b1- 015 012 e1- b2- e2- ");
    case(
        b"before one that never begins",
        b"b1- 012 015 113 115 e1- b2- e2- b3- e3- ",
    );
    case(
        b"behind one that never begins, by a relay",
        b"b1- 012 013 e1- b2- 125 e2- b3- 134 e3- b4- e4- ",
    );
}

fn forks() {
    case(b"a fork is on no link", b"b1- 012 f13 e1- b3- e3- b2- e2- ");
    case(
        b"a fork and a send to one event",
        b"b1- 012 f13 013 e1- b2- e2- b3- e3- ",
    );
    case(
        b"a fork and a send to one event, out of order",
        b"b1- 012 f13 013 e1- b3- e3- b2- e2- ",
    );
}

fn several_senders() {
    case(
        b"unordered senders",
        b"b1- 013 e1- b2- 024 e2- b4- e4- b3- e3- ",
    );
    case(
        b"two senders to one target",
        b"b1- 013 e1- b2- 024 023 e2- b4- e4- b3- e3- ",
    );
    case(
        b"two senders to one target, out of order",
        b"b1- 013 e1- b2- 024 023 e2- b3- e3- b4- e4- ",
    );
}

fn joins() {
    case(
        b"senders ordered by a join",
        b"b1- 013 e1- j21 b2- 024 e2- b3- e3- b4- e4- ",
    );
    case(
        b"senders ordered by a join, out of order",
        b"b1- 013 e1- j21 b2- 024 e2- b4- e4- b3- e3- ",
    );
    case(
        b"a join after a link",
        b"b1- 013 e1- j21 b2- 024 e2- b3- 135 e3- b4- e4- j84 b8- 186 e8- b5- e5- b6- e6- ",
    );
}

// Every x below n.
fn form(text: &[u8], n: usize, before: Counts) -> Counts {
    let mut c = before;
    for x in 0..n {
        c = count_text(text, x, c);
    }
    c
}

fn forms(c: Counts) -> Counts {
    let c1 = form(b"b1- *10 *11 e1- b2- *22 *23 e2- b3- *34 e3- ", 19600, c);
    let c2 = form(
        b"b1- *10 *11 e1- b2- *22 *23 e2- j31 b3- *34 e3- b4- e4- ",
        19600,
        c1,
    );
    form(
        b"b1- *10 *11 e1- b2- *22 *23 e2- b4- e4- b3- e3- ",
        4900,
        c2,
    )
}

fn count_random(seed: usize, before: Counts) -> Counts {
    let mut bytes = draft::space();
    let n = random::put_trace(&mut bytes, random::shape_of(seed));
    cases::compare(access::records_from(&bytes, 0, n), before)
}

fn randoms(before: Counts) -> Counts {
    let mut c = before;
    for seed in 0..1000 {
        c = count_random(seed, c);
    }
    c
}

fn main() {
    one_sender();
    four_links();
    never_begun();
    forks();
    several_senders();
    joins();
    word(b"all of three forms:");
    cases::show_counts(forms(cases::nothing()));
    word(b"random:");
    cases::show_counts(randoms(cases::nothing()));
}
