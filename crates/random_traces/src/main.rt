// Random traces, accepted and damaged, and all of two frames: every answer is compared with a plain path search.
#![tactic(auto)]

mod calls;
mod cases;
mod chains;
mod damage;
mod definitions;
mod draft;
mod expectations;
mod frames;
mod judge;
mod known;
mod order_cases;
mod pair_answers;
mod paths;
mod sends;
mod slim;
mod slim_cases;
mod slots;
mod tally;

use tally::Counts;

// 3,500 traces as they were put together, then each of them damaged three times.
fn run(before: Counts) -> Counts {
    let mut tally = before;
    for x in 0..14000 {
        tally = cases::compare(x, tally);
    }
    tally
}

// Every x below n, for a frame of so many event actions.
fn run_frame(text: &[u8], events: usize, n: usize, before: Counts) -> Counts {
    let mut tally = before;
    for x in 0..n {
        tally = cases::compare_frame(text, events, x, tally);
    }
    tally
}

// A relay over two links is among the first ones; in the second frame 4 begins before 3, after a join.
fn run_frames(before: Counts) -> Counts {
    let tally = run_frame(
        b"b1- *10 *11 w11 e1- b2- *22 w21 r22 e2- b3- *33 w32 w31 e3- b4- *44 r41 w42 e4- b5- r51 w52 e5- ",
        5,
        3675,
        before,
    );
    run_frame(
        b"b1- *10 *11 w11 e1- b2- *22 *23 w21 r22 e2- j41 b4- w42 w41 e4- b3- r31 w32 e3- ",
        4,
        1225,
        tally,
    )
}

fn main() {
    tally::show(slim_cases::run(run_frames(run(tally::nothing()))));
}
