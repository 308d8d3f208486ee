// Sets of numbers below 64.
use trials::numbers::plus;
use trials::sets::is_in;

pub(crate) fn has_all(set: usize, part: usize) -> bool {
    set & part == part
}

// How many are in it.
pub(crate) fn size(set: usize) -> usize {
    let mut n = 0;
    for t in 0..62 {
        if is_in(set, t) {
            n = plus(n, 1);
        }
    }
    n
}
