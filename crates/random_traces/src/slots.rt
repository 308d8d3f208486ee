// Numbers narrowed, remainders, and the bytes of so many records.

// An index past the end of every slice.
pub(crate) const NOWHERE: usize = 1000000;

pub(crate) fn size(x: u32) -> usize {
    x as usize
}

// The number in 16 bits, or the largest of those.
pub(crate) fn narrow(x: usize) -> u16 {
    if x < 65536 {
        return x as u16;
    }
    65535
}

pub(crate) fn remainder(x: usize, n: usize) -> usize {
    if n == 0 {
        return 0;
    }
    x % n
}

// Five for each of n, up to 6,000.
pub(crate) fn fives(n: usize) -> usize {
    if n < 6000 {
        return 5 * n;
    }
    NOWHERE
}
