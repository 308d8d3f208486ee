// The printed lines of the trace program: each is written into lent bytes at a position, where it fits.
#![tactic(auto)]

ghost use Rattle.std.specs.Prelude.{◌≡◌, [], ◌∷◌, ◌++◌, ◌+◌, ◌-◌, ◌≤◌, length};
ghost use Rattle.listing.specs.Lines.{decimal, shape_word, mark_word, header_line, pair_line, refused_line, Printed};
ghost use Rattle.listing.specs.loops.Pieces.{Width, Written};

use records::{Operation, Var};

// How many digits n has.
fn width(n: usize) -> usize
    ensures { Width n result }
{
    let mut digits = 1;
    let mut rest = n;
    // Digit by digit: how many there are is what is asked.
    while 10 <= rest {
        rest = rest / 10;
        digits += 1;
    }
    digits
}

// How many bytes a space has from at on.
fn room(space: usize, at: usize) -> usize
    ensures { result ≡ space - at }
{
    space.saturating_sub(at)
}

// Writes the bytes of word.
fn put_word(out: &mut [u8], at: usize, word: &[u8]) -> usize
    requires { at + length word.now ≤ length out.old }
    ensures { Written out.old at word.now (length word.now) out.new result }
{
    for i in 0..word.len() {
        out[at + i] = word[i];
    }
    at + word.len()
}

// Writes the digits of n, last digit first.
fn put_digits(out: &mut [u8], at: usize, n: usize) -> usize
    requires { at + length (decimal n) ≤ length out.old }
    ensures { Written out.old at (decimal n) (length (decimal n)) out.new result }
{
    let after = at + width(n);
    let mut i = after - 1;
    let mut rest = n;
    // By hand: a range over the places would need a case of its own for 0, which has a digit too.
    while 10 <= rest {
        out[i] = 48 + (rest % 10) as u8;
        i -= 1;
        rest = rest / 10;
    }
    out[i] = 48 + rest as u8;
    after
}

// Writes the digits of n, and the byte that ends the field.
fn put_number(out: &mut [u8], at: usize, n: usize, end: u8) -> usize
    requires { at + length (decimal n) + 1 ≤ length out.old }
    ensures { Written out.old at (decimal n ++ end ∷ []) (length (decimal n) + 1) out.new result }
{
    let last = put_digits(out, at, n);
    out[last] = end;
    last + 1
}

// Writes a word, the digits of n, and the byte that ends the field.
fn put_named(out: &mut [u8], at: usize, name: &[u8], n: usize, end: u8) -> usize
    requires { at + length name.now + length (decimal n) + 1 ≤ length out.old }
    ensures { Written out.old at (name.now ++ (decimal n ++ end ∷ []))
        (length name.now + (length (decimal n) + 1)) out.new result }
{
    let at_number = put_word(out, at, name);
    put_number(out, at_number, n, end)
}

// The shape of a pair, and a space.
#[tactic(auto, unfolding(crate::specs::Lines::shape_word, crate::specs::Lines::ascii))]
fn shape_word(shape: u16) -> [u8; 3]
    ensures { result ≡ shape_word shape ++ 32 ∷ [] }
{
    match shape {
        1 => [b'w', b'w', b' '],
        2 => [b'w', b'r', b' '],
        _ => [b'r', b'w', b' '],
    }
}

// Writes the shape of a pair, and a space.
fn put_shape(out: &mut [u8], at: usize, shape: u16) -> usize
    requires { at + 3 ≤ length out.old }
    ensures { Written out.old at (shape_word shape ++ 32 ∷ []) 3 out.new result }
{
    put_word(out, at, &shape_word(shape))
}

// The length of a mark's word.
#[tactic(auto, unfolding(crate::specs::Lines::mark_word, crate::specs::Lines::ascii))]
fn mark_width(mark: u16) -> usize
    ensures { (result ≡ length (mark_word mark)) × (result ≤ 7) }
{
    if mark == 1 { 4 } else { 7 }
}

// Writes the mark of a pair, and the line feed.
#[tactic(auto, unfolding(crate::specs::Lines::mark_word, crate::specs::Lines::ascii))]
fn put_mark(out: &mut [u8], at: usize, mark: u16) -> usize
    requires { at + length (mark_word mark) + 1 ≤ length out.old }
    ensures { Written out.old at (mark_word mark ++ 10 ∷ []) (length (mark_word mark) + 1) out.new result }
{
    if mark == 1 {
        put_word(out, at, b"open\n")
    } else {
        put_word(out, at, b"covered\n")
    }
}

// The length of a header line.
fn header_width(events: usize, records: usize, chains: usize, pairs: usize) -> usize
    ensures { result ≡ 32 + length (decimal events) + length (decimal records) + length (decimal chains) + length (decimal pairs) }
{
    32 + width(events) + width(records) + width(chains) + width(pairs)
}

// Prints the header line at at, where it fits. Gives the position after it, or at where it doesn't fit.
pub fn put_header(
    out: &mut [u8],
    at: usize,
    events: usize,
    records: usize,
    chains: usize,
    pairs: usize,
) -> usize
    ensures { Printed out.old at (header_line events records chains pairs) out.new result }
{
    if room(out.len(), at) < header_width(events, records, chains, pairs) {
        return at;
    }
    let at_records = put_named(out, at, b"events ", events, b' ');
    let at_chains = put_named(out, at_records, b"records ", records, b' ');
    let at_pairs = put_named(out, at_chains, b"chains ", chains, b' ');
    put_named(out, at_pairs, b"pairs ", pairs, b'\n')
}

// The length of a pair's line.
fn pair_width(first: usize, second: usize, cell: usize, mark: u16) -> usize
    ensures { result ≡ 7 + length (decimal first) + length (decimal second) + length (decimal cell) + length (mark_word mark) }
{
    7 + width(first) + width(second) + width(cell) + mark_width(mark)
}

// Prints a pair's line at at, where it fits. Gives the position after it, or at where it doesn't fit.
pub fn put_pair(
    out: &mut [u8],
    at: usize,
    first: Operation,
    second: Operation,
    cell: Var,
    shape: u16,
    mark: u16,
) -> usize
    ensures { Printed out.old at (pair_line first.0 second.0 cell.0 shape mark) out.new result }
{
    let a = first.0 as usize;
    let b = second.0 as usize;
    let c = cell.0 as usize;
    if room(out.len(), at) < pair_width(a, b, c, mark) {
        return at;
    }
    let at_second = put_number(out, at, a, b' ');
    let at_cell = put_number(out, at_second, b, b' ');
    let at_shape = put_number(out, at_cell, c, b' ');
    let at_mark = put_shape(out, at_shape, shape);
    put_mark(out, at_mark, mark)
}

// Prints a refusal's line at at, where it fits. Gives the position after it, or at where it doesn't fit.
pub fn put_refusal(out: &mut [u8], at: usize, number: usize, place: Operation) -> usize
    ensures { Printed out.old at (refused_line number place.0) out.new result }
{
    let p = place.0 as usize;
    let len = 10 + width(number) + width(p);
    if room(out.len(), at) < len {
        return at;
    }
    let at_place = put_named(out, at, b"refused ", number, b' ');
    put_number(out, at_place, p, b'\n')
}
