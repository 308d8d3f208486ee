// A table of bits, a triangle of 1,024 rows, and four sets of numbers below 1,024, in words of 64 bits.
#![tactic(auto)]

ghost use Rattle.std.specs.Prelude.{◌≡◌, ◌+◌, ◌≤◌, ◌<◌, length};
ghost use Rattle.slices.specs.Slices.{zeros};
ghost use Rattle.bits.specs.Words.{bit_at, with_bit, or_from, or_others};
ghost use Rattle.bits.specs.Table.{row_start, bit_of, put_bit, or_row, member, or_set};

// Is bit k of a word set?
#[tactic(auto, unfolding(crate::specs::Words::bit_at))]
fn bit(w: u64, k: usize) -> bool
    requires { k < 64 }
    ensures { result ≡ bit_at w k }
{
    (w >> k) % 2 == 1
}

fn with_bit(w: u64, k: usize) -> u64
    requires { k < 64 }
    ensures { result ≡ with_bit w k }
{
    w | (1 << k)
}

// n words from place b on are taken into the words from place a on.
fn or_words(words: &mut [u64], a: usize, b: usize, n: usize)
    requires { (a + n ≤ length words.old) × (b + n ≤ length words.old) }
    ensures { words.new ≡ or_from a b 0 n words.old }
{
    for i in 0..n {
        words[a + i] |= words[b + i];
    }
}

// The same from other words. Two functions, since a row that is read and one that is written in the same words can't be lent side by side.
fn or_others(words: &mut [u64], a: usize, others: &[u64], b: usize, n: usize)
    requires { (a + n ≤ length words.old) × (b + n ≤ length others.now) }
    ensures { words.new ≡ or_others others.now a b 0 n words.old }
{
    for i in 0..n {
        words[a + i] |= others[b + i];
    }
}

// The first word of row u.
#[tactic(auto, unfolding(crate::specs::Table::row_start))]
fn row_start(u: usize) -> usize
    requires { u < 1024 }
    ensures { result ≡ row_start u }
{
    if u < 512 {
        17 * u
    } else {
        17 * (1023 - u) + (16 - u / 64)
    }
}

// No bit in any word.
pub fn clear(words: &mut [u64])
    ensures { words.new ≡ zeros (length words.old) }
{
    words.fill(0);
}

// Is p in row u?
#[tactic(auto, using(crate::proofs::TableLaws::row_inside), unfolding(crate::specs::Table::bit_of))]
pub fn get(table: &[u64], p: usize, u: usize) -> bool
    ensures { result ≡ bit_of table.now p u }
{
    if u < p || 1024 <= u {
        return false;
    }
    let at = row_start(u) + p / 64;
    // In a whole table the place needs no test: the walks along links ask nothing more often.
    let word = if table.len() < 8704 {
        slices::get(table, at)
    } else {
        table[at]
    };
    bit(word, p % 64)
}

// p enters row u.
#[tactic(auto, using(crate::proofs::TableLaws::row_inside), unfolding(crate::specs::Table::put_bit))]
pub fn put(table: &mut [u64], p: usize, u: usize)
    ensures { table.new ≡ put_bit p u table.old }
{
    if u < p || 1024 <= u {
        return;
    }
    let at = row_start(u) + p / 64;
    if at < table.len() {
        table[at] = with_bit(table[at], p % 64);
    }
}

// Row p is taken into row u, p before u.
#[tactic(auto, using(crate::proofs::TableLaws::row_inside), unfolding(crate::specs::Table::or_row))]
pub fn or_row(table: &mut [u64], p: usize, u: usize)
    ensures { table.new ≡ or_row p u table.old }
{
    if p < u && u < 1024 && 8704 <= table.len() {
        or_words(table, row_start(u), row_start(p), p / 64 + 1);
    }
}

// Is x in set l?
#[tactic(auto, unfolding(crate::specs::Table::member))]
pub fn has(sets: &[u64], l: usize, x: usize) -> bool
    ensures { result ≡ member sets.now l x }
{
    l < 4 && x < 1024 && bit(slices::get(sets, 16 * l + x / 64), x % 64)
}

// Row x of the table is taken into set l.
#[tactic(auto, using(crate::proofs::TableLaws::row_inside), unfolding(crate::specs::Table::or_set))]
pub fn or_set(sets: &mut [u64], l: usize, table: &[u64], x: usize)
    ensures { sets.new ≡ or_set table.now l x sets.old }
{
    if l < 4 && x < 1024 && 64 <= sets.len() && 8704 <= table.len() {
        or_others(sets, 16 * l, table, row_start(x), x / 64 + 1);
    }
}
