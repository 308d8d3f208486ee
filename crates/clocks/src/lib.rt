// The lent clocks: whether they have space for the rows, how two rows stand to each other, and merging and clearing rows.
#![tactic(auto)]

ghost use Rattle.std.specs.Prelude.{◌≡◌, ◌&&◌, ◌+◌, ◌*◌, ◌<◌, min, max, ltb, length, get_or, set};
ghost use Rattle.clocks.specs.Rows.{space_for, has_row, merge_row, one_more, copy_row, clear_row, clear_rows};
ghost use Rattle.clocks.specs.WayRound.{relation_paper, relate_entries, relate_in, says_unordered, says_before};

use slices::{clear, get};

// Whether the width is in range and that many rows fit the clock space.
#[tactic(auto, unfolding(crate::specs::Rows::space_for))]
pub fn has_space(width: usize, events: usize, space: usize) -> bool
    ensures { result ≡ space_for width events space }
{
    (1..=1024).contains(&width) && events <= space / width
}

// Row u's entry at chain c.
fn entry(clocks: &[u16], width: u16, u: u16, c: u16) -> u16
    ensures { result ≡ get_or clocks.now (u * width + c) 0 }
{
    get(clocks, (u as usize) * (width as usize) + (c as usize))
}

// Which way round two event actions stand.
#[derive(Clone, Copy, PartialEq, Eq)]
pub enum Relation {
    Same,
    Before,
    After,
    Unordered,
}

// Which way round, by entries of two rows: the first's own one and the second's at that chain, the second's own one and the first's at that chain. Rows that
// are the same have equal entries, so whether they are is asked only where the first two allow it.
#[tactic(auto, unfolding(crate::specs::WayRound::relate_entries))]
pub fn relate_entries(same: bool, own: u16, there: u16, second: u16, back: u16) -> Relation
    ensures { relation_paper result ≡ relate_entries same own there second back }
{
    if own <= there {
        if same {
            Relation::Same
        } else {
            Relation::Before
        }
    } else if second <= back {
        Relation::After
    } else {
        Relation::Unordered
    }
}

// How rows t and u stand to each other, by t's entry at its chain c and u's at its chain d.
pub fn relate(clocks: &[u16], width: u16, t: u16, c: u16, u: u16, d: u16) -> Relation
    ensures { relation_paper result ≡ relate_in clocks.now width t c u d }
{
    let own = entry(clocks, width, t, c);
    let there = entry(clocks, width, u, c);
    let second = entry(clocks, width, u, d);
    let back = entry(clocks, width, t, d);
    relate_entries(t == u, own, there, second, back)
}

// Does neither happen before the other?
pub fn is_unordered(way: Relation) -> bool
    ensures { result ≡ says_unordered (relation_paper way) }
{
    way == Relation::Unordered
}

// Does the first happen before the second, or is it the same?
pub fn is_before(way: Relation) -> bool
    ensures { result ≡ says_before (relation_paper way) }
{
    matches!(way, Relation::Same | Relation::Before)
}

// Does row u stand in the clocks?
#[tactic(auto, unfolding(crate::specs::Rows::has_row))]
fn has_row(space: usize, width: usize, u: u16) -> bool
    ensures { result ≡ has_row space width u }
{
    width <= 1024 && (u as usize) * width + width <= space
}

// Do rows p and u stand in the clocks, p before u?
fn fits(space: usize, width: usize, p: u16, u: u16) -> bool
    ensures { result ≡ (ltb p u && has_row space width u) }
{
    p < u && has_row(space, width, u)
}

// How many chains row p can have where that many are taken: no more than begins up to its own.
fn most(chains: usize, p: u16) -> usize
    ensures { result ≡ min chains (p + 1) }
{
    if (p as usize) < chains {
        (p as usize) + 1
    } else {
        chains
    }
}

// The smaller of two numbers. Test by test, as `most`: by `min` both are worked out for rows that are not merged too, and a list over sends takes up to
// 1.14 of the instructions.
fn smaller(x: usize, y: usize) -> usize
    ensures { result ≡ min x y }
{
    if y < x { y } else { x }
}

// Row p is merged into row u; no other part is written. Every row is 0 past its chains, so a multiple of sixteen entries is gone through, where the width
// allows it.
pub fn merge_row(clocks: &mut [u16], width: usize, chains: usize, p: u16, u: u16)
    ensures { clocks.new ≡ merge_row width chains p u clocks.old }
{
    if !fits(clocks.len(), width, p, u) {
        return;
    }
    let a = (u as usize) * width;
    let e = a + width;
    let b = (p as usize) * width;
    let entries = smaller(width, (most(chains, p) + 15) / 16 * 16);
    for c in 0..entries {
        let value = clocks[b + c];
        let row = &mut clocks[a..e];
        row[c] = row[c].max(value);
    }
}

// One more at entry c of a row, where it has one that can be raised.
#[tactic(auto, unfolding(crate::specs::Rows::one_more))]
pub fn add_one(row: &mut [u16], c: usize)
    ensures { row.new ≡ one_more c row.old }
{
    if c < row.len() && row[c] < 65535 {
        row[c] += 1;
    }
}

// Row p is copied over row u, whatever that holds; no other part is written. Entries as far as merging goes, to a multiple of 32 where the width allows it.
pub fn copy_row(clocks: &mut [u16], width: usize, chains: usize, p: u16, u: u16)
    ensures { clocks.new ≡ copy_row width chains p u clocks.old }
{
    if !fits(clocks.len(), width, p, u) {
        return;
    }
    let a = (u as usize) * width;
    let e = a + width;
    let b = (p as usize) * width;
    let entries = smaller(width, (most(chains, p) + 31) / 32 * 32);
    for c in 0..entries {
        let value = clocks[b + c];
        let row = &mut clocks[a..e];
        row[c] = value;
    }
    let z = a + entries;
    clear(&mut clocks[z..e], width);
}

// Zeros in row u.
pub fn clear_row(clocks: &mut [u16], width: usize, u: u16)
    ensures { clocks.new ≡ clear_row width u clocks.old }
{
    if !has_row(clocks.len(), width, u) {
        return;
    }
    let a = (u as usize) * width;
    let e = a + width;
    clear(&mut clocks[a..e], width);
}

// Zeros in the first rows.
pub fn clear_rows(clocks: &mut [u16], width: usize, rows: u16)
    ensures { clocks.new ≡ clear_rows width rows clocks.old }
{
    for u in 0..rows {
        clear_row(clocks, width, u);
    }
}
