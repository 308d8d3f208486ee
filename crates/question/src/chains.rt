// The chains from the trace alone, without clocks: what happens before a row is marked in one pass down the records.
ghost use Rattle.std.specs.Prelude.{◌≡◌, false, ◌≤◌, ◌<◌, length};
ghost use Rattle.records.specs.Bytes.{decode};
ghost use Rattle.records.specs.Kinds.{has_send};
ghost use Rattle.question.specs.loops.Marking.{marked, mark_in, marks_in};
ghost use Rattle.question.specs.loops.ChainPass.{marked_chain, own_chain, enter_chain, no_members, said_by, turn_members, RoomFor, ReadyChains, PassesChains};

use ranks::{Ordering, ordering_at};
use records::access;
use slices::{clear, get, put, zeros};

fn is_marked(marks: &[u8], row: usize) -> bool
    ensures { result ≡ marked marks.now row }
{
    get(marks, row) == 1
}

// A link whose later end is marked marks its earlier end.
fn mark_link(recs: &[u8], ranks: &[u16], i: usize, marks: &mut [u8])
    ensures { marks.new ≡ mark_in (said_by ranks.now (decode recs.now) i) marks.old }
{
    if let Ordering::Link(from, to) = ordering_at(recs, ranks, i) {
        if is_marked(marks, to as usize) {
            put(marks, from as usize, 1);
        }
    }
}

// The rows that happen before row u, which begins at position i, in the lent table, whatever it held.
fn mark_before(recs: &[u8], ranks: &[u16], i: usize, u: usize, marks: &mut [u8])
    ensures { marks.new ≡ marks_in (said_by ranks.now (decode recs.now)) i u (length marks.old) }
{
    clear(marks, marks.len());
    put(marks, u, 1);
    for j in (0..i).rev() {
        mark_link(recs, ranks, j, marks);
    }
}

// The last member of each chain, how many chains are taken, more than the width where it has none left, and the chains of the two rows asked for: 0
// before a row enters one.
#[derive(Drop)]
pub(crate) struct Members {
    pub(crate) lasts: [u16; 1024],
    pub(crate) chains: usize,
    pub(crate) first: u16,
    pub(crate) second: u16,
}

// The two rows asked for, and how many chains there may be.
#[derive(Clone, Copy)]
pub(crate) struct Asked {
    pub(crate) first: usize,
    pub(crate) second: usize,
    pub(crate) width: usize,
}

// The chain of a row asked for, where row u enters chain c.
fn own_chain(asked: usize, u: usize, c: usize, own: u16) -> u16
    requires { c < 1024 }
    ensures { result ≡ own_chain asked u c own }
{
    if u == asked { c as u16 } else { own }
}

impl Members {
    pub(crate) fn none() -> Members
        ensures { result ≡ no_members }
    {
        Members {
            lasts: zeros::<u16, 1024>(),
            chains: 0,
            first: 0,
            second: 0,
        }
    }

    // Row u enters chain c.
    pub(crate) fn enter(&mut self, asked: Asked, u: usize, c: usize)
        requires { (asked.width ≤ 1024) × (u < 1024) }
        ensures { self.new ≡ enter_chain asked.first asked.second asked.width u self.old c }
    {
        if asked.width <= c {
            self.chains = asked.width + 1;
            return;
        }
        self.lasts[c] = u as u16;
        self.first = own_chain(asked.first, u, c, self.first);
        self.second = own_chain(asked.second, u, c, self.second);
        self.chains = self.chains.max(c + 1);
    }
}

// The lowest chain whose last member is marked, or a new one.
fn marked_chain(marks: &[u8], members: &Members) -> usize
    requires { members.now.chains ≤ 1024 }
    ensures { result ≡ marked_chain marks.now members.now.lasts members.now.chains }
{
    for c in 0..members.chains {
        if is_marked(marks, members.lasts[c] as usize) {
            return c;
        }
    }
    members.chains
}

// The record at position i.
fn turn(recs: &[u8], ranks: &[u16], i: usize, marks: &mut [u8], members: &mut Members, asked: Asked)
    requires { (asked.width ≤ 1024) × (length marks.old ≡ 1024) × RoomFor (said_by ranks.now (decode recs.now) i) members.old }
    ensures { members.new
        ≡ turn_members ranks.now (decode recs.now) asked.first asked.second asked.width i (said_by ranks.now (decode recs.now) i) members.old }
{
    let Ordering::Begin(row) = ordering_at(recs, ranks, i) else {
        return;
    };
    let u = row as usize;
    mark_before(recs, ranks, i, u, marks);
    let c = marked_chain(marks, members);
    members.enter(asked, u, c);
}

// How far the pass came, the position of the begin that needs one chain more than the width has or the number of records; and the chains of the rows asked for.
#[derive(Clone, Copy)]
pub(crate) struct Passed {
    pub position: usize,
    pub first: u16,
    pub second: u16,
}

// One pass over the records, where no record is a send.
pub(crate) fn chain_pass(recs: &[u8], ranks: &[u16], asked: Asked) -> Passed
    requires { ReadyChains (decode recs.now) asked.width ranks.now × (has_send (decode recs.now) ≡ false) }
    ensures { PassesChains (decode recs.now) asked.first asked.second asked.width result.position result.first result.second }
{
    let n = access::count(recs);
    let mut marks = zeros::<u8, 1024>();
    let mut members = Members::none();
    for i in 0..n {
        turn(recs, ranks, i, &mut marks, &mut members, asked);
        if asked.width < members.chains {
            return Passed {
                position: i,
                first: members.first,
                second: members.second,
            };
        }
    }
    Passed {
        position: n,
        first: members.first,
        second: members.second,
    }
}
