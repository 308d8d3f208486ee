// The pair question: for a race, what an arrangement keeps that runs its second access without its first, or a cover.
#![tactic(auto)]

mod cover;
mod filled;
mod kept;
mod racing;

ghost use Rattle.std.specs.Prelude.{◌≡◌, ◌+◌, ◌*◌, ◌≤◌, ◌<◌, length, get_or, set};
ghost use Rattle.records.specs.Bytes.{decode};
ghost use Rattle.ranks.specs.Ranks.{ranks_of};
ghost use Rattle.order.specs.Paper.{Prepares};
ghost use Rattle.coverage.specs.Leading.{entries};
ghost use Rattle.races.specs.Traces.{setting_of};
ghost use Rattle.races.specs.loops.FilledClocks.{rows, Clear};
ghost use Rattle.pair.specs.Pair.{entry_numbers, with_entries, kept_entries, pair_ready, PairPromise};
ghost use Rattle.pair.specs.loops.Answers.{AnswersFilled};
ghost use Rattle.pair.specs.loops.PairSearch.{PutsEnd};
ghost use Rattle.pair.specs.loops.Leading.{Marks};

use crate::filled::{Filled, Ranked};
use order::{Call, Prepared};
use ranks::row_at;
use records::{Operation, access};
use slices::{clear, zeros};
use trace::{Reason, Refusal};

// An entry's numbers: an event and its last record, or a race's two records.
pub const ENTRY_NUMBERS: usize = 2;

// What the pair question finds of a race, with the number of entries given.
#[derive(Clone, Copy, PartialEq, Eq)]
pub enum Verdict {
    Open(usize),
    Covered(usize),
}

// Writes entry k of the list space, whose numbers C reads.
pub(crate) fn put_entry(list: &mut [u16], k: usize, first: u16, second: u16)
    requires { entry_numbers * k + 1 < length list.old }
    ensures { list.new ≡ set (set list.old (entry_numbers * k) first) (entry_numbers * k + 1) second }
{
    list[ENTRY_NUMBERS * k] = first;
    list[ENTRY_NUMBERS * k + 1] = second;
}

// Writes the entry of the event action that ends at record i, of row t, where it is kept; gives the number of entries then.
fn put_end(recs: &[u8], work: &[u8], t: usize, i: usize, list: &mut [u16], k: usize) -> usize
    requires { (t < length work.now) × (i < 4096) × (get_or work.now t 0 ≡ 1 → entry_numbers * k + 1 < length list.old) }
    ensures { PutsEnd (decode recs.now) (get_or work.now t 0) i k list.old list.new result }
{
    if work[t] != 1 {
        return k;
    }
    put_entry(list, k, access::event_at(recs, i).0, (i + 1) as u16);
    k + 1
}

// Writes the entries of an open pair whose second record is b; gives their number.
fn put_kept(recs: &[u8], work: &[u8], b: usize, list: &mut [u16]) -> usize
    requires { Marks (decode recs.now) (ranks_of (decode recs.now)) work.now b × (entry_numbers * rows (decode recs.now) ≤ length list.old) }
    ensures { (result ≡ length (entries (setting_of (decode recs.now)) b))
        × (list.new ≡ with_entries (kept_entries (decode recs.now) b) list.old) }
{
    let mut k = 0;
    let mut t = 0;
    for i in 0..b {
        if access::kind_at(recs, i) == 2 {
            k = put_end(recs, work, t, i, list, k);
            t += 1;
        }
    }
    put_entry(list, k, access::event_at(recs, b).0, (b + 1) as u16);
    k + 1
}

// Records a and b of an accepted trace whose clocks are filled, over a work space that is 0 for its event actions. The table of ranks is lent for what leads
// to b, and filled again before a cover is looked for.
fn ask_filled(
    filled: Filled<'_>,
    ranks: &mut [u16; 1025],
    events: usize,
    work: &mut [u8],
    list: &mut [u16],
    a: usize,
    b: usize,
) -> Result<Verdict, Refusal>
    requires ranks_are { (ranks.old ≡ ranks_of (decode filled.recs.now)) × (b < length (decode filled.recs.now)) }
    requires clear { Clear (decode filled.recs.now) events work.old }
    ensures { AnswersFilled (decode filled.entry.recs.now) events a b list.old list.new result × (work.new ≡ work.old) }
{
    let ranked = Ranked { filled, ranks };
    if !ranked.is_race(a, b) {
        return Err(Reason::NoRace.at(Operation(0)));
    }
    if list.len() / ENTRY_NUMBERS < events {
        return Err(Reason::ListSpace.at(Operation(0)));
    }
    let t = row_at(filled.recs, ranks, a);
    let u = row_at(filled.recs, ranks, b);
    kept::mark_leading(filled, work, ranks, u, b);
    if work[t] == 1 {
        ranks::fill_ranks(filled.recs, ranks);
        let count = cover::put_cover(Ranked { filled, ranks }, work, list, a, b);
        clear(work, events);
        return Ok(Verdict::Covered(count));
    }
    let count = put_kept(filled.recs, work, b, list);
    clear(work, events);
    Ok(Verdict::Open(count))
}

// Reads the trace and fills the clocks, for a question about records a and b.
fn prepare_pair(
    bytes: &[u8],
    a: Operation,
    b: Operation,
    width: usize,
    room: usize,
    clocks: &mut [u16],
    chosen: &mut [u16; 1024],
    ranks: &mut [u16; 1025],
) -> Prepared
    ensures { Prepares bytes.now (pair_ready bytes.now width (length clocks.old) room a.0 b.0) width
        clocks.old clocks.new chosen.new ranks.old ranks.new result.answer result.trace }
{
    let call = Call {
        lowest: a.min(b),
        highest: a.max(b),
        width,
        room,
    };
    order::prepare(bytes, call, clocks, chosen, ranks)
}

// The pair question: clocks are filled on the way, and entries are two numbers each in the list space.
pub fn ask_pair(
    bytes: &[u8],
    width: usize,
    clocks: &mut [u16],
    work: &mut [u8],
    list: &mut [u16],
    a: Operation,
    b: Operation,
) -> Result<Verdict, Refusal>
    ensures { PairPromise bytes.now width clocks.old clocks.new
        work.old work.new list.old list.new a.0 b.0 result }
{
    let mut chosen = zeros::<u16, 1024>();
    let mut ranks = zeros::<u16, 1025>();
    let room = work.len();
    let prepared = prepare_pair(bytes, a, b, width, room, clocks, &mut chosen, &mut ranks);
    let t = prepared.trace;
    let events = t.events;
    clear(work, events);
    let chains = prepared.answer?;
    let i = (a.0 - 1) as usize;
    let j = (b.0 - 1) as usize;
    let filled = Filled {
        recs: access::records(bytes, t),
        chosen: &chosen,
        width,
        chains,
        clocks,
    };
    ask_filled(filled, &mut ranks, events, work, list, i, j)
}
