// Both lists: for each second access, the first accesses that race with it, counted, then written, then marked.
ghost use Rattle.std.specs.Prelude.{◌≡◌, false, cond, ◌+◌, ◌*◌, ◌/◌, ◌≤◌, ◌<◌, T, eqb, length};
ghost use Rattle.std.proofs.lemmas.List.Edits.{sets};
ghost use Rattle.records.specs.Bytes.{decode};
ghost use Rattle.records.specs.Records.{at};
ghost use Rattle.order.specs.Fill.{chains_used};
ghost use Rattle.races.specs.Lists.{entry_numbers, shape_of};
ghost use Rattle.races.specs.Paper.{Lists};
ghost use Rattle.races.specs.loops.ListsFilled.{ListsFilled};
ghost use Rattle.races.specs.loops.ListPass.{listed_below, raw, Second, OneRoom, OneWrites, RoomIf, Writes, WritesAll, Ample, Counts, ListsAll};
ghost use Rattle.races.specs.loops.Candidates.{Range};
ghost use Rattle.races.specs.loops.FilledClocks.{FilledClocks, OwnIs};

use crate::candidates::{Cells, Firsts, take_access};
use crate::filled::{Filled, Layout};
use crate::racing::Own;
use crate::{ENTRY_NUMBERS, Summary, raising};
use clocks::is_unordered;
use order::Call;
use ranks::row_at;
use records::{Operation, access, search};
use slices::{clear, zeros};
use trace::{Reason, Refusal};

// 1 for ww, 2 for wr, 3 for rw.
fn shape_of(recs: &[u8], a: usize, b: usize) -> u16
    ensures { result ≡ shape_of (decode recs.now) a b }
{
    if access::kind_at(recs, a) != 6 {
        3
    } else if access::kind_at(recs, b) == 6 {
        1
    } else {
        2
    }
}

// Entry k of the list: the race of records a and b, its mark still 0.
fn put_entry(recs: &[u8], a: usize, b: usize, list: &mut [u16], k: usize)
    requires { (a < b) × (b < 4096) × (entry_numbers * k + entry_numbers ≤ length list.old) }
    ensures { list.new ≡ sets list.old (entry_numbers * k) (raw (decode recs.now) a b) }
{
    let at = ENTRY_NUMBERS * k;
    list[at] = (a + 1) as u16;
    list[at + 1] = (b + 1) as u16;
    list[at + 2] = access::cell_at(recs, b).0;
    list[at + 3] = shape_of(recs, a, b);
    list[at + 4] = 0;
}

// Records a and b, of the own row, of which a may race with b: entry k where it does, written or only counted. The next entry.
fn list_race<const WRITING: bool>(
    filled: Filled<'_>,
    a: usize,
    b: usize,
    own: Own,
    list: &mut [u16],
    k: usize,
) -> usize
    requires one_room { OneRoom WRITING (decode filled.layout.recs.now) filled.layout.ranks.now filled.layout.chosen.now filled.layout.width filled.clocks.now
        a b own.row k list.old }
    requires own_is { OwnIs filled.layout.chosen.now filled.layout.width filled.clocks.now own.row own.chain own.entry }
    ensures { OneWrites WRITING (decode filled.entry.layout.recs.now) a b k list.old list.new result }
{
    if 6 < access::kind_at(filled.layout.recs, a) {
        return k;
    }
    let t = row_at(filled.layout.recs, filled.layout.ranks, a);
    if !is_unordered(filled.relation(t, own)) {
        return k;
    }
    if WRITING {
        put_entry(filled.layout.recs, a, b, list, k);
    }
    k + 1
}

// The races on the way to b, of row u, from entry k on, written or only counted.
fn list_range<const WRITING: bool>(
    filled: Filled<'_>,
    firsts: Firsts,
    b: usize,
    u: usize,
    list: &mut [u16],
    k: usize,
) -> usize
    requires second { Second (decode filled.layout.recs.now) filled.layout.ranks.now filled.layout.chosen.now filled.layout.width filled.clocks.now b u
        × Range (decode filled.layout.recs.now) b firsts.from firsts.to }
    requires room_if { RoomIf WRITING (decode filled.layout.recs.now) b firsts.from k list.old }
    ensures { Writes WRITING (decode filled.entry.layout.recs.now) b firsts.from k list.old list.new result }
{
    let own = filled.own_of(u);
    let c = access::cell_at(filled.layout.recs, b);
    let least = search::least_kind(access::kind_at(filled.layout.recs, b));
    let mut e = k;
    let mut a = search::next_access(filled.layout.recs, firsts.from, firsts.to, c, least);
    // By `while`: from each access the search goes on to the next.
    while a < firsts.to {
        e = list_race::<WRITING>(filled, a, b, own, list, e);
        a = search::next_access(filled.layout.recs, a + 1, firsts.to, c, least);
    }
    e
}

// The same, only counted. Not inlined: in the loop over all records the numbers of this one don't fit into registers, and counting a long list takes up to
// 1.6 times as long; written, a list takes less without the call.
#[inline(never)]
fn count_range(
    filled: Filled<'_>,
    firsts: Firsts,
    b: usize,
    u: usize,
    list: &mut [u16],
    k: usize,
) -> usize
    requires second { Second (decode filled.layout.recs.now) filled.layout.ranks.now filled.layout.chosen.now filled.layout.width filled.clocks.now b u
        × Range (decode filled.layout.recs.now) b firsts.from firsts.to }
    requires room_if { RoomIf false (decode filled.layout.recs.now) b firsts.from k list.old }
    ensures { Writes false (decode filled.entry.layout.recs.now) b firsts.from k list.old list.new result }
{
    list_range::<false>(filled, firsts, b, u, list, k)
}

// The same, where there may be none to look at.
fn list_firsts<const WRITING: bool>(
    filled: Filled<'_>,
    firsts: Firsts,
    b: usize,
    u: usize,
    list: &mut [u16],
    k: usize,
) -> usize
    requires second { Second (decode filled.layout.recs.now) filled.layout.ranks.now filled.layout.chosen.now filled.layout.width filled.clocks.now b u
        × Range (decode filled.layout.recs.now) b firsts.from firsts.to }
    requires room_if { RoomIf WRITING (decode filled.layout.recs.now) b firsts.from k list.old }
    ensures { Writes WRITING (decode filled.entry.layout.recs.now) b firsts.from k list.old list.new result }
{
    if firsts.to <= firsts.from {
        return k;
    }
    if WRITING {
        list_range::<true>(filled, firsts, b, u, list, k)
    } else {
        count_range(filled, firsts, b, u, list, k)
    }
}

// How many event actions have begun after a record of that kind.
fn begun_after(kind: u8, begun: usize) -> usize
    requires { begun < 4096 }
    ensures { result ≡ cond (eqb kind 1) (begun + 1) begun }
{
    if kind == 1 { begun + 1 } else { begun }
}

// All entries, written or only counted; their number. Not inlined, so that the numbers of the cells stand in no frame but its own.
#[inline(never)]
fn list_all<const WRITING: bool>(filled: Filled<'_>, list: &mut [u16], short: bool) -> usize
    requires { T WRITING
        → entry_numbers * length (listed_below (decode filled.layout.recs.now) short (length (decode filled.layout.recs.now))) ≤ length list.old }
    ensures { WritesAll WRITING (decode filled.entry.layout.recs.now) short list.old list.new result }
{
    let n = access::count(filled.layout.recs);
    let mut cells = Cells {
        seen: zeros::<u16, 1025>(),
        writes: zeros::<u16, 1025>(),
    };
    let mut k = 0;
    let mut begun = 0;
    for b in 0..n {
        let kind = access::base_kind_at(filled.layout.recs, b);
        if kind < 5 {
            begun = begun_after(kind, begun);
            continue;
        }
        let u = begun - 1;
        let firsts = take_access(filled, &mut cells, b, u, short);
        k = list_firsts::<WRITING>(filled, firsts, b, u, list, k);
    }
    k
}

// Does the list space hold the list, however many entries it has? The short list has at most two for a record, the list of all races at most one for
// each pair of records.
fn is_ample(short: bool, records: usize, space: usize) -> bool
    ensures { T result → (1 < records) × Ample short records (space / entry_numbers) }
{
    if records < 2 {
        return false;
    }
    if 4096 < records {
        return false;
    }
    if short {
        records <= space / ENTRY_NUMBERS / 2
    } else {
        records * records / 2 <= space / ENTRY_NUMBERS
    }
}

// How many entries there are, or 1 where there is space for them in any case. Which list is made is a flag: the definitions have one law over both.
fn count_all(filled: Filled<'_>, list: &mut [u16], short: bool) -> usize
    ensures { Counts (decode filled.entry.layout.recs.now) short (length list.old) result × (list.new ≡ list.old) }
{
    if is_ample(short, access::count(filled.layout.recs), list.len()) {
        return 1;
    }
    list_all::<false>(filled, list, short)
}

// Writes all entries and marks them; their number. The clocks are as before.
fn write_all(layout: Layout<'_>, clocks: &mut [u16], list: &mut [u16], short: bool) -> usize
    requires { FilledClocks (decode layout.recs.now) layout.ranks.now layout.chosen.now layout.width clocks.old
        × (entry_numbers * length (listed_below (decode layout.recs.now) short (length (decode layout.recs.now))) ≤ length list.old) }
    ensures { ListsAll (decode layout.entry.recs.now) short list.old list.new result × (clocks.new ≡ clocks.old) }
{
    let found = list_all::<true>(Filled { layout, clocks }, list, short);
    raising::mark_list(layout, clocks, list, found);
    found
}

// The list of a trace whose clocks are filled, by so many chains.
fn list_filled(
    layout: Layout<'_>,
    chains: usize,
    clocks: &mut [u16],
    list: &mut [u16],
    short: bool,
) -> Result<Summary, Refusal>
    requires { FilledClocks (decode layout.recs.now) layout.ranks.now layout.chosen.now layout.width clocks.old
        × (chains ≡ chains_used (decode layout.recs.now)) }
    ensures { ListsFilled short (decode layout.entry.recs.now) layout.entry.events clocks.old clocks.new list.old list.new result }
{
    let counted = count_all(Filled { layout, clocks }, list, short);
    if list.len() / ENTRY_NUMBERS < counted {
        return Err(Reason::ListSpace.at(Operation(0)));
    }
    let records = access::count(layout.recs);
    if counted == 0 {
        return Ok(Summary {
            events: layout.events,
            records,
            chains,
            count: 0,
        });
    }
    let found = write_all(layout, clocks, list, short);
    Ok(Summary {
        events: layout.events,
        records,
        chains,
        count: found,
    })
}

// The short list, or the list of all races.
pub(crate) fn list_races(
    bytes: &[u8],
    width: usize,
    clocks: &mut [u16],
    work: &mut [u8],
    list: &mut [u16],
    short: bool,
) -> Result<Summary, Refusal>
    ensures { Lists short bytes.now width clocks.old clocks.new work.old work.new
        list.old list.new result }
{
    let mut chosen = zeros::<u16, 1024>();
    let mut ranks = zeros::<u16, 1025>();
    let call = Call {
        lowest: Operation(1),
        highest: Operation(0),
        width,
        room: work.len(),
    };
    let prepared = order::prepare(bytes, call, clocks, &mut chosen, &mut ranks);
    let t = prepared.trace;
    let events = t.events;
    clear(work, events);
    let chains = prepared.answer?;
    let recs = access::records(bytes, t);
    let layout = Layout {
        recs,
        events,
        sends: t.sends,
        ranks: &ranks,
        chosen: &chosen,
        width,
    };
    list_filled(layout, chains, clocks, list, short)
}
