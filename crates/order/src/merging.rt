// Rows merged along the links of a trace.
ghost use Rattle.records.specs.Bytes.{decode};
ghost use Rattle.order.specs.loops.Walk.{ordering_by, Takes, Walks};

use clocks::merge_row;
use ranks::Ordering;
use records::access;

// The record at position i: where it is a link, the earlier row is merged into the later one. Is it a begin?
fn pass_record(
    recs: &[u8],
    ranks: &[u16],
    i: usize,
    width: usize,
    chains: usize,
    clocks: &mut [u16],
) -> bool
    ensures { Takes width chains (ordering_by (decode recs.now) ranks.now i)
        clocks.old clocks.new result }
{
    let said = ranks::ordering_at(recs, ranks, i);
    match said {
        Ordering::Link(p, u) => {
            merge_row(clocks, width, chains, p, u);
            false
        }
        Ordering::Begin(_) => true,
        Ordering::Nothing => false,
    }
}

// Merges rows along the links from record `from` on, up to the next begin. Gives the position of that begin, or the number of records; `from` where
// that is larger.
pub fn merge_links(
    recs: &[u8],
    ranks: &[u16],
    width: usize,
    chains: usize,
    clocks: &mut [u16],
    from: usize,
) -> usize
    ensures { Walks (decode recs.now) ranks.now width chains from
        clocks.old clocks.new result }
{
    let n = access::count(recs);
    let first = access::skip_accesses(recs, from);
    for i in first..n {
        if pass_record(recs, ranks, i, width, chains, clocks) {
            return i;
        }
    }
    first.max(n)
}
