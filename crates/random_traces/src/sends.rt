// What sends on one link say of order, and refusal 31, as far as the order is found.
use crate::definitions::is_before;
use crate::known;
use crate::paths::{before, is_send, rank};
use records::access;
use trials::numbers::pick;
use trials::recs::{event_of, is_kind, target_of};
use trials::sets::is_in;

// Send a is on the link of send b, to another target, and a ≼ b.
fn is_ahead(recs: &[u8], table: &[usize], a: usize, b: usize) -> bool {
    let link = is_kind(recs, a, access::kind_at(recs, b));
    let another = target_of(recs, a) != target_of(recs, b);
    link & another & is_before(recs, table, a, b)
}

// "Where one send ≼ another on the same link, the first's target happens before the second's": those that happen before the targets ahead of send b's,
// with 0 where one of these has not begun. None where record b is no send.
pub(crate) fn find_ahead(recs: &[u8], table: &[usize], b: usize) -> usize {
    let n = pick(is_send(recs, b), access::count(recs), 0);
    let mut set = 0;
    for a in 0..n {
        let those = before(table, rank(table, target_of(recs, a)));
        set = set | pick(is_ahead(recs, table, a, b), those, 0);
    }
    set
}

// A link puts the event "behind another target not yet begun".
fn is_behind(recs: &[u8], table: &[usize], event: usize) -> bool {
    let n = access::count(recs);
    for b in 0..n {
        if (target_of(recs, b) == event) & is_in(find_ahead(recs, table, b), 0) {
            return true;
        }
    }
    false
}

fn order_space() -> [usize; 2100] {
    [0; 2100]
}

// Record i is a begin that 31 is for: the records before it decide.
pub(crate) fn is_blocked(recs: &[u8], i: usize) -> bool {
    if !is_kind(recs, i, 1) {
        return false;
    }
    let past = access::records_from(recs, 0, i);
    let mut space = order_space();
    let table: &mut [usize] = &mut space;
    known::find_order(past, table);
    is_behind(past, table, event_of(recs, i))
}
