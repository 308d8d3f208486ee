// Each kind byte, 0 to 255, in each situation: between event actions, after a join, inside one.
ghost use Rattle.std.specs.Prelude.{◌≤◌};

use crate::draft::close_and_read;
use crate::expect::agrees;
use records::Trace;
use trace::Refusal;
use trials::draft::put_record;

// The refusal that the documents' words give, 0 for none: "An event action is joins (perhaps none), begin, then forks, reads and writes, then end." "Kinds
// 16 to 19 are sends on links 0 to 3: placed like a fork". Unless the record is an end the trace then stops inside an event action or after a join.
fn expected(situation: usize, kind: u8) -> u16 {
    let inside = situation == 2;
    match kind {
        0 | 7..=15 | 20..=255 => 4,
        1 | 4 => { if inside { 6 } else { 9 } }
        2 => { if inside { 0 } else { 6 } }
        _ => { if inside { 9 } else { 6 } }
    }
}

// Event 1 has ended. Then a join of 2 or the begin of 2 where the situation wants one, and the record under test, whose identifiers are right for its kind.
fn case(situation: usize, kind: u8) -> Result<Trace, Refusal> {
    let mut space = [0u8; 32];
    let bytes: &mut [u8] = &mut space;
    let mut n = put_record(bytes, 0, 1, 1, 0);
    n = put_record(bytes, n, 2, 1, 0);
    if situation == 1 {
        n = put_record(bytes, n, 4, 2, 1);
    }
    if situation == 2 {
        n = put_record(bytes, n, 1, 2, 0);
    }
    let second = match kind {
        1 | 2 => 0,
        3 | 16..=19 => 3,
        _ => 1,
    };
    n = put_record(bytes, n, kind, 2, second);
    close_and_read(bytes, n, 2)
}

// Case i of 768.
pub(crate) fn agrees_at(i: usize) -> usize
    ensures { result ≤ 1 }
{
    let situation = i / 256;
    let kind = (i % 256) as u8;
    let mut records = 3;
    if 0 < situation {
        records = 4;
    }
    agrees(
        case(situation, kind),
        expected(situation, kind),
        records,
        records as usize,
        2,
    )
}
