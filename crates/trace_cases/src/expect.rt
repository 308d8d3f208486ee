// A reading beside the one expected.
ghost use Rattle.std.specs.Prelude.{◌≤◌};

use records::Trace;
use trace::Refusal;

// 1 where the reading is refusal number at place or, for number 0, accepted from byte 0 on with that many records and events; else 0.
pub(crate) fn agrees(
    r: Result<Trace, Refusal>,
    number: u16,
    place: u16,
    records: usize,
    events: usize,
) -> usize
    ensures { result ≤ 1 }
{
    match r {
        Ok(t) => {
            if number == 0 && t.start == 0 && t.records == records && t.events == events {
                return 1;
            }
            0
        }
        Err(f) => {
            if f.reason.number() == number && f.place.0 == place {
                return 1;
            }
            0
        }
    }
}
