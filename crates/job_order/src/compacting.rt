// The compactor's call from C.
ghost use Rattle.std.specs.Prelude.{◌≡◌, [], ◌∷◌};
ghost use Rattle.compactor.specs.Compact.{compact_paper};
ghost use Rattle.job_order.specs.Calls.{slim_numbers, CompactsOut};

use compactor::Slim;
use trace::Refusal;

#[derive(Clone, Copy)]
struct Slimmed {
    number: u16,
    place: u16,
    length: usize,
    dropped: usize,
}

fn numbers_of(r: Result<Slim, Refusal>) -> Slimmed
    ensures { result.number ∷ result.place ∷ result.length ∷ result.dropped ∷ [] ≡ slim_numbers (compact_paper r) }
{
    match r {
        Ok(s) => Slimmed {
            number: 0,
            place: 0,
            length: s.length,
            dropped: s.dropped,
        },
        Err(f) => Slimmed {
            number: f.reason.number(),
            place: f.place.0,
            length: 0,
            dropped: 0,
        },
    }
}

// Writes the slim trace of the trace that the bytes end with.
#[unsafe(no_mangle)]
pub extern "C" fn jco_compact(
    bytes: &[u8],
    out: &mut [u8],
    place: &mut u16,
    length: &mut usize,
    dropped: &mut usize,
) -> u16
    ensures { CompactsOut bytes.now out.old out.new result place.new length.new dropped.new }
{
    let given = numbers_of(compactor::compact(bytes, out));
    *place = given.place;
    *length = given.length;
    *dropped = given.dropped;
    given.number
}
