// The status of each event, as a byte by event number: 0 nothing, 1 begun, 2 ended. A number past the bytes has status 0 and is not written. Bytes, not an
// enum: the table is zeroed and written by what serves all lent bytes.
ghost use Rattle.std.specs.Prelude.{◌≡◌, set};
ghost use Rattle.trace.specs.loops.Status.{has_begun, has_ended};

use slices::{get, put};

pub(crate) const BEGUN: u8 = 1;

pub(crate) const ENDED: u8 = 2;

pub(crate) fn has_begun(status: &[u8], e: u16) -> bool
    ensures { result ≡ has_begun status.now e }
{
    get(status, e as usize) != 0
}

pub(crate) fn has_ended(status: &[u8], e: u16) -> bool
    ensures { result ≡ has_ended status.now e }
{
    get(status, e as usize) == ENDED
}

pub(crate) fn note(status: &mut [u8], e: u16, is: u8)
    ensures { status.new ≡ set status.old e is }
{
    put(status, e as usize, is);
}
