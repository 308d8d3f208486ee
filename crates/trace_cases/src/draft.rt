// Traces in lent bytes, closed and read.

use records::Trace;
use trace::Refusal;
use trials::draft::put_trailer;

// Reads the first n bytes.
pub(crate) fn read_first(bytes: &[u8], n: usize) -> Result<Trace, Refusal> {
    if n <= bytes.len() {
        let part = &bytes[..n];
        return trace::read(part);
    }
    trace::read(bytes)
}

// Closes the records in the first n bytes and reads them.
pub(crate) fn close_and_read(bytes: &mut [u8], n: usize, begins: u16) -> Result<Trace, Refusal> {
    let end = put_trailer(bytes, n, n, begins);
    read_first(bytes, end)
}
