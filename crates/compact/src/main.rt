// The compactor as a program: reads a trace from standard input and writes its slim trace, or the line that the trace program prints for a refusal.
#![tactic(auto)]

use records::Operation;
use trace::Reason;

// At most that many bytes of input; more is refusal 13.
const LONGEST: usize = 32768;

// What is written for that input, in the first bytes of the space; their number.
fn slim(input: &[u8], out: &mut [u8]) -> usize {
    if LONGEST < input.len() {
        return listing::put_refusal(out, 0, Reason::TooLong.number() as usize, Operation(0));
    }
    match compactor::compact(input, out) {
        Ok(s) => s.length,
        Err(f) => listing::put_refusal(out, 0, f.reason.number() as usize, f.place),
    }
}

fn write(out: &[u8], length: usize) {
    if length <= out.len() {
        io::write_all(1, &out[..length]);
    }
}

// A slim trace has at most 20,488 bytes.
fn main() {
    let mut input = [0u8; 32769];
    let n = io::read_full(0, &mut input);
    let mut out = [0u8; 20488];
    let length = slim(&input[..n], &mut out);
    write(&out, length);
}
