// The trace program: reads a trace from standard input and prints a header line and its short list, or one line for a refusal. What it prints is
// `report`'s text.
#![tactic(auto)]

fn print(text: &[u8], length: usize) {
    if length <= text.len() {
        io::write_all(1, &text[..length]);
    }
}

fn main() {
    let mut input = [0u8; 32769];
    let n = io::read_full(0, &mut input);
    let mut text = [0u8; 262144];
    let length = report::report(&input[..n], &mut text);
    print(&text, length);
}
