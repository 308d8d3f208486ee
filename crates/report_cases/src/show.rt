// A case's name, and the text for its input.
ghost use Rattle.std.specs.Prelude.{◌≤◌, ◌<◌};

pub(crate) fn title(name: &[u8]) {
    io::write_all(1, b"-- ");
    io::write_all(1, name);
    io::write_all(1, b"\n");
}

fn print(text: &[u8], from: usize, to: usize) {
    if from <= to && to <= text.len() {
        io::write_all(1, &text[from..to]);
    }
}

fn byte_at(text: &[u8], i: usize) -> usize
    ensures { result ≤ 255 }
{
    if i < text.len() {
        return text[i] as usize;
    }
    0
}

// Two numbers below 65,521 added.
fn plus(a: usize, b: usize) -> usize
    requires a_bound { a < 65521 }
    requires b_bound { b < 65521 }
    ensures { result < 65521 }
{
    if a + b < 65521 {
        return a + b;
    }
    a + b - 65521
}

// Adler-32 of the first n bytes.
fn checksum(text: &[u8], n: usize) -> usize {
    let mut a = 1;
    let mut b = 0;
    for i in 0..n {
        a = plus(a, byte_at(text, i));
        b = plus(b, a);
    }
    b * 65536 + a
}

// Where the first line of the first n bytes ends.
fn line_end(text: &[u8], n: usize) -> usize {
    for i in 0..n {
        if byte_at(text, i) == 10 {
            return i + 1;
        }
    }
    n
}

// Where the last line of the first n bytes starts.
fn last_line(text: &[u8], n: usize) -> usize {
    for i in (1..n).rev() {
        if byte_at(text, i - 1) == 10 {
            return i;
        }
    }
    0
}

fn number(name: &[u8], n: usize) {
    io::write_all(1, name);
    io::print_decimal(1, n as u64);
}

fn shown(text: &[u8], length: usize) {
    if length <= 1000 {
        print(text, 0, length);
        return;
    }
    number(b"length ", length);
    number(b" checksum ", checksum(text, length));
    io::write_all(1, b"\n");
    print(text, 0, line_end(text, length));
    print(text, last_line(text, length), length);
}

// The text for that input, or what stands for a long one.
pub(crate) fn report(input: &[u8]) {
    let mut text = [0u8; 262144];
    let length = report::report(input, &mut text);
    shown(&text, length);
}

// The same for the first n of those bytes.
pub(crate) fn first(bytes: &[u8], n: usize) {
    if n <= bytes.len() {
        report(&bytes[..n]);
    }
}
