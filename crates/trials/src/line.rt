// Words and numbers on the line.

pub fn word(text: &[u8]) {
    io::write_all(1, text);
}

// A space, and the number.
pub fn number(n: usize) {
    io::write_all(1, b" ");
    io::print_decimal(1, n as u64);
}

// A refusal, by its number and place.
pub fn refusal(number: u16, place: u16) {
    word(b" refused");
    self::number(usize::from(number));
    self::number(usize::from(place));
}

pub fn line_end() {
    io::write_all(1, b"\n");
}

// The first n of them.
pub fn numbers(list: &[u16], n: usize) {
    for x in list.iter().take(n) {
        number(usize::from(*x));
    }
}

// The first n of them.
pub fn bytes(list: &[u8], n: usize) {
    for x in list.iter().take(n) {
        number(usize::from(*x));
    }
}
