// Words and numbers on the line.

pub(crate) fn number(n: usize) {
    io::print_decimal(1, n as u64);
}
