// begin 1, send 1 2 and send 1 3 on link 0, end 1, begin 2, send 2 4 on link 1, end 2, begin 3, send 3 5 on link 1, end 3, begin 4, write 4 1, end 4, begin 5,
// read 5 1, end 5: link 0 puts 3 behind 2, and so link 1 puts 5 behind 4.
pub(crate) const RELAY: [u8; 88] = [
    1, 1, 0, 0, 0, 16, 1, 0, 2, 0, 16, 1, 0, 3, 0, 2, 1, 0, 0, 0, 1, 2, 0, 0, 0, 17, 2, 0, 4, 0, 2,
    2, 0, 0, 0, 1, 3, 0, 0, 0, 17, 3, 0, 5, 0, 2, 3, 0, 0, 0, 1, 4, 0, 0, 0, 6, 4, 0, 1, 0, 2, 4,
    0, 0, 0, 1, 5, 0, 0, 0, 5, 5, 0, 1, 0, 2, 5, 0, 0, 0, 80, 0, 0, 0, 5, 0, 1, 167,
];
