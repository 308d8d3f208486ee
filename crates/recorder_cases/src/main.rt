// Records traces, closes them and reads them back: at every limit of space, over other lengths of it, with 4,096 records, at random, where the reader is
// asked about each refused step, and with forged states.
#![tactic(auto)]

mod forged;
mod lent;
mod limits;
mod random;
mod raw;
mod say;
mod whole;

fn main() {
    let mut space = io::large_buffer();
    let bytes: &mut [u8] = &mut space;
    limits::all(bytes);
    lent::all(bytes);
    whole::full(bytes);
    let mut more = io::large_buffer();
    let log: &mut [u8] = &mut more;
    random::all(bytes, log);
    forged::all(bytes, 40);
    forged::all(bytes, 20488);
}
