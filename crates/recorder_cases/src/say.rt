// What the program prints.
use records::Trace;
use trace::Refusal;

pub(crate) fn number(text: &[u8], n: usize) {
    count(text, n as u64);
}

pub(crate) fn count(text: &[u8], n: u64) {
    io::write_all(1, text);
    io::print_decimal(1, n);
}

pub(crate) fn line() {
    io::write_all(1, b"\n");
}

fn refusal(f: Refusal) {
    let place = f.place;
    number(b" refused ", f.reason.number() as usize);
    number(b" ", place.0 as usize);
}

pub(crate) fn opening(a: Result<(), Refusal>) {
    match a {
        Ok(()) => {
            io::write_all(1, b" open");
        }
        Err(f) => refusal(f),
    }
}

pub(crate) fn stepped(a: Result<(), Refusal>) {
    match a {
        Ok(()) => {
            io::write_all(1, b" taken");
        }
        Err(f) => refusal(f),
    }
}

pub(crate) fn closing(a: Result<usize, Refusal>) {
    match a {
        Ok(n) => number(b" closed ", n),
        Err(f) => refusal(f),
    }
}

pub(crate) fn reading(a: Result<Trace, Refusal>) {
    match a {
        Ok(t) => {
            number(b" read ", t.start);
            number(b" ", t.records);
            number(b" ", t.events);
        }
        Err(f) => refusal(f),
    }
}
