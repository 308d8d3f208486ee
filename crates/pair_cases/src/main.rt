// Both lists as pair structs, on trace T, two more and T with sends: the entries by value, and spaces just enough and one short.
// Each line has the trace, the list, its width and number space, the answer, the four pairs, and the first ten numbers.
#![tactic(auto)]

mod four;

use four::Few;
use pair_lists::Pair;
use races::Summary;
use trace::Refusal;
use trials::line::{self, number, word};

// T: begin 1, fork 1 2, fork 1 3, end 1, begin 2, write 2 1, write 2 2, end 2, begin 3, read 3 2, read 3 1, end 3.
const T: [u8; 68] = [
    1, 1, 0, 0, 0, 3, 1, 0, 2, 0, 3, 1, 0, 3, 0, 2, 1, 0, 0, 0, 1, 2, 0, 0, 0, 6, 2, 0, 1, 0, 6, 2,
    0, 2, 0, 2, 2, 0, 0, 0, 1, 3, 0, 0, 0, 5, 3, 0, 2, 0, 5, 3, 0, 1, 0, 2, 3, 0, 0, 0, 60, 0, 0,
    0, 3, 0, 1, 167,
];

// T with 7 writing and 10 reading cell 1: four races, two of neighbours.
const U: [u8; 68] = [
    1, 1, 0, 0, 0, 3, 1, 0, 2, 0, 3, 1, 0, 3, 0, 2, 1, 0, 0, 0, 1, 2, 0, 0, 0, 6, 2, 0, 1, 0, 6, 2,
    0, 1, 0, 2, 2, 0, 0, 0, 1, 3, 0, 0, 0, 5, 3, 0, 1, 0, 5, 3, 0, 1, 0, 2, 3, 0, 0, 0, 60, 0, 0,
    0, 3, 0, 1, 167,
];

// Writes 1, 1, 2 against reads 1, 1, 2: five races, three of neighbours.
const V: [u8; 78] = [
    1, 1, 0, 0, 0, 3, 1, 0, 2, 0, 3, 1, 0, 3, 0, 2, 1, 0, 0, 0, 1, 2, 0, 0, 0, 6, 2, 0, 1, 0, 6, 2,
    0, 1, 0, 6, 2, 0, 2, 0, 2, 2, 0, 0, 0, 1, 3, 0, 0, 0, 5, 3, 0, 1, 0, 5, 3, 0, 1, 0, 5, 3, 0, 2,
    0, 2, 3, 0, 0, 0, 70, 0, 0, 0, 3, 0, 1, 167,
];

fn small(n: u16) {
    number(n as usize);
}

fn refusal(f: Refusal) {
    line::refusal(f.reason.number(), f.place.0);
}

fn listing(r: Result<Summary, Refusal>) {
    match r {
        Ok(s) => {
            word(b" listed");
            number(s.events);
            number(s.records);
            number(s.chains);
            number(s.count);
        }
        Err(f) => refusal(f),
    }
}

fn pair(p: Pair) {
    word(b" |");
    small(p.first.0);
    small(p.second.0);
    small(p.cell.0);
    small(p.shape);
    small(p.mark);
}

fn number_at(list: &[u16], i: usize) {
    if i < list.len() {
        small(list[i]);
    }
}

fn five_at(list: &[u16], i: usize) {
    if i < 100 {
        word(b" |");
        number_at(list, i);
        number_at(list, i + 1);
        number_at(list, i + 2);
        number_at(list, i + 3);
        number_at(list, i + 4);
    }
}

fn few(
    bytes: &[u8],
    short: bool,
    width: usize,
    clocks: &mut [u16],
    work: &mut [u8],
    numbers: &mut [u16],
) -> Few {
    if short {
        return four::short_list_few(bytes, width, clocks, work, numbers);
    }
    four::all_races_few(bytes, width, clocks, work, numbers)
}

fn case(name: &[u8], bytes: &[u8], short: bool, width: usize, numbers: &mut [u16]) {
    let mut clocks = [9u16; 16];
    let mut work = [9u8; 8];
    word(name);
    number(width);
    number(numbers.len());
    let made = few(bytes, short, width, &mut clocks, &mut work, numbers);
    let answer = made.answer;
    let pairs = made.pairs;
    listing(answer);
    pair(pairs[0]);
    pair(pairs[1]);
    pair(pairs[2]);
    pair(pairs[3]);
    five_at(numbers, 0);
    five_at(numbers, 5);
    word(b"\n");
}

// With numbers for six entries.
fn roomy(name: &[u8], bytes: &[u8], short: bool, width: usize) {
    let mut numbers = [9u16; 30];
    case(name, bytes, short, width, &mut numbers);
}

// With numbers for two entries.
fn enough(name: &[u8], bytes: &[u8], short: bool) {
    let mut numbers = [9u16; 10];
    case(name, bytes, short, 2, &mut numbers);
}

// With one number fewer.
fn one_short(name: &[u8], bytes: &[u8], short: bool) {
    let mut numbers = [9u16; 9];
    case(name, bytes, short, 2, &mut numbers);
}

fn on_t() {
    let t = T;
    roomy(b"T short", &t, true, 2);
    roomy(b"T all", &t, false, 2);
    enough(b"T short", &t, true);
    one_short(b"T short", &t, true);
    one_short(b"T all", &t, false);
    roomy(b"T short", &t, true, 1);
    roomy(b"T short", &t, true, 0);
}

fn on_u() {
    let u = U;
    roomy(b"U short", &u, true, 2);
    roomy(b"U all", &u, false, 2);
    enough(b"U all", &u, false);
}

fn on_v() {
    let v = V;
    roomy(b"V short", &v, true, 2);
    roomy(b"V all", &v, false, 2);
}

// T with sends for its forks and record 10 a write.
fn on_links() {
    let mut t = T;
    t[5] = 16;
    t[10] = 16;
    t[45] = 6;
    roomy(b"one link short", &t, true, 1);
    roomy(b"one link all", &t, false, 1);
    t[10] = 17;
    roomy(b"two links short", &t, true, 2);
    roomy(b"two links all", &t, false, 2);
}

// Event 3 is sent to first, and 2 begins.
fn out_of_order() {
    let mut t = T;
    t[5] = 16;
    t[8] = 3;
    t[10] = 16;
    t[13] = 2;
    roomy(b"out of order short", &t, true, 2);
    roomy(b"out of order all", &t, false, 0);
}

fn main() {
    on_t();
    on_u();
    on_v();
    on_links();
    out_of_order();
    roomy(b"none all", &[], false, 2);
}
