// The boundary cases of filling, the order question, the lists and the pair question, on trace T: widths, spaces just enough and one short, and
// refusals in their order. Then the same calls on traces with sends. Each line has the call, its width and spaces, and the answer.
#![tactic(auto)]

mod relay;
mod show;

use races::Summary;
use trace::Refusal;
use trials::line::{number, word};

// T: begin 1, fork 1 2, fork 1 3, end 1, begin 2, write 2 1, write 2 2, end 2, begin 3, read 3 2, read 3 1, end 3.
const T: [u8; 68] = [
    1, 1, 0, 0, 0, 3, 1, 0, 2, 0, 3, 1, 0, 3, 0, 2, 1, 0, 0, 0, 1, 2, 0, 0, 0, 6, 2, 0, 1, 0, 6, 2,
    0, 2, 0, 2, 2, 0, 0, 0, 1, 3, 0, 0, 0, 5, 3, 0, 2, 0, 5, 3, 0, 1, 0, 2, 3, 0, 0, 0, 60, 0, 0,
    0, 3, 0, 1, 167,
];

// How much of each space is lent.
#[derive(Clone, Copy)]
struct Spaces {
    clocks: usize,
    work: usize,
    list: usize,
}

fn fill_in(name: &[u8], t: &[u8], clocks: &mut [u16], width: usize, space: usize, shown: usize) {
    if space <= clocks.len() {
        word(name);
        number(width);
        number(space);
        show::filling(order::fill(t, width, &mut clocks[..space]));
        show::numbers(clocks, shown);
        word(b"\n");
    }
}

fn fill(width: usize, space: usize) {
    let t = T;
    let mut clocks = [9u16; 3072];
    fill_in(b"fill", &t, &mut clocks, width, space, 7);
}

fn fill_linked(name: &[u8], t: &[u8], width: usize, space: usize) {
    let mut clocks = [9u16; 16];
    fill_in(name, t, &mut clocks, width, space, 11);
}

fn order_in(
    name: &[u8],
    t: &[u8],
    clocks: &[u16],
    width: usize,
    space: usize,
    first: u16,
    second: u16,
) {
    if space <= clocks.len() {
        word(name);
        number(width);
        number(space);
        number(first as usize);
        number(second as usize);
        show::answer(question::ask_order(
            t,
            width,
            &clocks[..space],
            records::EventId(first),
            records::EventId(second),
        ));
        word(b"\n");
    }
}

// Over the rows that filling leaves at width 2.
fn order(width: usize, space: usize, first: u16, second: u16) {
    let t = T;
    let clocks = [1u16, 0, 2, 0, 1, 1];
    order_in(b"order", &t, &clocks, width, space, first, second);
}

// Over clocks that are the same number throughout: both orders are allowed.
fn order_even(all: u16, first: u16, second: u16) {
    let t = T;
    let clocks = [all; 6];
    order_in(b"order, even", &t, &clocks, 2, 6, first, second);
}

// Over rows 5 0, 4 0, 1 1, which filling does not leave.
fn order_foreign(first: u16, second: u16) {
    let t = T;
    let clocks = [5u16, 0, 4, 0, 1, 1];
    order_in(b"order, foreign", &t, &clocks, 2, 6, first, second);
}

// T with fork 2 3 in place of record 7, over the rows that filling leaves at width 1.
fn order_forked(first: u16, second: u16) {
    let mut t = T;
    t[30] = 3;
    t[33] = 3;
    let clocks = [1u16, 2, 3];
    order_in(b"order, forked", &t, &clocks, 1, 3, first, second);
}

fn made(
    t: &[u8],
    short: bool,
    width: usize,
    clocks: &mut [u16],
    work: &mut [u8],
    list: &mut [u16],
) -> Result<Summary, Refusal> {
    if short {
        return races::short_list(t, width, clocks, work, list);
    }
    races::all_races(t, width, clocks, work, list)
}

fn list_in(
    name: &[u8],
    t: &[u8],
    clocks: &mut [u16],
    work: &mut [u8],
    list: &mut [u16],
    short: bool,
    width: usize,
    s: Spaces,
) {
    let c = s.clocks;
    let w = s.work;
    let l = s.list;
    if clocks.len() < c {
        return;
    }
    if work.len() < w {
        return;
    }
    if list.len() < l {
        return;
    }
    word(name);
    number(width);
    number(c);
    number(w);
    number(l);
    show::listing(made(
        t,
        short,
        width,
        &mut clocks[..c],
        &mut work[..w],
        &mut list[..l],
    ));
    show::numbers(clocks, 7);
    show::bytes(work, 4);
    show::numbers(list, 11);
    word(b"\n");
}

fn list_of(name: &[u8], t: &[u8], short: bool, width: usize, s: Spaces) {
    let mut c = [9u16; 64];
    let mut w = [9u8; 8];
    let mut l = [9u16; 32];
    list_in(name, t, &mut c, &mut w, &mut l, short, width, s);
}

fn list(short: bool, width: usize, clocks: usize, work: usize, list: usize) {
    let t = T;
    let s = Spaces {
        clocks: clocks,
        work: work,
        list: list,
    };
    list_of(b"list", &t, short, width, s);
}

// Both lists, with ten clocks.
fn lists_linked(name: &[u8], t: &[u8], width: usize, events: usize, list: usize) {
    let s = Spaces {
        clocks: 10,
        work: events,
        list: list,
    };
    list_of(name, t, true, width, s);
    list_of(name, t, false, width, s);
}

fn pair_in(
    name: &[u8],
    t: &[u8],
    clocks: &mut [u16],
    work: &mut [u8],
    list: &mut [u16],
    width: usize,
    s: Spaces,
    first: u16,
    second: u16,
) {
    let w = s.work;
    let l = s.list;
    if work.len() < w {
        return;
    }
    if list.len() < l {
        return;
    }
    word(name);
    number(width);
    number(w);
    number(l);
    number(first as usize);
    number(second as usize);
    show::pair(pair::ask_pair(
        t,
        width,
        clocks,
        &mut work[..w],
        &mut list[..l],
        records::Operation(first),
        records::Operation(second),
    ));
    show::numbers(clocks, 7);
    show::bytes(work, 4);
    show::numbers(list, 5);
    word(b"\n");
}

fn pair_of(name: &[u8], t: &[u8], width: usize, work: usize, list: usize, first: u16, second: u16) {
    let mut c = [9u16; 64];
    let mut w = [9u8; 8];
    let mut l = [9u16; 32];
    pair_in(
        name,
        t,
        &mut c,
        &mut w,
        &mut l,
        width,
        Spaces {
            clocks: 64,
            work: work,
            list: list,
        },
        first,
        second,
    );
}

fn pair(width: usize, work: usize, list: usize, first: u16, second: u16) {
    let t = T;
    pair_of(b"pair", &t, width, work, list, first, second);
}

fn fills() {
    fill(0, 6);
    fill(1, 6);
    fill(2, 6);
    fill(2, 5);
    fill(1024, 3072);
    fill(1024, 3071);
    fill(1025, 3072);
}

fn orders() {
    order(2, 6, 1, 3);
    order(2, 6, 3, 1);
    order(2, 6, 2, 3);
    order(2, 6, 3, 2);
    order(2, 6, 2, 2);
    order(2, 6, 4, 1);
    order(2, 6, 1, 0);
    order(2, 6, 4, 4);
    order(0, 6, 4, 1);
    order(0, 6, 1, 2);
    order(2, 5, 1, 2);
    order(1, 6, 1, 2);
}

fn orders_over_other_clocks() {
    order_even(0, 1, 3);
    order_even(0, 3, 1);
    order_even(0, 2, 2);
    order_even(0, 4, 4);
    order_even(65535, 2, 3);
    order_even(65535, 3, 2);
    order_even(65535, 3, 3);
    order_foreign(1, 2);
    order_foreign(2, 1);
    order_foreign(1, 3);
    order_foreign(1, 1);
    order_forked(2, 3);
    order_forked(3, 2);
    order_forked(3, 3);
}

fn lists() {
    list(true, 2, 6, 3, 10);
    list(false, 2, 6, 3, 10);
    list(true, 2, 6, 3, 9);
    list(true, 2, 6, 2, 9);
    list(true, 2, 5, 2, 9);
    list(true, 1, 6, 3, 9);
}

fn pairs() {
    pair(2, 3, 6, 7, 10);
    pair(2, 3, 6, 6, 11);
    pair(2, 3, 6, 6, 10);
    pair(2, 3, 5, 10, 7);
    pair(2, 3, 5, 7, 10);
    pair(2, 2, 5, 7, 10);
    pair(0, 2, 5, 7, 10);
    pair(0, 2, 5, 0, 10);
    pair(0, 2, 5, 7, 13);
    pair(1, 3, 5, 10, 7);
}

// T with sends on one link for its forks, and record 10 a write: event 3 is behind event 2, and nothing races.
fn one_link() {
    let mut t = T;
    t[5] = 16;
    t[10] = 16;
    t[45] = 6;
    let clocks = [1u16, 2, 3];
    fill_linked(b"fill, one link", &t, 1, 3);
    order_in(b"order, one link", &t, &clocks, 1, 3, 2, 3);
    order_in(b"order, one link", &t, &clocks, 1, 3, 3, 2);
    lists_linked(b"list, one link", &t, 1, 3, 0);
    pair_of(b"pair, one link", &t, 1, 3, 6, 7, 10);
}

// On two links they are T's two chains and races, the first of them between writes.
fn two_links() {
    let mut t = T;
    t[5] = 16;
    t[10] = 17;
    t[45] = 6;
    let clocks = [1u16, 0, 2, 0, 1, 1];
    fill_linked(b"fill, two links", &t, 2, 6);
    order_in(b"order, two links", &t, &clocks, 2, 6, 2, 3);
    lists_linked(b"list, two links", &t, 2, 3, 10);
    pair_of(b"pair, two links", &t, 2, 3, 6, 7, 10);
    pair_of(b"pair, two links", &t, 2, 3, 6, 6, 11);
}

// Event 3 is sent to first, and 2 begins: 31 at record 5, ahead of what else a call refuses.
fn out_of_order() {
    let mut t = T;
    t[5] = 16;
    t[8] = 3;
    t[10] = 16;
    t[13] = 2;
    let clocks = [1u16, 0, 2, 0, 1, 1];
    fill_linked(b"fill, out of order", &t, 2, 6);
    fill_linked(b"fill, out of order", &t, 0, 0);
    order_in(b"order, out of order", &t, &clocks, 2, 6, 2, 3);
    order_in(b"order, out of order", &t, &clocks, 0, 0, 4, 4);
    lists_linked(b"list, out of order", &t, 2, 3, 10);
    pair_of(b"pair, out of order", &t, 2, 3, 6, 7, 10);
    pair_of(b"pair, out of order", &t, 0, 0, 0, 0, 0);
}

fn relayed() {
    let t = relay::RELAY;
    let clocks = [1u16, 0, 2, 0, 3, 0, 2, 1, 4, 1];
    fill_linked(b"fill, relay", &t, 2, 10);
    fill_linked(b"fill, relay", &t, 1, 5);
    order_in(b"order, relay", &t, &clocks, 2, 10, 4, 5);
    order_in(b"order, relay", &t, &clocks, 2, 10, 5, 4);
    order_in(b"order, relay", &t, &clocks, 2, 10, 3, 4);
    lists_linked(b"list, relay", &t, 2, 5, 0);
    pair_of(b"pair, relay", &t, 2, 5, 10, 12, 15);
}

// Event 5 is sent to on another link.
fn relayed_apart() {
    let mut t = relay::RELAY;
    t[40] = 18;
    let clocks = [1u16, 0, 2, 0, 3, 0, 2, 1, 4, 0];
    fill_linked(b"fill, relay apart", &t, 2, 10);
    order_in(b"order, relay apart", &t, &clocks, 2, 10, 4, 5);
    lists_linked(b"list, relay apart", &t, 2, 5, 5);
    pair_of(b"pair, relay apart", &t, 2, 5, 10, 12, 15);
}

fn main() {
    fills();
    orders();
    orders_over_other_clocks();
    lists();
    pairs();
    one_link();
    two_links();
    out_of_order();
    relayed();
    relayed_apart();
}
