// The reader on cases that are run, not proved: boundaries, every kind byte in every situation, each refusal with its place, and links.
#![tactic(auto)]

mod bounds;
mod draft;
mod expect;
mod identifiers;
mod kinds;
mod refusals;
mod sends;
mod show;
mod tally;

fn main() {
    refusals::empty();
    refusals::trailer();
    bounds::distances();
    tally::identifiers();
    tally::kinds();
    refusals::each();
    refusals::order();
    refusals::before();
    sends::alone();
    sends::order();
    sends::senders();
    bounds::longest();
}
