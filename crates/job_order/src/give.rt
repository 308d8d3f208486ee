// What each answer holds, as the numbers that a call gives out: its result, then those it stores.
ghost use Rattle.std.specs.Prelude.{◌≡◌, [], ◌∷◌};
ghost use Rattle.trace.specs.Paper.{paper};
ghost use Rattle.order.specs.Paper.{fill_paper};
ghost use Rattle.clocks.specs.WayRound.{relation_paper};
ghost use Rattle.question.specs.Question.{order_paper};
ghost use Rattle.races.specs.Paper.{list_paper};
ghost use Rattle.pair.specs.Pair.{pair_paper, entries_given};
ghost use Rattle.job_order.specs.Calls.{read_numbers, fill_numbers, way_number, order_numbers, list_numbers, pair_numbers};

use clocks::Relation;
use pair::Verdict;
use races::Summary;
use records::Trace;
use trace::Refusal;

#[derive(Clone, Copy)]
pub(crate) struct Read {
    pub(crate) number: u16,
    pub(crate) place: u16,
    pub(crate) start: usize,
    pub(crate) records: usize,
    pub(crate) events: usize,
}

pub(crate) fn reading(r: Result<Trace, Refusal>) -> Read
    ensures { result.number ∷ result.place ∷ result.start ∷ result.records ∷ result.events ∷ [] ≡ read_numbers (paper r) }
{
    match r {
        Ok(t) => Read {
            number: 0,
            place: 0,
            start: t.start,
            records: t.records,
            events: t.events,
        },
        Err(refusal) => Read {
            number: refusal.reason.number(),
            place: refusal.place.0,
            start: 0,
            records: 0,
            events: 0,
        },
    }
}

#[derive(Clone, Copy)]
pub(crate) struct Filled {
    pub(crate) number: u16,
    pub(crate) place: u16,
    pub(crate) chains: usize,
}

pub(crate) fn filling(r: Result<usize, Refusal>) -> Filled
    ensures { result.number ∷ result.place ∷ result.chains ∷ [] ≡ fill_numbers (fill_paper r) }
{
    match r {
        Ok(k) => Filled {
            number: 0,
            place: 0,
            chains: k,
        },
        Err(f) => Filled {
            number: f.reason.number(),
            place: f.place.0,
            chains: 0,
        },
    }
}

// The number of a reply: 1 the same, 2 first before second, 3 second before first, 4 unordered.
fn relation(r: Relation) -> u8
    ensures { result ≡ way_number (relation_paper r) }
{
    match r {
        Relation::Same => 1,
        Relation::Before => 2,
        Relation::After => 3,
        Relation::Unordered => 4,
    }
}

#[derive(Clone, Copy)]
pub(crate) struct Told {
    pub(crate) number: u16,
    pub(crate) place: u16,
    pub(crate) relation: u8,
}

pub(crate) fn answer(r: Result<Relation, Refusal>) -> Told
    ensures { result.number ∷ result.place ∷ result.relation ∷ [] ≡ order_numbers (order_paper r) }
{
    match r {
        Ok(way) => Told {
            number: 0,
            place: 0,
            relation: relation(way),
        },
        Err(f) => Told {
            number: f.reason.number(),
            place: f.place.0,
            relation: 0,
        },
    }
}

#[derive(Clone, Copy)]
pub(crate) struct Listed {
    pub(crate) number: u16,
    pub(crate) place: u16,
    pub(crate) events: usize,
    pub(crate) records: usize,
    pub(crate) chains: usize,
    pub(crate) count: usize,
}

pub(crate) fn listing(r: Result<Summary, Refusal>) -> Listed
    ensures { result.number ∷ result.place ∷ result.events ∷ result.records ∷ result.chains ∷ result.count ∷ [] ≡ list_numbers (list_paper r) }
{
    match r {
        Ok(s) => Listed {
            number: 0,
            place: 0,
            events: s.events,
            records: s.records,
            chains: s.chains,
            count: s.count,
        },
        Err(f) => Listed {
            number: f.reason.number(),
            place: f.place.0,
            events: 0,
            records: 0,
            chains: 0,
            count: 0,
        },
    }
}

#[derive(Clone, Copy)]
pub(crate) struct Asked {
    pub(crate) number: u16,
    pub(crate) place: u16,
    pub(crate) covered: u8,
    pub(crate) count: usize,
}

pub(crate) fn pair(r: Result<Verdict, Refusal>) -> Asked
    ensures { (result.number ∷ result.place ∷ result.covered ∷ result.count ∷ [] ≡ pair_numbers (pair_paper r) result.count) ×
        (result.count ≡ entries_given r) }
{
    match r {
        Ok(Verdict::Open(k)) => Asked {
            number: 0,
            place: 0,
            covered: 0,
            count: k,
        },
        Ok(Verdict::Covered(k)) => Asked {
            number: 0,
            place: 0,
            covered: 1,
            count: k,
        },
        Err(f) => Asked {
            number: f.reason.number(),
            place: f.place.0,
            covered: 0,
            count: 0,
        },
    }
}
