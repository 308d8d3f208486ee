// The rules for one record, 4 to 8 without 31, given the situation, the open or joining event, and what has begun and ended before. Test by test, with early
// returns: as single expressions reading takes up to 1.10 times as many instructions.
ghost use Rattle.std.specs.Prelude.{◌≡◌, false, cond, not, eqb};
ghost use Rattle.trace.specs.Place.{place};
ghost use Rattle.trace.specs.Rule.{numbered, well_formed, misplaced, again, early, judge};
ghost use Rattle.trace.specs.Reply.{gives, or_else};
ghost use Rattle.trace.specs.Paper.{code, checked_paper};

use crate::{Reason, Refusal, place};
use records::{EventId, Operation, Record};

// What the records before a record say of its events.
#[derive(Clone, Copy, PartialEq, Eq)]
pub struct History {
    pub first_begun: bool,
    pub second_begun: bool,
    pub second_ended: bool,
}

pub(crate) fn is_numbered(x: u16) -> bool
    ensures { result ≡ numbered x }
{
    if x < 1 {
        return false;
    }
    x <= 1024
}

fn is_well_formed(r: Record) -> bool
    ensures { result ≡ well_formed r }
{
    let second = r.second;
    if r.kind < 3 {
        if second != 0 {
            return false;
        }
        return is_numbered(r.first);
    }
    if !is_numbered(second) {
        return false;
    }
    is_numbered(r.first)
}

// next is the reply of the place rule for the record.
fn is_misplaced(next: u8, situation: u8, owner: EventId, r: Record) -> bool
    requires { next ≡ place situation r.kind }
    ensures { result ≡ misplaced situation owner.0 r }
{
    if next == 4 {
        return true;
    }
    if situation == 0 {
        return false;
    }
    r.first != owner.0
}

// The first of refusals 4 to 6 that applies to record r, where next is the place rule's reply for it.
pub(crate) fn place_fault(next: u8, situation: u8, owner: EventId, r: Record) -> Result<(), Reason>
    requires { next ≡ place situation r.kind }
    ensures { code result ≡ cond (eqb (place situation r.kind) 3) 4 (cond (not (well_formed r)) 5 (cond (misplaced situation owner.0 r) 6 0)) }
{
    if next == 3 {
        return Err(Reason::UnknownKind);
    }
    if !is_well_formed(r) {
        return Err(Reason::Identifier);
    }
    if is_misplaced(next, situation, owner, r) {
        return Err(Reason::OutOfPlace);
    }
    Ok(())
}

// The first of refusals 7 and 8 that applies to record r.
pub(crate) fn order_fault(r: Record, past: History) -> Result<(), Reason>
    ensures { code result ≡ cond (again r past.first_begun past.second_begun) 7 (cond (early r past.second_ended) 8 0) }
{
    if is_again(r, past) {
        return Err(Reason::BegunAlready);
    }
    if is_early(r, past) {
        return Err(Reason::NotEnded);
    }
    Ok(())
}

fn is_again(r: Record, past: History) -> bool
    ensures { result ≡ again r past.first_begun past.second_begun }
{
    let kind = r.kind;
    if kind == 3 {
        return past.second_begun;
    }
    if kind == 1 {
        return past.first_begun;
    }
    if kind == 4 {
        return past.first_begun;
    }
    if kind < 16 {
        return false;
    }
    if 19 < kind {
        return false;
    }
    past.second_begun
}

fn is_early(r: Record, past: History) -> bool
    ensures { result ≡ early r past.second_ended }
{
    if r.kind != 4 {
        return false;
    }
    !past.second_ended
}

// The first of refusals 4 to 8 that applies to record r, where next is the place rule's reply for it.
fn fault(next: u8, situation: u8, owner: EventId, r: Record, past: History) -> Result<(), Reason>
    requires { next ≡ place situation r.kind }
    ensures { code result ≡ judge situation owner.0 r past.first_begun past.second_begun past.second_ended false }
{
    place_fault(next, situation, owner, r)?;
    order_fault(r, past)
}

// The check of record number op; 31, for a begin that passes, is not tested.
pub fn check(
    situation: u8,
    owner: EventId,
    op: Operation,
    r: Record,
    past: History,
) -> Result<u8, Refusal>
    ensures { checked_paper result
        ≡ or_else (judge situation owner.0 r past.first_begun past.second_begun past.second_ended false) op.0 (gives (place situation r.kind)) }
{
    let next = place::next(situation, r.kind);
    match fault(next, situation, owner, r, past) {
        Ok(()) => Ok(next),
        Err(reason) => Err(reason.at(op)),
    }
}
