// The place rule: the next situation (0 between event actions, 1 after a join, 2 inside one) by cases of the kind; or 3 for an unknown kind, or 4 for a
// record out of place. Numbers: document 01's table of 768 entries and theorem EqualReplies speak of them.
ghost use Rattle.std.specs.Prelude.{◌≡◌};
ghost use Rattle.trace.specs.Place.{between, inside, place};

// Between event actions and after a join alike.
fn next_outside(kind: u8) -> u8
    ensures { result ≡ place between kind }
{
    match kind {
        1 => 2,
        4 => 1,
        5..=6 => 4,
        0 | 7..=15 | 20..=255 => 3,
        16..=19 => 4,
        _ => 4,
    }
}

fn next_inside(kind: u8) -> u8
    ensures { result ≡ place inside kind }
{
    match kind {
        5..=6 => 2,
        3 => 2,
        2 => 0,
        0 | 7..=15 => 3,
        16..=19 => 2,
        20..=255 => 3,
        _ => 4,
    }
}

// A situation above 2 counts as 2.
pub(crate) fn next(situation: u8, kind: u8) -> u8
    ensures { result ≡ place situation kind }
{
    if situation < 2 {
        return next_outside(kind);
    }
    next_inside(kind)
}
