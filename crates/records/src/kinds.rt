// What a record's kind byte says.
ghost use Rattle.records.specs.Kinds.{Says};

// Document 01's six kinds, and a send with its link, 0 to 3.
#[derive(Clone, Copy, PartialEq, Eq)]
pub enum Kind {
    Begin,
    End,
    Fork,
    Join,
    Read,
    Write,
    Send(u8),
    Other(u8),
}

impl From<u8> for Kind {
    ghost from_gives = { Says };

    fn from(byte: u8) -> Kind {
        match byte {
            1 => Kind::Begin,
            2 => Kind::End,
            3 => Kind::Fork,
            4 => Kind::Join,
            5 => Kind::Read,
            6 => Kind::Write,
            16..=19 => Kind::Send(byte - 16),
            _ => Kind::Other(byte),
        }
    }
}
