// The kinds of records.
ghost use Rattle.reading.specs.Kinds.{Decodes};

use crate::Fault;

/// The kind of a record, as the byte with which the record begins.
#[derive(Clone, Copy, Debug, PartialEq, Eq)]
pub enum Kind {
    Pattern = 1,
    Truth = 2,
    Falsity = 3,
    Both = 4,
    Necessity = 5,
    Max = 6,
    Variable = 7,
}

impl TryFrom<u8> for Kind {
    type Error = Fault;

    ghost try_from_gives = { Decodes };

    fn try_from(byte: u8) -> Result<Self, Fault> {
        match byte {
            1 => Ok(Kind::Pattern),
            2 => Ok(Kind::Truth),
            3 => Ok(Kind::Falsity),
            4 => Ok(Kind::Both),
            5 => Ok(Kind::Necessity),
            6 => Ok(Kind::Max),
            7 => Ok(Kind::Variable),
            _ => Err(Fault::UnknownKind),
        }
    }
}
