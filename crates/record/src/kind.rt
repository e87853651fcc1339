// The kinds of a record. Paper 01, "The step log".
ghost use Rattle.record.specs.Kinds.{Reads};

use crate::Fault;

// A kind, with its number: the first byte of its records.
#[derive(Clone, Copy, PartialEq, Eq)]
pub enum Kind {
    Start = 0x01,
    Call = 0x02,
    Route = 0x03,
    Send = 0x04,
    Take = 0x05,
    Move = 0x06,
    Heed = 0x07,
    Drain = 0x08,
    Land = 0x09,
    Part = 0x0A,
    End = 0x0B,
    Look = 0x0C,
}

impl TryFrom<u8> for Kind {
    type Error = Fault;

    ghost try_from_gives = { Reads };

    fn try_from(byte: u8) -> Result<Self, Fault> {
        match byte {
            0x01 => Ok(Kind::Start),
            0x02 => Ok(Kind::Call),
            0x03 => Ok(Kind::Route),
            0x04 => Ok(Kind::Send),
            0x05 => Ok(Kind::Take),
            0x06 => Ok(Kind::Move),
            0x07 => Ok(Kind::Heed),
            0x08 => Ok(Kind::Drain),
            0x09 => Ok(Kind::Land),
            0x0A => Ok(Kind::Part),
            0x0B => Ok(Kind::End),
            0x0C => Ok(Kind::Look),
            _ => Err(Fault::Unknown),
        }
    }
}
