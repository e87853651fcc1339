// The records of the step log. Paper 01, "The step log".
#![tactic(auto)]

ghost use Rattle.std.specs.Prelude.{◌≡◌};
ghost use Rattle.record.specs.Refused.{refusal_of};

use answer::Refusal;
use transit::{Rank, Value};

pub mod decode;
mod kind;

// A record: its kind, and its body in the log's order. A host is a plain byte.
#[derive(Clone, Copy, PartialEq, Eq)]
pub enum Record {
    Start(Rank, u8),
    Call(Rank, Rank),
    Route(Rank, Rank),
    Send(Rank, Rank, Value),
    Take(Rank, Rank),
    Move(Rank, u8),
    Heed(Rank, Rank),
    Drain(Rank, Rank),
    Land(Rank),
    Part(Rank, Rank),
    End(Rank),
    Look(Rank),
}

// Why no record stands at a position of a log: a kind that is none; or the log's end, or a body cut short.
#[derive(Clone, Copy, PartialEq, Eq)]
pub enum Fault {
    Unknown,
    Cut,
}

impl From<Fault> for Refusal {
    ghost from_gives = { λ fault refusal. refusal ≡ refusal_of fault };

    fn from(fault: Fault) -> Refusal {
        match fault {
            Fault::Unknown => Refusal::UnknownKind,
            Fault::Cut => Refusal::CutShort,
        }
    }
}
