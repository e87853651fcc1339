// The record at a position of a log. Paper 01, "The step log".
ghost use Rattle.std.specs.Prelude.{◌≡◌, length};
ghost use Rattle.record.specs.Kinds.{number_of};
ghost use Rattle.record.specs.Record.{is_kind, body_length, record_of, decode};

use crate::kind::Kind;
use crate::{Fault, Record};
use transit::{Rank, Value};

pub fn is_kind(byte: u8) -> bool
    ensures { result ≡ is_kind byte }
{
    Kind::try_from(byte).is_ok()
}

// How many bytes follow a kind.
fn body_length(kind: Kind) -> usize
    ensures { result ≡ body_length (number_of kind) }
{
    match kind {
        Kind::Send => 6,
        Kind::Land | Kind::End | Kind::Look => 1,
        _ => 2,
    }
}

// The record of a kind, by the bytes of its body.
#[tactic(auto, unfolding(crate::specs::Record::record_of))]
fn record_of(kind: Kind, body: &[u8]) -> Record
    requires { length body.now ≡ body_length (number_of kind) }
    ensures { result ≡ record_of (number_of kind) body.now }
{
    let a = Rank(body[0]);
    match kind {
        Kind::Start => Record::Start(a, body[1]),
        Kind::Call => Record::Call(a, Rank(body[1])),
        Kind::Route => Record::Route(a, Rank(body[1])),
        Kind::Send => {
            let value = Value::from_le_bytes([body[2], body[3], body[4], body[5]]);
            Record::Send(a, Rank(body[1]), value)
        }
        Kind::Take => Record::Take(a, Rank(body[1])),
        Kind::Move => Record::Move(a, body[1]),
        Kind::Heed => Record::Heed(a, Rank(body[1])),
        Kind::Drain => Record::Drain(a, Rank(body[1])),
        Kind::Land => Record::Land(a),
        Kind::Part => Record::Part(a, Rank(body[1])),
        Kind::End => Record::End(a),
        Kind::Look => Record::Look(a),
    }
}

// What stands at a position: a record and the position after it, or why none does.
pub fn decode(log: &[u8], at: usize) -> Result<(Record, usize), Fault>
    ensures { result ≡ decode log.now at }
{
    let byte = log.get(at).ok_or(Fault::Cut)?;
    let kind = Kind::try_from(*byte)?;
    let body = log[at + 1..].get(..body_length(kind)).ok_or(Fault::Cut)?;
    Ok((record_of(kind, body), at + 1 + body.len()))
}
