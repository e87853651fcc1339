// The answer to a step. Paper 01, "Where each step is checked"; paper 02, changes 2 and 4.
#![tactic(auto)]

ghost use Rattle.std.specs.Prelude.{◌≡◌};
ghost use Rattle.answer.specs.Answer.{refusal_number, number, values, listed};

use transit::{Count, Value};

// Why a step is refused, with its number in the table of checks.
#[derive(Clone, Copy, PartialEq, Eq)]
pub enum Refusal {
    Unsound = 1,
    UnknownKind = 2,
    CutShort = 3,
    RankRange = 4,
    HostRange = 5,
    SameRank = 6,
    NotStarted = 7,
    AlreadyStarted = 8,
    HasEnded = 9,
    IsMigrating = 10,
    NotMigrating = 11,
    Connected = 12,
    RequestOpen = 13,
    NoRequest = 14,
    NotConnected = 15,
    PeerMigrating = 16,
    NoNotice = 17,
    BacklogLeft = 19,
    NoBacklog = 20,
    NothingToDrain = 21,
    NothingUnread = 22,
    UnreadLeft = 23,
    Full = 24,
    NumbersSpent = 25,
    SequenceSpent = 28,
}

// v1, v2 and v3 of an answer.
#[derive(Clone, Copy, PartialEq, Eq)]
pub struct Values(pub Value, pub Value, pub Value);

// What a step is answered with: its values, or why it is refused.
pub type Answer = Result<Values, Refusal>;

// A count of unread messages as it is answered and printed: its 16 bits widen here and nowhere else.
pub fn widened(n: Count) -> Value
    ensures { result ≡ n }
{
    Value::from(n)
}

impl Refusal {
    // The number of the table of checks.
    pub fn number(self) -> u8
        ensures { result ≡ refusal_number self }
    {
        self as u8
    }
}

// 0 where the step was accepted, else the refusal's number.
pub fn number_of(answer: Answer) -> u8
    ensures { result ≡ number answer }
{
    match answer {
        Ok(_) => 0,
        Err(why) => why.number(),
    }
}

// The values of an accepted step; zeros of a refused one.
pub fn values_of(answer: Answer) -> Values
    ensures { listed result ≡ values answer }
{
    answer.unwrap_or(Values(0, 0, 0))
}
