// The unread messages of a broker: one list in order of sending, each message with its place and its running number.
// Paper 01: "The places of messages are kept by a lower part that knows no step kinds." This crate has its
// types, definitions and laws, and the crates named after it its routines.
#![tactic(auto)]

ghost use Rattle.std.specs.Prelude.{◌≡◌};
ghost use Rattle.transit.specs.Message.{message, place_number};
ghost use Rattle.transit.specs.Unread.{unread_of, nothing};

pub mod layout;
pub mod mail;
pub mod pick;

// The number by which processes are named at the upper of the two levels of name.
#[derive(Clone, Copy, PartialEq, Eq)]
pub struct Rank(pub u8);

// Paper 01: "Ranks are 0 to 15."
pub const RANKS: usize = 16;

// The ordered pairs of ranks: sixteen rows of sixteen.
pub const CELLS: usize = 256;

// How long the two arrays are that a run works on.
pub const SLOTS_LENGTH: usize = 6914;

pub const CONTENTS_LENGTH: usize = 4352;

// How many messages of a pair are unread, or of another selection. Paper 02, change 3: "it is to be counted, kept and handed out there in
// 16 bits."
pub type Count = u16;

// A message's value, and v1 to v3 of an answer.
pub type Value = u32;

// A message's running number, and how many messages a pair has sent.
pub type Sequence = u32;

// Where an unread message is held: paper 01's places 0 to 3, in this order.
#[derive(Clone, Copy, PartialEq, Eq)]
pub enum Place {
    // 0, the mover's list: already read from the channel by the source process of a migration.
    SourceList,
    // 1, the lane to the mover: on a channel to the source process.
    SourceChannel,
    // 2, the list of the current end.
    EndList,
    // 3, the lane to the current end.
    Channel,
}

// An unread message. Its running number is paper 02's, change 4: "The number of a message within its ordered pair, from 1 in order of
// sending, is now kept with the message".
#[derive(Clone, Copy, PartialEq, Eq)]
pub struct Message {
    pub sender: Rank,
    pub receiver: Rank,
    pub place: Place,
    pub value: Value,
    pub sequence: Sequence,
}

// Which messages a routine is about.
#[derive(Clone, Copy, PartialEq, Eq)]
pub enum Selection {
    To(Rank),
    ToAt(Rank, Place),
    Between(Rank, Rank),
    BetweenAt(Rank, Rank, Place),
}

// The messages as they are handed over and saved: in the first `count` slots, in order of sending. The other slots mean nothing. And how
// many messages each ordered pair has sent, row after row.
#[derive(Clone, Copy, PartialEq, Eq)]
pub struct Transit {
    pub messages: [Message; Transit::LIMIT],
    pub count: usize,
    pub sent: [Sequence; CELLS],
}

// The messages as a run works on them: 2,048 slots in order of sending, of which those are dead whose message has left. The columns
// are each slot's pair, place and next slot of the pair, each pair's first slot, last slot and count, the tail and the number unread.
pub type Slots = [u16; SLOTS_LENGTH];

// The value of each slot's message and its running number, and how many messages each pair has sent.
pub type Contents = [u32; CONTENTS_LENGTH];

impl Rank {
    // The first number that is no rank.
    pub const LIMIT: u8 = 16;
}

impl Place {
    // Paper 01's number of a place.
    pub fn number(self) -> u8
        ensures { result ≡ place_number self }
    {
        self as u8
    }
}

impl Message {
    // A message from `sender` to `receiver` at a place, with its value and its running number.
    pub fn new(sender: Rank, receiver: Rank, place: Place, value: Value, sequence: Sequence) -> Self
        ensures { result ≡ message sender receiver place value sequence }
    {
        Message {
            sender,
            receiver,
            place,
            value,
            sequence,
        }
    }
}

impl Transit {
    // Paper 01: "At most 1,024 are unread in the whole desk."
    pub const LIMIT: usize = 1024;

    // Paper 02, change 4: "28 for a send when the pair has already sent 4,294,967,295".
    pub const MOST_SENT: Sequence = 4294967295;

    // Nothing sent yet.
    pub fn fresh() -> Self
        ensures { unread_of result ≡ nothing }
    {
        let unused = Message::new(Rank(0), Rank(0), Place::EndList, 0, 0);
        Transit {
            messages: [unused; Transit::LIMIT],
            count: 0,
            sent: [0; CELLS],
        }
    }
}
