// Where the columns of the slots and of the contents start, the numbers that stand for nothing, and the numbers of pairs and places.
ghost use Rattle.std.specs.Prelude.{◌≡◌, ◌<◌, ◌+◌, get_or};
ghost use Rattle.transit.specs.Columns.{SLOTS, PLACES, SEQUENCES};
ghost use Rattle.transit.specs.Message.{ranks, cells, pair_of};
ghost use Rattle.transit.specs.Slots.{place_of, message_of};

use crate::mail::Mail;
use crate::{Message, Place, RANKS, Rank};

// How many slots there are.
pub const SLOTS: usize = 2048;

// The columns of slots, behind the pairs at 0: each slot's place, and the next slot of its pair.
pub const PLACES: usize = 2048;

pub const NEXT: usize = 4096;

// The columns of pairs: each pair's first slot, its last slot, and how many of its messages are unread.
pub const FIRST: usize = 6144;

pub const LAST: usize = 6400;

pub const COUNT: usize = 6656;

// The slot behind all that were used, and how many messages are unread.
pub const TAIL: usize = 6912;

pub const UNREAD: usize = 6913;

// The contents, behind the values at 0: each slot's running number, and how many messages each pair has sent.
pub const SEQUENCES: usize = 2048;

pub const SENT: usize = 4096;

// The number of no pair: a slot that has it is dead.
pub const DEAD: u16 = 256;

// A row of pairs: those from one sender.
pub const ROW: u16 = 16;

// No slot: behind the last message of a pair, and of a pair that has none.
pub const NONE: u16 = 2048;

// The number of the pair from `a` to `b`.
pub fn pair_of(a: Rank, b: Rank) -> usize
    requires a_lt_ranks { a.0 < ranks }
    requires b_lt_ranks { b.0 < ranks }
    ensures { result ≡ pair_of a b }
{
    RANKS * usize::from(a.0) + usize::from(b.0)
}

// The place of a number.
fn place_of(n: u16) -> Place
    ensures { result ≡ place_of n }
{
    match n {
        0 => Place::SourceList,
        1 => Place::SourceChannel,
        2 => Place::EndList,
        _ => Place::Channel,
    }
}

// The message in a slot of a pair.
pub fn message_at(mail: &Mail, at: usize) -> Message
    requires at_lt_slots { at < SLOTS }
    requires live { get_or mail.now.slots at 0 < cells }
    ensures { result ≡ message_of (get_or mail.now.slots at 0) (get_or mail.now.slots (PLACES + at) 0)
        (get_or mail.now.contents at 0) (get_or mail.now.contents (SEQUENCES + at) 0) }
{
    let pair = mail.slots[at];
    Message {
        sender: Rank((pair / ROW) as u8),
        receiver: Rank((pair % ROW) as u8),
        place: place_of(mail.slots[PLACES + at]),
        value: mail.contents[at],
        sequence: mail.contents[SEQUENCES + at],
    }
}
