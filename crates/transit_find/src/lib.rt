// The message of a pair at a place, and the message to a receiver, that was sent first.
#![tactic(auto)]

ghost use Rattle.std.specs.Prelude.{◌≡◌, ◌<◌};
ghost use Rattle.transit.specs.Columns.{columns_of};
ghost use Rattle.transit.specs.InPlace.{unread};
ghost use Rattle.transit.specs.Message.{ranks};
ghost use Rattle.transit.specs.Search.{Oldest};
ghost use Rattle.transit.specs.Unread.{first_sent};
ghost use Rattle.transit.specs.declared.Selection.{Selection};

use transit::layout::{FIRST, NONE, SLOTS, message_at, pair_of};
use transit::mail::Mail;
use transit::{Message, Place, RANKS, Rank, Slots};
use transit_seek::seek;

// The message from `a` to `b` at a place that was sent first.
pub fn first_at(a: Rank, b: Rank, place: Place, mail: &Mail) -> Option<Message>
    ensures { result ≡ first_sent (Selection.BetweenAt a b place) (unread mail.now) }
{
    if a.0 >= Rank::LIMIT || b.0 >= Rank::LIMIT {
        return None;
    }
    let at = seek(pair_of(a, b), u16::from(place.number()), mail);
    if at >= SLOTS {
        return None;
    }
    Some(message_at(mail, at))
}

// The first slot of a message to `r`: the least of its sixteen pairs' first slots.
fn oldest(r: usize, slots: &Slots) -> u16
    requires { r < ranks }
    ensures { Oldest (columns_of slots.now) r ranks result }
{
    let mut best = NONE;
    for s in 0..RANKS {
        best = best.min(slots[FIRST + (RANKS * s + r)]);
    }
    best
}

// The message to `r` that was sent first.
pub fn first_to(r: Rank, mail: &Mail) -> Option<Message>
    ensures { result ≡ first_sent (Selection.To r) (unread mail.now) }
{
    if r.0 >= Rank::LIMIT {
        return None;
    }
    let at = usize::from(oldest(usize::from(r.0), &mail.slots));
    if at >= SLOTS {
        return None;
    }
    Some(message_at(mail, at))
}
