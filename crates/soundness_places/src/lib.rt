// One unread message by itself: who it is from and to, and where it is. Paper 01, "Sound states".
#![tactic(auto)]

ghost use Rattle.std.specs.Prelude.{◌≡◌};
ghost use Rattle.protocol.specs.Laws.Sound.{is_named};
ghost use Rattle.soundness_places.specs.Places.{place_fits, message_fits};

use broker::link::Link;
use broker::process::{Process, Status};
use broker::state::Broker;
use transit::{Message, Place};

// The message is from a rank to another rank.
pub fn is_named(m: Message) -> bool
    ensures { result ≡ is_named m }
{
    (m.sender.0 < Broker::RANKS) & (m.receiver.0 < Broker::RANKS) & (m.sender != m.receiver)
}

// A place by the receiver's status and its link to the sender, `back`.
pub fn place_fits(place: Place, receiver: Status, back: Link) -> bool
    ensures { result ≡ place_fits place receiver back }
{
    let source = matches!(place, Place::SourceList | Place::SourceChannel);
    let heeded = !back.backlog.is_unheeded() | source;
    let migrating = !source | receiver.is_migrating();
    let awaited = (place != Place::SourceChannel) | !back.backlog.is_clear();
    let connected = (place != Place::Channel) | !back.connection.is_closed();
    heeded & (migrating & awaited & connected)
}

pub fn message_fits(m: Message, sender: Process, receiver: Process, back: Link) -> bool
    ensures { result ≡ message_fits m sender receiver back }
{
    sender.status.is_started()
        & receiver.status.is_live()
        & place_fits(m.place, receiver.status, back)
}
