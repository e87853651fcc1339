// A message put at the tail of the slots.
#![tactic(auto)]

ghost use Rattle.std.specs.Prelude.{[], ◌∷◌, ◌++◌, ◌≡◌, ◌<◌, ◌+◌, length};
ghost use Rattle.base.specs.Lists.{tally};
ghost use Rattle.transit.specs.Columns.{columns_of, SLOTS};
ghost use Rattle.transit.specs.InPlace.{messages, sent};
ghost use Rattle.transit.specs.Message.{between, ranks};
ghost use Rattle.transit.specs.Unread.{limit};

use transit::layout::{COUNT, FIRST, LAST, NEXT, NONE, PLACES, SEQUENCES, TAIL, UNREAD, pair_of};
use transit::mail::Mail;
use transit::{Count, Message};

// The message stands at the tail, where there is room; how many of its pair are unread then.
pub fn put(m: Message, mail: &mut Mail) -> Count
    requires slots_bound { (columns_of mail.old.slots).tail < SLOTS }
    requires contents_len_bound { length (messages mail.old) < limit }
    requires sender_lt_ranks { m.sender.0 < ranks }
    requires receiver_lt_ranks { m.receiver.0 < ranks }
    ensures same { messages mail.new ≡ messages mail.old ++ (m ∷ []) }
    ensures counts { sent mail.new ≡ sent mail.old }
    ensures pair { result ≡ tally (between m.sender m.receiver) (messages mail.new) }
    ensures further { (columns_of mail.new.slots).tail ≡ (columns_of mail.old.slots).tail + 1 }
{
    let pair = pair_of(m.sender, m.receiver);
    let number = u16::from(m.place.number());
    let tail = mail.slots[TAIL];
    let unread = mail.slots[UNREAD];
    let first = mail.slots[FIRST + pair];
    let last = mail.slots[LAST + pair];
    let more = mail.slots[COUNT + pair] + 1;
    let at = usize::from(tail);
    mail.contents[at] = m.value;
    mail.contents[SEQUENCES + at] = m.sequence;
    mail.slots[at] = pair as u16;
    mail.slots[PLACES + at] = number;
    mail.slots[NEXT + at] = NONE;
    let link = if first == NONE {
        FIRST + pair
    } else {
        NEXT + usize::from(last)
    };
    mail.slots[link] = tail;
    mail.slots[LAST + pair] = tail;
    mail.slots[COUNT + pair] = more;
    mail.slots[TAIL] = tail + 1;
    mail.slots[UNREAD] = unread + 1;
    more
}
