// A message taken: the first of its pair leaves.
#![tactic(auto)]

ghost use Rattle.std.specs.Prelude.{Some, ◌≡◌, ◌<◌};
ghost use Rattle.base.specs.Lists.{tally, without};
ghost use Rattle.transit.specs.InPlace.{messages, sent, unread};
ghost use Rattle.transit.specs.Message.{between, ranks};
ghost use Rattle.transit.specs.Unread.{counted, first_sent};
ghost use Rattle.transit.specs.declared.Selection.{Selection};

use transit::layout::{COUNT, DEAD, FIRST, NEXT, UNREAD, message_at, pair_of};
use transit::mail::Mail;
use transit::{Count, Message, Rank};

// The first message from `a` to `b` leaves; it, and how many of its pair are left.
pub fn remove(a: Rank, b: Rank, mail: &mut Mail) -> (Message, Count)
    requires a_lt_ranks { a.0 < ranks }
    requires b_lt_ranks { b.0 < ranks }
    requires nonzero { 0 < tally (between a b) (messages mail.old) }
    ensures first { first_sent (Selection.Between a b) (unread mail.old) ≡ Some result.0 }
    ensures rest { unread mail.new ≡ counted (sent mail.old) (without (between a b) (messages mail.old)) }
    ensures left { result.1 ≡ tally (between a b) (messages mail.new) }
    ensures contents { mail.new.contents ≡ mail.old.contents }
{
    let pair = pair_of(a, b);
    let at = usize::from(mail.slots[FIRST + pair]);
    let message = message_at(mail, at);
    let next = mail.slots[NEXT + at];
    let left = mail.slots[COUNT + pair] - 1;
    let unread = mail.slots[UNREAD] - 1;
    mail.slots[at] = DEAD;
    mail.slots[FIRST + pair] = next;
    mail.slots[COUNT + pair] = left;
    mail.slots[UNREAD] = unread;
    (message, left)
}
