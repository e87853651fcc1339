// Changes of places. Nothing is reordered, and nothing but the place changes.
#![tactic(auto)]

ghost use Rattle.std.specs.Prelude.{List, ◌≡◌, ℕ, ◌<◌};
ghost use Rattle.base.specs.Lists.{tally};
ghost use Rattle.transit.specs.Columns.{SLOTS};
ghost use Rattle.transit.specs.InPlace.{messages, unread};
ghost use Rattle.transit.specs.Mail.{IsMail, Relabelled};
ghost use Rattle.transit.specs.Message.{picks, ranks};
ghost use Rattle.transit.specs.Pick.{Passed};
ghost use Rattle.transit.specs.Unread.{relabel_all, relabel_first};
ghost use Rattle.transit.specs.declared.Selection.{Selection};

use transit::layout::{PLACES, SLOTS, pair_of};
use transit::mail::Mail;
use transit::pick::Pick;
use transit::{Count, Place, Rank, Slots};
use transit_seek::seek;

// The picked slots go to the place of a number; how many.
fn pass(w: Pick, to: u16, slots: &mut Slots) -> Count
    ensures { Passed w to slots.old SLOTS result slots.new }
{
    let mut n: Count = 0;
    for i in 0..SLOTS {
        let place = slots[PLACES + i];
        let hit = w.picks(slots[i], place);
        slots[PLACES + i] = if hit { to } else { place };
        n += Count::from(hit);
    }
    n
}

// The messages from `a` to `b` at one place go to another; how many.
pub fn relabel_between(a: Rank, b: Rank, from: Place, to: Place, slots: &mut Slots) -> Count
    requires a_lt_ranks { a.0 < ranks }
    requires b_lt_ranks { b.0 < ranks }
    ensures { (contents : List ℕ) → IsMail slots.old contents
        → Relabelled (Selection.BetweenAt a b from) to slots.old contents result slots.new }
{
    pass(Pick::between(a, b, from), u16::from(to.number()), slots)
}

// The messages to `r` at one place go to another; how many.
pub fn relabel_to(r: Rank, from: Place, to: Place, slots: &mut Slots) -> Count
    ensures { (contents : List ℕ) → IsMail slots.old contents
        → Relabelled (Selection.ToAt r from) to slots.old contents result slots.new }
{
    pass(Pick::to(r, from), u16::from(to.number()), slots)
}

// The same between two ranks, of messages that lie in a `Mail`.
pub fn relabel_mail_between(a: Rank, b: Rank, from: Place, to: Place, mail: &mut Mail) -> Count
    requires a_lt_ranks { a.0 < ranks }
    requires b_lt_ranks { b.0 < ranks }
    ensures all { unread mail.new ≡ relabel_all (Selection.BetweenAt a b from) to (unread mail.old) }
    ensures moved { result ≡ tally (picks (Selection.BetweenAt a b from)) (messages mail.old) }
    ensures contents { mail.new.contents ≡ mail.old.contents }
{
    relabel_between(a, b, from, to, &mut mail.slots)
}

// The same to one rank, of messages that lie in a `Mail`.
pub fn relabel_mail_to(r: Rank, from: Place, to: Place, mail: &mut Mail) -> Count
    ensures all { unread mail.new ≡ relabel_all (Selection.ToAt r from) to (unread mail.old) }
    ensures moved { result ≡ tally (picks (Selection.ToAt r from)) (messages mail.old) }
    ensures contents { mail.new.contents ≡ mail.old.contents }
{
    relabel_to(r, from, to, &mut mail.slots)
}

// The first message from `a` to `b` at one place goes to another.
pub fn relabel_first(a: Rank, b: Rank, from: Place, to: Place, mail: &mut Mail)
    requires a_lt_ranks { a.0 < ranks }
    requires b_lt_ranks { b.0 < ranks }
    ensures first { unread mail.new ≡ relabel_first (Selection.BetweenAt a b from) to (unread mail.old) }
    ensures contents { mail.new.contents ≡ mail.old.contents }
{
    let at = seek(pair_of(a, b), u16::from(from.number()), mail);
    if at < SLOTS {
        mail.slots[PLACES + at] = u16::from(to.number());
    }
}
