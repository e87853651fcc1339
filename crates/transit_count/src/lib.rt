// How many messages are unread: in all, of a pair, and of a pair at a place.
#![tactic(auto)]

ghost use Rattle.std.specs.Prelude.{List, ◌≡◌, ℕ, ◌<◌, length};
ghost use Rattle.transit.specs.Columns.{columns_of, SLOTS};
ghost use Rattle.base.specs.Lists.{tally};
ghost use Rattle.transit.specs.Mail.{IsMail, messages_in};
ghost use Rattle.transit.specs.Message.{between, picks, ranks};
ghost use Rattle.transit.specs.Pick.{hits};
ghost use Rattle.transit.specs.declared.Selection.{Selection};

use transit::layout::{COUNT, PLACES, SLOTS, UNREAD, pair_of};
use transit::pick::Pick;
use transit::{Count, Place, Rank, Slots};

// How many messages are unread.
pub fn unread(slots: &Slots) -> usize
    ensures { (contents : List ℕ) → IsMail slots.now contents → result ≡ length (messages_in slots.now contents) }
{
    usize::from(slots[UNREAD])
}

// How many messages from `a` to `b` are unread.
pub fn unread_between(a: Rank, b: Rank, slots: &Slots) -> Count
    ensures { (contents : List ℕ) → IsMail slots.now contents
        → result ≡ tally (between a b) (messages_in slots.now contents) }
{
    if a.0 >= Rank::LIMIT || b.0 >= Rank::LIMIT {
        return 0;
    }
    slots[COUNT + pair_of(a, b)]
}

// How many slots are picked.
fn count_hits(w: Pick, slots: &Slots) -> Count
    ensures { result ≡ hits w (columns_of slots.now) SLOTS }
{
    let mut n: Count = 0;
    for i in 0..SLOTS {
        n += Count::from(w.picks(slots[i], slots[PLACES + i]));
    }
    n
}

// How many messages from `a` to `b` are unread at a place.
pub fn count_at(a: Rank, b: Rank, place: Place, slots: &Slots) -> Count
    requires a_lt_ranks { a.0 < ranks }
    requires b_lt_ranks { b.0 < ranks }
    ensures { (contents : List ℕ) → IsMail slots.now contents
        → result ≡ tally (picks (Selection.BetweenAt a b place)) (messages_in slots.now contents) }
{
    count_hits(Pick::between(a, b, place), slots)
}

// How many messages to `r` are unread at a place.
pub fn count_to(r: Rank, place: Place, slots: &Slots) -> Count
    requires { r.0 < ranks }
    ensures { (contents : List ℕ) → IsMail slots.now contents
        → result ≡ tally (picks (Selection.ToAt r place)) (messages_in slots.now contents) }
{
    count_hits(Pick::to(r, place), slots)
}
