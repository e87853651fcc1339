// The last lines of a run. Paper 01, "The printed run": "Then, for each ordered pair with unread messages .. Then `end`."
#![tactic(auto)]

ghost use Rattle.std.specs.Prelude.{◌++◌, ◌<◌};
ghost use Rattle.transit.specs.Message.{ranks};
ghost use Rattle.print_lines.specs.Lines.{lines_of_pair, lines_of_sender, pair_lines, pair_room, end_line};
ghost use Rattle.print_page.specs.Put.{Room};
ghost use Rattle.print_last.specs.Last.{PutOf, sender_room, last_room};

use answer::widened;
use broker::state::Broker;
use print_lines::{end_line, pair_line};
use print_page::Page;
use transit::{Place, Rank, Slots};
use transit_count::{count_at, unread_between};

// The line of a pair, where it has messages unread.
fn lines_of_pair(page: &mut Page, from: Rank, to: Rank, slots: &Slots)
    requires ranks { (from.0 < ranks) × (to.0 < ranks) }
    requires room { Room pair_room page.old }
    ensures { PutOf pair_room page.old slots.now (λ l. lines_of_pair l from.0 to.0) page.new }
{
    if unread_between(from, to, slots) == 0 {
        return;
    }
    let first = widened(count_at(from, to, Place::SourceList, slots));
    let second = widened(count_at(from, to, Place::SourceChannel, slots));
    let third = widened(count_at(from, to, Place::EndList, slots));
    let fourth = widened(count_at(from, to, Place::Channel, slots));
    pair_line(page, from.0, to.0, &[first, second, third, fourth]);
}

// The lines of the pairs with a sender.
fn lines_of_sender(page: &mut Page, from: Rank, slots: &Slots)
    requires from_lt_ranks { from.0 < ranks }
    requires room { Room sender_room page.old }
    ensures { PutOf sender_room page.old slots.now (λ l. lines_of_sender l from.0) page.new }
{
    for to in 0..Broker::RANKS {
        lines_of_pair(page, from, Rank(to), slots);
    }
}

// The lines of all pairs with messages unread, and `end`.
pub fn last_lines(page: &mut Page, slots: &Slots)
    requires { Room last_room page.old }
    ensures { PutOf last_room page.old slots.now (λ l. pair_lines l ++ end_line) page.new }
{
    for from in 0..Broker::RANKS {
        lines_of_sender(page, Rank(from), slots);
    }
    end_line(page);
}
