// What a move leaves behind: its lines, and the messages of the source process. Paper 01, "The step log", kind 06.
#![tactic(auto)]

ghost use Rattle.std.specs.Prelude.{List, ◌≡◌, ℕ, ◌<◌};
ghost use Rattle.transit.specs.Mail.{IsMail, unread_in};
ghost use Rattle.transit.specs.Message.{ranks};
ghost use Rattle.protocol.specs.Migrate.{leave, leave_all, left_behind};
ghost use Rattle.broker.specs.State.{with_links};
ghost use Rattle.roster.specs.Roster.{ranks_of, Holds};

use broker::link::{Backlog, Connection, Link};
use roster::Roster;
use roster_read::link_between;
use roster_write::{awaiting, connect, set_link};
use transit::{Place, Rank, Slots};
use transit_relabel::relabel_to;

// What `r`'s move does between `r` and `p`.
fn leave(r: Rank, p: Rank, roster: &mut Roster)
    ensures { Holds roster.new (with_links (leave r p (ranks_of roster.old).links) (ranks_of
        roster.old)) }
{
    match link_between(r, p, roster).connection {
        Connection::Closed => {}
        Connection::Open => {
            let own = Link {
                connection: Connection::Closed,
                backlog: Backlog::Unheeded,
            };
            set_link(r, p, own, roster);
            connect(p, r, Connection::Closing, roster);
        }
        Connection::Closing => {
            let own = Link {
                connection: Connection::Closed,
                backlog: Backlog::Marked,
            };
            set_link(r, p, own, roster);
            awaiting(p, r, Backlog::Marked, roster);
        }
    }
}

// What it does between `r` and everybody.
#[tactic(auto, unfolding(protocol::specs::Migrate::leave_all, broker::specs::Ranks::each_rank))]
pub fn leave_all(r: Rank, roster: &mut Roster)
    ensures { Holds roster.new (with_links (leave_all r (ranks_of roster.old).links) (ranks_of
        roster.old)) }
{
    for i in 0..Rank::LIMIT {
        leave(r, Rank(i), roster);
    }
}

// The messages to `r` stay with its source process.
pub fn leave_behind(r: Rank, slots: &mut Slots)
    requires { r.0 < ranks }
    ensures kept { (contents : List ℕ) → IsMail slots.old contents → IsMail slots.new contents }
    ensures left { (contents : List ℕ) → IsMail slots.old contents
        → unread_in slots.new contents ≡ left_behind r (unread_in slots.old contents) }
{
    relabel_to(r, Place::EndList, Place::SourceList, slots);
    relabel_to(r, Place::Channel, Place::SourceChannel, slots);
}
