// Send: its checks in the paper's order, and what it does where none applies. Paper 01, "The step log", kind 04; paper 02, change 4.
#![tactic(auto)]

ghost use Rattle.std.specs.Prelude.{◌≡◌, length, ℕ, ◌<◌};
ghost use Rattle.transit.specs.InPlace.{messages, sent};
ghost use Rattle.transit.specs.Message.{ranks};
ghost use Rattle.transit.specs.Unread.{limit, sent_at, most_sent};
ghost use Rattle.protocol.specs.Messages.{place_over, send};
ghost use Rattle.record.specs.declared.Record.{Record};
ghost use Rattle.desk.specs.Desk.{state_of, Does, Judges};

use answer::{Refusal, Values, widened};
use broker::link::Connection;
use desk::Desk;
use roster_read::{link_between, standing_of};
use transit::{Place, Rank, Transit, Value};
use transit_append::append;
use transit_count::unread;
use transit_sent::sent_between;
use verdict::{Verdict, refuse_if, running, two_ranks};

#[tactic(auto, using(crate::specs::Laws::Judged::by_tests))]
pub fn send_verdict(a: Rank, b: Rank, desk: &Desk) -> Verdict
    ensures { (value : ℕ) → Judges (Record.Send a b value) (state_of desk.now) result }
{
    let sender = standing_of(a, &desk.roster);
    let receiver = standing_of(b, &desk.roster);
    two_ranks(a, b, sender, receiver)?;
    running(sender)?;
    let link = link_between(a, b, &desk.roster);
    refuse_if(link.connection.is_closed(), Refusal::NotConnected)?;
    let unread = unread(&desk.mail.slots);
    refuse_if(Transit::LIMIT <= unread, Refusal::Full)?;
    let sent = sent_between(a, b, &desk.mail.contents);
    refuse_if(Transit::MOST_SENT <= sent, Refusal::SequenceSpent)
}

// Where a message over a connection stands.
fn place_over(line: Connection) -> Place
    ensures { result ≡ place_over line }
{
    match line {
        Connection::Closed | Connection::Open => Place::Channel,
        Connection::Closing => Place::SourceChannel,
    }
}

// The message is unread, after all others, with the next number of its pair.
#[tactic(auto, using(crate::specs::Laws::Done::send_done))]
pub fn send(a: Rank, b: Rank, value: Value, desk: &mut Desk) -> Values
    requires a_lt_ranks { (a.0 < ranks) × (b.0 < ranks) }
    requires contents_len_bound { length (messages desk.old.mail) < limit }
    requires contents_bound { sent_at a b (sent desk.old.mail) < most_sent }
    ensures does { Does (send a b value) (state_of desk.old) result (state_of desk.new) }
    ensures roster { desk.new.roster ≡ desk.old.roster }
{
    let place = place_over(link_between(a, b, &desk.roster).connection);
    let pair = append(a, b, place, value, &mut desk.mail);
    Values(widened(pair), 0, 0)
}
