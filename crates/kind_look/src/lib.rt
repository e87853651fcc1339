// Look: its checks in the paper's order, and what it does where none applies. Paper 01, "The step log", kind 0C; paper 02, change 6.
#![tactic(auto)]

ghost use Rattle.std.specs.Prelude.{List, ℕ};
ghost use Rattle.transit.specs.InPlace.{unread};
ghost use Rattle.protocol.specs.Messages.{look};
ghost use Rattle.broker.specs.State.{with_unread};
ghost use Rattle.record.specs.declared.Record.{Record};
ghost use Rattle.roster.specs.Roster.{ranks_of};
ghost use Rattle.desk.specs.Desk.{Does, Judges, state_of};

use answer::{Refusal, Values};
use desk::Desk;
use roster_read::standing_of;
use transit::{Rank, Value};
use transit_find::first_to;
use verdict::{Verdict, one_rank, refuse_if, running};

#[tactic(auto, using(crate::specs::Laws::Judged::by_tests))]
pub fn look_verdict(r: Rank, desk: &Desk) -> Verdict
    ensures { Judges (Record.Look r) (state_of desk.now) result }
{
    let receiver = standing_of(r, &desk.roster);
    one_rank(r, receiver)?;
    running(receiver)?;
    let found = first_to(r, &desk.mail);
    refuse_if(found.is_none(), Refusal::NothingUnread)
}

// The rank named is the sender of the message that was sent first of all those unread by `r`, whatever is known of the ranks.
#[tactic(auto, unfolding(protocol::specs::Messages::look))]
pub fn look(r: Rank, desk: &Desk) -> Values
    ensures { (roster : List ℕ) → let s = with_unread (unread desk.now.mail) (ranks_of roster) in Does (look r) s result s }
{
    let found = first_to(r, &desk.mail);
    let sender = found.map_or(Rank(0), |m| m.sender);
    Values(sender.0 as Value, 0, 0)
}
