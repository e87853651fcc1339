// Move: its checks in the paper's order, and what it does where none applies. Paper 01, "The step log", kind 06; paper 02, change 2.
#![tactic(auto)]

ghost use Rattle.std.specs.Prelude.{List, ℕ, ◌<◌};
ghost use Rattle.transit.specs.Mail.{IsMail, unread_in};
ghost use Rattle.transit.specs.Message.{ranks};
ghost use Rattle.transit.specs.Unread.{Unread};
ghost use Rattle.protocol.specs.Migrate.{move};
ghost use Rattle.broker.specs.Names.{numbers};
ghost use Rattle.broker.specs.State.{drawn_on, with_unread};
ghost use Rattle.record.specs.declared.Record.{Record};
ghost use Rattle.roster.specs.Roster.{ranks_of};
ghost use Rattle.desk.specs.Desk.{Does, Judges};

use answer::{Refusal, Values};
use broker::process::{Status, Vmid};
use broker::state::Broker;
use kind_move_leaving::{leave_all, leave_behind};
use roster::Roster;
use roster_awaits::awaits;
use roster_read::{drawn_on, request_of, standing_of};
use roster_write::{set_drawn, set_standing};
use transit::{Rank, Slots, Value};
use verdict::{Verdict, refuse_if, running};

#[tactic(auto, using(crate::specs::Laws::Judged::by_tests))]
pub fn move_verdict(r: Rank, host: u8, roster: &Roster) -> Verdict
    ensures { (u : Unread) → Judges (Record.Move r host) (with_unread u (ranks_of roster.now)) result }
{
    refuse_if(Broker::RANKS <= r.0, Refusal::RankRange)?;
    refuse_if(Broker::HOSTS <= host, Refusal::HostRange)?;
    let standing = standing_of(r, roster);
    refuse_if(!standing.is_started(), Refusal::NotStarted)?;
    running(standing)?;
    let request = request_of(r, roster);
    refuse_if(request.is_some(), Refusal::RequestOpen)?;
    let drawn = drawn_on(host, roster);
    refuse_if(Broker::NUMBERS <= drawn, Refusal::NumbersSpent)
}

// `r` migrates to `host` with its next number, and the lines that it has are left. The host may be the one where it runs.
#[tactic(auto, using(crate::specs::Laws::Done::move_done))]
pub fn move_to(r: Rank, host: u8, slots: &mut Slots, roster: &mut Roster) -> Values
    requires r_lt_ranks { r.0 < ranks }
    requires host_bound { drawn_on (ranks_of roster.old) host < numbers }
    ensures kept { (contents : List ℕ) → IsMail slots.old contents → IsMail slots.new contents }
    ensures does { (contents : List ℕ) → IsMail slots.old contents
        → Does (move r host) (with_unread (unread_in slots.old contents) (ranks_of roster.old)) result
        (with_unread (unread_in slots.new contents) (ranks_of roster.new)) }
{
    let source = standing_of(r, roster).endpoint();
    let number = drawn_on(host, roster) + 1;
    let moving = Status::Migrating(source, Vmid(host, number));
    set_drawn(host, number, roster);
    set_standing(r, moving, roster);
    leave_behind(r, slots);
    leave_all(r, roster);
    let awaited = awaits(r, roster);
    Values(host as Value, number as Value, awaited as Value)
}
