// Start: its checks in the paper's order, and what it does where none applies. Paper 01, "The step log", kind 01.
#![tactic(auto)]

ghost use Rattle.std.specs.Prelude.{◌<◌};
ghost use Rattle.protocol.specs.Life.{start};
ghost use Rattle.broker.specs.Names.{numbers};
ghost use Rattle.broker.specs.State.{drawn_on};
ghost use Rattle.record.specs.declared.Record.{Record};
ghost use Rattle.desk.specs.Desk.{state_of, Judges, RosterDoes};

use answer::{Refusal, Values};
use broker::process::{Status, Vmid};
use broker::state::Broker;
use desk::Desk;
use roster_read::{drawn_on, standing_of};
use roster_write::{announce, set_drawn, set_standing};
use transit::{Rank, Value};
use verdict::{Verdict, refuse_if};

#[tactic(auto, using(crate::specs::Laws::Judged::by_tests))]
pub fn start_verdict(r: Rank, host: u8, desk: &Desk) -> Verdict
    ensures { Judges (Record.Start r host) (state_of desk.now) result }
{
    refuse_if(Broker::RANKS <= r.0, Refusal::RankRange)?;
    refuse_if(Broker::HOSTS <= host, Refusal::HostRange)?;
    let standing = standing_of(r, &desk.roster);
    refuse_if(standing.is_started(), Refusal::AlreadyStarted)?;
    let drawn = drawn_on(host, &desk.roster);
    refuse_if(Broker::NUMBERS <= drawn, Refusal::NumbersSpent)
}

// `r` runs on `host` with its next number, and everybody is told.
#[tactic(auto, unfolding(protocol::specs::Life::start))]
pub fn start(r: Rank, host: u8, desk: &mut Desk) -> Values
    requires { drawn_on (state_of desk.old) host < numbers }
    ensures { RosterDoes (start r host) desk.old result desk.new }
{
    let number = drawn_on(host, &desk.roster) + 1;
    let vmid = Vmid(host, number);
    set_drawn(host, number, &mut desk.roster);
    set_standing(r, Status::Running(vmid), &mut desk.roster);
    announce(r, vmid, &mut desk.roster);
    Values(host as Value, number as Value, 0)
}
