// Call: its checks in the paper's order, and what it does where none applies. Paper 01, "The step log", kind 02.
#![tactic(auto)]

ghost use Rattle.protocol.specs.Connect.{call};
ghost use Rattle.record.specs.declared.Record.{Record};
ghost use Rattle.desk.specs.Desk.{Judges, RosterDoes, state_of};

use answer::{Refusal, Values};
use broker::process::Request;
use desk::Desk;
use roster_read::{link_between, location_of, request_of, standing_of};
use roster_write::set_request;
use transit::{Rank, Value};
use verdict::{Verdict, refuse_if, running, two_ranks};

#[tactic(auto, using(crate::specs::Laws::Judged::by_tests))]
pub fn call_verdict(a: Rank, b: Rank, desk: &Desk) -> Verdict
    ensures { Judges (Record.Call a b) (state_of desk.now) result }
{
    let first = standing_of(a, &desk.roster);
    let second = standing_of(b, &desk.roster);
    two_ranks(a, b, first, second)?;
    running(first)?;
    let link = link_between(a, b, &desk.roster);
    refuse_if(!link.connection.is_closed(), Refusal::Connected)?;
    let request = request_of(a, &desk.roster);
    refuse_if(request.is_some(), Refusal::RequestOpen)
}

// `a`'s call opens, posted to its entry for `b`.
#[tactic(auto, unfolding(protocol::specs::Connect::call))]
pub fn call(a: Rank, b: Rank, desk: &mut Desk) -> Values
    ensures { RosterDoes (call a b) desk.old result desk.new }
{
    let vmid = location_of(a, b, &desk.roster);
    set_request(a, Some(Request { to: b, vmid }), &mut desk.roster);
    Values(vmid.0 as Value, vmid.1 as Value, 0)
}
