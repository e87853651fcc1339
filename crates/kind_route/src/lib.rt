// Route: its checks in the paper's order, and what it does where none applies. Paper 01, "The step log", kind 03.
#![tactic(auto)]

ghost use Rattle.protocol.specs.Connect.{withdraw, route_there, route_on, route};
ghost use Rattle.record.specs.declared.Record.{Record};
ghost use Rattle.roster.specs.Roster.{ranks_of, Holds};
ghost use Rattle.desk.specs.Desk.{Judges, RosterDoes, state_of};

use answer::{Refusal, Values};
use broker::link::Connection;
use broker::process::{Request, Vmid, asks_for, posted_to};
use desk::Desk;
use roster::Roster;
use roster_read::{request_of, standing_of};
use roster_write::{connect_both, set_location, set_request};
use transit::{Rank, Value};
use verdict::{Verdict, refuse_if, two_ranks};

#[tactic(auto, using(crate::specs::Laws::Judged::by_tests))]
pub fn route_verdict(a: Rank, b: Rank, desk: &Desk) -> Verdict
    ensures { Judges (Record.Route a b) (state_of desk.now) result }
{
    let first = standing_of(a, &desk.roster);
    let second = standing_of(b, &desk.roster);
    two_ranks(a, b, first, second)?;
    let request = request_of(a, &desk.roster);
    refuse_if(!asks_for(request, b), Refusal::NoRequest)
}

// `a`'s call closes if it goes to `b`.
fn withdraw(a: Rank, b: Rank, roster: &mut Roster)
    ensures { Holds roster.new (withdraw a b (ranks_of roster.old)) }
{
    if asks_for(request_of(a, roster), b) {
        set_request(a, None, roster);
    }
}

// The call was posted to the current end: a plain line stands both ways, and calls between the two close.
fn route_there(a: Rank, b: Rank, end: Vmid, desk: &mut Desk) -> Values
    ensures { RosterDoes (route_there a b end) desk.old result desk.new }
{
    connect_both(a, b, Connection::Open, &mut desk.roster);
    withdraw(a, b, &mut desk.roster);
    withdraw(b, a, &mut desk.roster);
    Values(0, end.0 as Value, end.1 as Value)
}

// It was not: the entry and the call go to the current end.
fn route_on(a: Rank, b: Rank, end: Vmid, desk: &mut Desk) -> Values
    ensures { RosterDoes (route_on a b end) desk.old result desk.new }
{
    set_location(a, b, end, &mut desk.roster);
    set_request(a, Some(Request { to: b, vmid: end }), &mut desk.roster);
    Values(1, end.0 as Value, end.1 as Value)
}

// What becomes of `a`'s call to `b`.
#[tactic(auto, unfolding(protocol::specs::Connect::route))]
pub fn route(a: Rank, b: Rank, desk: &mut Desk) -> Values
    ensures { RosterDoes (route a b) desk.old result desk.new }
{
    let request = request_of(a, &desk.roster);
    let standing = standing_of(b, &desk.roster);
    let end = standing.endpoint();
    if standing.is_ended() {
        set_request(a, None, &mut desk.roster);
        Values(2, 0, 0)
    } else if posted_to(request) == end {
        route_there(a, b, end, desk)
    } else {
        route_on(a, b, end, desk)
    }
}
