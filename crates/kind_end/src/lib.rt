// End: its checks in the paper's order, and what it does where none applies. Paper 01, "The step log", kind 0B.
#![tactic(auto)]

ghost use Rattle.protocol.specs.Life.{end};
ghost use Rattle.record.specs.declared.Record.{Record};
ghost use Rattle.desk.specs.Desk.{Judges, RosterDoes, state_of};

use answer::{Refusal, Values};
use broker::process::Status;
use desk::Desk;
use roster_awaits::alone;
use roster_read::{request_of, standing_of};
use roster_write::set_standing;
use transit::Rank;
use transit_find::first_to;
use verdict::{Verdict, one_rank, refuse_if, running};

#[tactic(auto, using(crate::specs::Laws::Judged::by_tests))]
pub fn end_verdict(r: Rank, desk: &Desk) -> Verdict
    ensures { Judges (Record.End r) (state_of desk.now) result }
{
    let standing = standing_of(r, &desk.roster);
    one_rank(r, standing)?;
    running(standing)?;
    let alone = alone(r, &desk.roster);
    refuse_if(!alone, Refusal::Connected)?;
    let request = request_of(r, &desk.roster);
    refuse_if(request.is_some(), Refusal::RequestOpen)?;
    let found = first_to(r, &desk.mail);
    refuse_if(found.is_some(), Refusal::UnreadLeft)
}

// `r` is ended, and keeps its last vmid.
#[tactic(auto, unfolding(protocol::specs::Life::end))]
pub fn end(r: Rank, desk: &mut Desk) -> Values
    ensures { RosterDoes (end r) desk.old result desk.new }
{
    let last = standing_of(r, &desk.roster).endpoint();
    set_standing(r, Status::Ended(last), &mut desk.roster);
    Values(0, 0, 0)
}
