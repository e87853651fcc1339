// Heed: its checks in the paper's order, and what it does where none applies. Paper 01, "The step log", kind 07.
#![tactic(auto)]

ghost use Rattle.std.specs.Prelude.{◌≡◌, ◌<◌};
ghost use Rattle.transit.specs.Message.{ranks};
ghost use Rattle.protocol.specs.Migrate.{heed};
ghost use Rattle.record.specs.declared.Record.{Record};
ghost use Rattle.desk.specs.Desk.{state_of, Does, Judges};

use answer::{Refusal, Values, widened};
use broker::link::{Backlog, Connection};
use desk::Desk;
use roster_read::{link_between, standing_of};
use roster_write::{awaiting, connect};
use transit::{Place, Rank};
use transit_relabel::relabel_mail_between;
use verdict::{Verdict, refuse_if, two_ranks};

#[tactic(auto, using(crate::specs::Laws::Judged::by_tests))]
pub fn heed_verdict(b: Rank, r: Rank, desk: &Desk) -> Verdict
    ensures { Judges (Record.Heed b r) (state_of desk.now) result }
{
    let peer = standing_of(b, &desk.roster);
    let mover = standing_of(r, &desk.roster);
    two_ranks(b, r, peer, mover)?;
    refuse_if(peer.is_ended(), Refusal::HasEnded)?;
    let link = link_between(b, r, &desk.roster);
    refuse_if(!link.connection.is_closing(), Refusal::NoNotice)
}

// `b` reads what is on its channel from `r`, and closes its side with an end marker.
pub fn heed(b: Rank, r: Rank, desk: &mut Desk) -> Values
    requires { (b.0 < ranks) × (r.0 < ranks) }
    ensures does { Does (heed b r) (state_of desk.old) result (state_of desk.new) }
    ensures contents { desk.new.mail.contents ≡ desk.old.mail.contents }
{
    let moved = relabel_mail_between(r, b, Place::Channel, Place::EndList, &mut desk.mail);
    connect(b, r, Connection::Closed, &mut desk.roster);
    awaiting(r, b, Backlog::Marked, &mut desk.roster);
    Values(widened(moved), 0, 0)
}
