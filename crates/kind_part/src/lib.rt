// Part: its checks in the paper's order, and what it does where none applies. Paper 01, "The step log", kind 0A.
#![tactic(auto)]

ghost use Rattle.std.specs.Prelude.{false, ◌≡◌, ◌<◌};
ghost use Rattle.transit.specs.Message.{is_same_rank, ranks};
ghost use Rattle.protocol.specs.Connect.{part};
ghost use Rattle.record.specs.declared.Record.{Record};
ghost use Rattle.desk.specs.Desk.{state_of, Does, Judges};

use answer::{Refusal, Values, widened};
use broker::link::Connection;
use desk::Desk;
use roster_read::{link_between, standing_of};
use roster_write::connect_both;
use transit::{Place, Rank};
use transit_relabel::relabel_mail_between;
use verdict::{Verdict, refuse_if, running, two_ranks};

#[tactic(auto, using(crate::specs::Laws::Judged::by_tests))]
pub fn part_verdict(a: Rank, b: Rank, desk: &Desk) -> Verdict
    ensures { Judges (Record.Part a b) (state_of desk.now) result }
{
    let first = standing_of(a, &desk.roster);
    let second = standing_of(b, &desk.roster);
    two_ranks(a, b, first, second)?;
    running(first)?;
    let link = link_between(a, b, &desk.roster);
    let line = link.connection;
    refuse_if(line.is_closed(), Refusal::NotConnected)?;
    refuse_if(line.is_closing(), Refusal::PeerMigrating)
}

// The channels between `a` and `b` are read into the lists, and their lines close.
pub fn part(a: Rank, b: Rank, desk: &mut Desk) -> Values
    requires a_lt_ranks { (a.0 < ranks) × (b.0 < ranks) }
    requires apart { is_same_rank a b ≡ false }
    ensures does { Does (part a b) (state_of desk.old) result (state_of desk.new) }
    ensures contents { desk.new.mail.contents ≡ desk.old.mail.contents }
{
    let mail = &mut desk.mail;
    let to_first = relabel_mail_between(b, a, Place::Channel, Place::EndList, mail);
    let to_second = relabel_mail_between(a, b, Place::Channel, Place::EndList, mail);
    connect_both(a, b, Connection::Closed, &mut desk.roster);
    Values(widened(to_first), widened(to_second), 0)
}
