// Drain: its checks in the paper's order, and what it does where none applies. Paper 01, "The step log", kind 08.
#![tactic(auto)]

ghost use Rattle.std.specs.Prelude.{◌≡◌, ◌<◌};
ghost use Rattle.transit.specs.Message.{ranks};
ghost use Rattle.protocol.specs.Migrate.{drain};
ghost use Rattle.record.specs.declared.Record.{Record};
ghost use Rattle.desk.specs.Desk.{state_of, Does, Judges};

use answer::{Refusal, Values};
use broker::link::Backlog;
use desk::Desk;
use roster_read::{link_between, standing_of};
use roster_write::awaiting;
use transit::{Place, Rank, Value};
use transit_find::first_at;
use transit_relabel::relabel_first;
use verdict::{Verdict, migrating, refuse_if, two_ranks};

#[tactic(auto, using(crate::specs::Laws::Judged::by_tests))]
pub fn drain_verdict(r: Rank, p: Rank, desk: &Desk) -> Verdict
    ensures { Judges (Record.Drain r p) (state_of desk.now) result }
{
    let mover = standing_of(r, &desk.roster);
    let peer = standing_of(p, &desk.roster);
    two_ranks(r, p, mover, peer)?;
    migrating(mover)?;
    let link = link_between(r, p, &desk.roster);
    let awaited = link.backlog;
    refuse_if(awaited.is_clear(), Refusal::NoBacklog)?;
    let found = first_at(p, r, Place::SourceChannel, &desk.mail);
    let nothing = found.is_none() && awaited.is_unheeded();
    refuse_if(nothing, Refusal::NothingToDrain)
}

// `r`'s source process reads what stands first on its channel from `p`: a message, or the end marker.
#[tactic(auto, using(crate::specs::Laws::Done::drain_marker))]
pub fn drain(r: Rank, p: Rank, desk: &mut Desk) -> Values
    requires { (r.0 < ranks) × (p.0 < ranks) }
    ensures does { Does (drain r p) (state_of desk.old) result (state_of desk.new) }
    ensures contents { desk.new.mail.contents ≡ desk.old.mail.contents }
{
    let mail = &mut desk.mail;
    match first_at(p, r, Place::SourceChannel, mail) {
        Some(m) => {
            relabel_first(p, r, Place::SourceChannel, Place::SourceList, mail);
            Values(0, m.value, m.sequence as Value)
        }
        None => {
            awaiting(r, p, Backlog::Clear, &mut desk.roster);
            Values(1, 0, 0)
        }
    }
}
