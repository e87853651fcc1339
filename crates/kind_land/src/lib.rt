// Land: its checks in the paper's order, and what it does where none applies. Paper 01, "The step log", kind 09.
#![tactic(auto)]

ghost use Rattle.std.specs.Prelude.{◌≡◌, ◌<◌};
ghost use Rattle.transit.specs.Message.{ranks};
ghost use Rattle.protocol.specs.Migrate.{land};
ghost use Rattle.record.specs.declared.Record.{Record};
ghost use Rattle.desk.specs.Desk.{state_of, Does, Judges};

use answer::{Refusal, Values, widened};
use broker::process::Status;
use desk::Desk;
use roster_awaits::awaits;
use roster_read::standing_of;
use roster_write::set_standing;
use transit::{Place, Rank};
use transit_count::count_to;
use transit_relabel::relabel_mail_to;
use verdict::{Verdict, migrating, one_rank, refuse_if};

#[tactic(auto, using(crate::specs::Laws::Judged::by_tests))]
pub fn land_verdict(r: Rank, desk: &Desk) -> Verdict
    ensures { Judges (Record.Land r) (state_of desk.now) result }
{
    let standing = standing_of(r, &desk.roster);
    one_rank(r, standing)?;
    migrating(standing)?;
    let awaited = awaits(r, &desk.roster);
    refuse_if(awaited != 0, Refusal::BacklogLeft)
}

// `r`'s target process runs, and has what the source process had read.
pub fn land(r: Rank, desk: &mut Desk) -> Values
    requires { r.0 < ranks }
    ensures does { Does (land r) (state_of desk.old) result (state_of desk.new) }
    ensures contents { desk.new.mail.contents ≡ desk.old.mail.contents }
{
    let target = standing_of(r, &desk.roster).endpoint();
    relabel_mail_to(r, Place::SourceList, Place::EndList, &mut desk.mail);
    set_standing(r, Status::Running(target), &mut desk.roster);
    let listed = count_to(r, Place::EndList, &desk.mail.slots);
    Values(widened(listed), 0, 0)
}
