// Take: its checks in the paper's order, and what it does where none applies. Paper 01, "The step log", kind 05; paper 02, change 4.
#![tactic(auto)]

ghost use Rattle.std.specs.Prelude.{true, ◌≡◌, List, ℕ, ◌<◌};
ghost use Rattle.base.specs.Lists.{tally};
ghost use Rattle.transit.specs.InPlace.{messages, unread};
ghost use Rattle.transit.specs.Message.{between, ranks};
ghost use Rattle.protocol.specs.Messages.{take};
ghost use Rattle.protocol.specs.Sound.{sound};
ghost use Rattle.broker.specs.State.{with_unread};
ghost use Rattle.record.specs.declared.Record.{Record};
ghost use Rattle.roster.specs.Roster.{ranks_of};
ghost use Rattle.desk.specs.Desk.{state_of, Does, Judges};

use answer::{Refusal, Values, widened};
use desk::Desk;
use roster_read::standing_of;
use transit::{Rank, Value};
use transit_count::unread_between;
use transit_remove::remove;
use verdict::{Verdict, refuse_if, running, two_ranks};

#[tactic(auto, using(crate::specs::Laws::Judged::by_tests))]
pub fn take_verdict(b: Rank, a: Rank, desk: &Desk) -> Verdict
    ensures { Judges (Record.Take b a) (state_of desk.now) result }
{
    let receiver = standing_of(b, &desk.roster);
    let sender = standing_of(a, &desk.roster);
    two_ranks(b, a, receiver, sender)?;
    running(receiver)?;
    let unread = unread_between(a, b, &desk.mail.slots);
    refuse_if(unread == 0, Refusal::NothingUnread)
}

// The first message from `a` to `b` leaves. Whatever is known of the ranks: where some roster makes the desk sound, it is the first in
// the order of places too, which the definition goes by.
pub fn take(b: Rank, a: Rank, desk: &mut Desk) -> Values
    requires a_lt_ranks { (a.0 < ranks) × (b.0 < ranks) }
    requires nonzero { 0 < tally (between a b) (messages desk.old.mail) }
    ensures does { (roster : List ℕ) →
        let known = ranks_of roster in
        let before = with_unread (unread desk.old.mail) known in
        sound before ≡ true → Does (take b a) before result (with_unread (unread desk.new.mail) known) }
    ensures contents { desk.new.mail.contents ≡ desk.old.mail.contents }
    ensures roster { desk.new.roster ≡ desk.old.roster }
{
    let (m, left) = remove(a, b, &mut desk.mail);
    Values(m.value, widened(left), m.sequence as Value)
}
