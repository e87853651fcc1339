// Checks in turn: the first that fails decides. And the checks on names and standing, which most kinds share.
#![tactic(auto)]

ghost use Rattle.std.specs.Prelude.{◌≡◌};
ghost use Rattle.verdict.specs.Tests.{one_tests, two_tests, running_tests, migrating_tests};
ghost use Rattle.verdict.specs.Verdict.{verdict_of, or_else, passed, judged};

use answer::Refusal;
use broker::process::Status;
use broker::state::Broker;
use transit::Rank;

// No check failed, or the refusal of the first that did.
pub type Verdict = Result<(), Refusal>;

// One check.
pub fn refuse_if(fails: bool, refusal: Refusal) -> Verdict
    ensures { verdict_of result ≡ or_else passed fails refusal }
{
    if fails { Err(refusal) } else { Ok(()) }
}

// The rank named is in range and started.
pub fn one_rank(r: Rank, standing: Status) -> Verdict
    ensures { verdict_of result ≡ judged passed (one_tests r standing) }
{
    refuse_if(Broker::RANKS <= r.0, Refusal::RankRange)?;
    refuse_if(!standing.is_started(), Refusal::NotStarted)
}

// The two ranks named are in range, not one and the same, and started.
pub fn two_ranks(a: Rank, b: Rank, first: Status, second: Status) -> Verdict
    ensures { verdict_of result ≡ judged passed (two_tests a b first second) }
{
    let in_range = a.0 < Broker::RANKS && b.0 < Broker::RANKS;
    let started = first.is_started() && second.is_started();
    refuse_if(!in_range, Refusal::RankRange)?;
    refuse_if(a == b, Refusal::SameRank)?;
    refuse_if(!started, Refusal::NotStarted)
}

// The first rank, which is started, runs.
pub fn running(standing: Status) -> Verdict
    ensures { verdict_of result ≡ judged passed (running_tests standing) }
{
    refuse_if(standing.is_ended(), Refusal::HasEnded)?;
    refuse_if(standing.is_migrating(), Refusal::IsMigrating)
}

// The first rank, which is started, migrates.
pub fn migrating(standing: Status) -> Verdict
    ensures { verdict_of result ≡ judged passed (migrating_tests standing) }
{
    refuse_if(standing.is_ended(), Refusal::HasEnded)?;
    refuse_if(!standing.is_migrating(), Refusal::NotMigrating)
}
