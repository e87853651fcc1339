// All links of a rank: how many awaits it has, and whether it has no line. Paper 01, "Names and places".
#![tactic(auto)]

ghost use Rattle.std.specs.Prelude.{◌≡◌};
ghost use Rattle.broker.specs.State.{awaits_of, link_at};
ghost use Rattle.broker.specs.Names.{is_closed};
ghost use Rattle.broker.specs.Ranks.{every_rank};
ghost use Rattle.roster.specs.Roster.{ranks_of};

use broker::state::Broker;
use roster::Roster;
use roster_read::link_between;
use transit::Rank;

// How many awaits of `r` are not none.
pub fn awaits(r: Rank, roster: &Roster) -> u32
    ensures { result ≡ awaits_of r (ranks_of roster.now).links }
{
    let mut n: u32 = 0;
    for i in 0..Broker::RANKS {
        if !link_between(r, Rank(i), roster).backlog.is_clear() {
            n += 1;
        }
    }
    n
}

// Whether `r` has no line.
pub fn alone(r: Rank, roster: &Roster) -> bool
    ensures { result ≡ every_rank (λ p. is_closed (link_at (ranks_of roster.now).links r p).connection) }
{
    (0..Broker::RANKS).all(|i| link_between(r, Rank(i), roster).connection.is_closed())
}
