// The test of soundness: one pass over the ranks, one over the pairs of ranks, one over the messages. Paper 01, "Sound states".
// The parts have crates of their own. There, tests of small values are joined by `&` and `|`, which evaluate both sides: that costs less
// than a jump.
#![tactic(auto)]

ghost use Rattle.std.specs.Prelude.{◌≡◌};
ghost use Rattle.protocol.specs.Sound.{sound};
ghost use Rattle.broker.specs.State.{view};

use broker::state::Broker;
use soundness_messages::messages_sound;
use soundness_pairs::pairs_sound;
use soundness_ranks::ranks_sound;

// Whether the state is sound. It asks nothing of the state: a spoiled one is told from a sound one.
pub fn is_sound(broker: Broker) -> bool
    ensures { result ≡ sound (view broker) }
{
    let Broker {
        processes,
        locations,
        links,
        drawn,
        transit,
    } = broker;
    ranks_sound(drawn, processes, links)
        && pairs_sound(drawn, processes, locations, links)
        && messages_sound(processes, links, transit)
}
