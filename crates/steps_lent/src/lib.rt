// A step of a lent state: the state is changed in place. Paper 01, "Where each step is checked": "A refusal leaves the state lent for a
// step unchanged".
#![tactic(auto)]

ghost use Rattle.std.specs.Prelude.{◌≡◌};
ghost use Rattle.answer.specs.Answer.{NeverEighteen};
ghost use Rattle.broker.specs.State.{view};
ghost use Rattle.protocol.specs.Step.{step};
ghost use Rattle.steps_in_place.specs.InPlace.{replied};
ghost use Rattle.steps.specs.Outcome.{RefusalKeeps};

use broker::state::Broker;
use steps::step;
use steps_in_place::Reply;

// A step of a lent state, sound or spoiled. A refusal leaves it as it stood.
pub fn step_lent(broker: &mut Broker, log: &[u8], at: usize) -> Reply
    ensures broker_after { replied result (view broker.new) ≡ step (view broker.old) log.now at }
    ensures refused_unchanged { RefusalKeeps result.answer broker.old broker.new }
    ensures never_eighteen { NeverEighteen result.answer }
{
    let o = step(*broker, log, at);
    *broker = o.broker;
    Reply {
        answer: o.answer,
        next: o.next,
    }
}
