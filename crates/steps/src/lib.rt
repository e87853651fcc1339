// A step of the log: the record at a position is decoded, checked and applied. Paper 01, "The step log" and "Where each step is checked".
#![tactic(auto)]

ghost use Rattle.std.specs.Prelude.{◌≡◌};
ghost use Rattle.answer.specs.Answer.{NeverEighteen};
ghost use Rattle.broker.specs.State.{view};
ghost use Rattle.protocol.specs.Step.{step};
ghost use Rattle.steps.specs.Outcome.{outcome, RefusalKeeps};

use answer::{Answer, Refusal};
use broker::state::Broker;
use steps_in_place::{Reply, step_in_place};
use steps_load::{fresh, load_into, unload};

// All of a step's outcome: the state afterwards, the answer, and the next position.
#[derive(Clone, Copy)]
pub struct Outcome {
    pub broker: Broker,
    pub answer: Answer,
    pub next: usize,
}

// A step of any state, sound or spoiled. A refusal gives back the very state: its unused message slots too. Paper 02, change 2: no input
// meets 18.
pub fn step(broker: Broker, log: &[u8], at: usize) -> Outcome
    ensures result_value { outcome result ≡ step (view broker) log.now at }
    ensures refused_unchanged { RefusalKeeps result.answer broker result.broker }
    ensures never_eighteen { NeverEighteen result.answer }
{
    let mut desk = fresh();
    if !load_into(broker, &mut desk) {
        return Outcome {
            broker,
            answer: Err(Refusal::Unsound),
            next: at,
        };
    }
    let Reply { answer, next } = step_in_place(log, at, &mut desk);
    match answer {
        Err(_) => Outcome {
            broker,
            answer,
            next,
        },
        Ok(_) => {
            let after = unload(broker, &desk);
            Outcome {
                broker: after,
                answer,
                next,
            }
        }
    }
}
