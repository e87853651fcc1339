// The panel maker's program with a step of a lent state: the state stands in a variable, which is lent to the step.
#![tactic(auto)]

ghost use Rattle.std.specs.Prelude.{◌≡◌};
ghost use Rattle.answer.specs.Answer.{NeverEighteen};
ghost use Rattle.broker.specs.State.{view};
ghost use Rattle.protocol.specs.Step.{step};
ghost use Rattle.steps.specs.Outcome.{outcome, RefusalKeeps};

use answer::{Values, number_of, values_of};
use broker::state::Broker;
use std::io;
use steps::Outcome;
use steps_lent::step_lent;

// The state is lent to the step, and then handed back.
fn step_by_lending(mut broker: Broker, log: &[u8], at: usize) -> Outcome
    ensures result_value { outcome result ≡ step (view broker) log.now at }
    ensures refused_unchanged { RefusalKeeps result.answer broker result.broker }
    ensures never_eighteen { NeverEighteen result.answer }
{
    let reply = step_lent(&mut broker, log, at);
    Outcome {
        broker,
        answer: reply.answer,
        next: reply.next,
    }
}

// The log has the records start 0 0, start 1 1, call 0 1, route 0 1, send 0 1 500, take 1 0 and land 1. Printed of each answer are its
// number, 0 where the step is accepted, and its first value.
fn main(rt: HostRuntime) -> io::Result<()> {
    let log =
        b"\x01\x00\x00\x01\x01\x01\x02\x00\x01\x03\x00\x01\x04\x00\x01\xF4\x01\x00\x00\x05\x01\x00\x09\x01";
    let mut broker = Broker::fresh();
    let mut at: usize = 0;
    while at < log.len() {
        let done = step_by_lending(broker, log, at);
        let Values(first, _, _) = values_of(done.answer);
        println!(rt; "{} {first}", number_of(done.answer))?;
        if done.next <= at {
            break;
        }
        broker = done.broker;
        at = done.next;
    }
    Ok(())
}
