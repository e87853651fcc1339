// A program that hands in states to which only a log of some 43 billion bytes leads: rank 0 has sent rank 1 all but one of 4,294,967,295
// messages; and every pair has sent all of them, where each other check of a send applies too. Paper 02, change 4: "28 for a send when the
// pair has already sent 4,294,967,295, tested after 25".
#![tactic(auto)]

use answer::{Values, number_of, values_of};
use broker::state::Broker;
use std::io;
use steps::step;
use transit::Transit;

// Where the count stands of what rank 0 has sent to rank 1.
const PAIR: usize = 1;

// The state with one message left that rank 0 can send to rank 1.
fn all_but_one(mut broker: Broker) -> Broker {
    broker.transit.sent[PAIR] = Transit::MOST_SENT - 1;
    broker
}

// The state in which every pair has sent all that it can.
fn all_sent(mut broker: Broker) -> Broker {
    broker.transit.sent.fill(Transit::MOST_SENT);
    broker
}

// The state in which rank 0 has sent rank 1 as many messages as the desk holds.
fn full(mut broker: Broker) -> Broker {
    for _ in 0..Transit::LIMIT {
        broker = step(broker, b"\x04\x00\x01\xF4\x01\x00\x00", 0).broker;
    }
    broker
}

// Every record of a log, from a state: what each is answered, its number, 0 where the step is accepted, and its values; and the state
// afterwards.
fn run(rt: &impl Print, mut broker: Broker, log: &[u8]) -> io::Result<Broker> {
    let mut at: usize = 0;
    while at < log.len() {
        let done = step(broker, log, at);
        let Values(first, second, third) = values_of(done.answer);
        println!(rt; "{} {first} {second} {third}", number_of(done.answer))?;
        if done.next <= at {
            return Ok(broker);
        }
        broker = done.broker;
        at = done.next;
    }
    Ok(broker)
}

// Ranks 0 and 1 are joined, by start 0 0, start 1 1, call 0 1 and route 0 1. Then come send 0 1 500, send 0 1 501, send 1 0 502, take 1 0
// and send 0 1 503. With every pair spent, behind start 2 2, start 3 3, end 2 and move 3 4, come sends of 500: 0 0, 4 0, 2 0, 3 0, 0 2 and
// 0 1, and once more 0 1 where the desk is full.
fn main(rt: HostRuntime) -> io::Result<()> {
    let connected = run(
        &rt,
        Broker::fresh(),
        b"\x01\x00\x00\x01\x01\x01\x02\x00\x01\x03\x00\x01",
    )?;
    let broker = run(
        &rt,
        all_but_one(connected),
        b"\x04\x00\x01\xF4\x01\x00\x00\x04\x00\x01\xF5\x01\x00\x00\x04\x01\x00\xF6\x01\x00\x00\x05\x01\x00\x04\x00\x01\xF7\x01\x00\x00",
    )?;
    println!(rt; "{} sent", broker.transit.sent[PAIR])?;
    let crowd = run(
        &rt,
        connected,
        b"\x01\x02\x02\x01\x03\x03\x0B\x02\x06\x03\x04",
    )?;
    run(
        &rt,
        all_sent(crowd),
        b"\x04\x00\x00\xF4\x01\x00\x00\x04\x04\x00\xF4\x01\x00\x00\x04\x02\x00\xF4\x01\x00\x00\x04\x03\x00\xF4\x01\x00\x00",
    )?;
    run(
        &rt,
        all_sent(crowd),
        b"\x04\x00\x02\xF4\x01\x00\x00\x04\x00\x01\xF4\x01\x00\x00",
    )?;
    run(
        &rt,
        all_sent(full(connected)),
        b"\x04\x00\x01\xF4\x01\x00\x00",
    )?;
    Ok(())
}
