// A panel maker's program that keeps the desk in place between steps, as one does who gets a record at a time: the fresh state in place, a
// step in place for each record of a log, and at the end the state by value.
#![tactic(auto)]

use answer::{number_of, values_of};
use broker::state::Broker;
use std::io;
use steps_in_place::step_in_place;
use steps_load::{fresh, unload};

// The answer's number, 0 where the step is accepted, and its first value.
fn tell(rt: &impl Print, number: u8, value: u64) -> io::Result<()> {
    println!(rt; "{number} {value}")
}

// The log has the records start 0 0, start 1 1, call 0 1, route 0 1, send 0 1 500, send 0 1 501 and take 1 0.
fn main(rt: HostRuntime) -> io::Result<()> {
    let log =
        b"\x01\x00\x00\x01\x01\x01\x02\x00\x01\x03\x00\x01\x04\x00\x01\xF4\x01\x00\x00\x04\x00\x01\xF5\x01\x00\x00\x05\x01\x00";
    let mut desk = fresh();
    let mut at: usize = 0;
    while at < log.len() {
        let reply = step_in_place(log, at, &mut desk);
        let answer = reply.answer;
        let values = values_of(answer);
        tell(&rt, number_of(answer), values.0 as u64)?;
        let next = reply.next;
        if next <= at {
            break;
        }
        at = next;
    }
    let broker = unload(Broker::fresh(), &desk);
    let count = broker.transit.count;
    println!(rt; "{count} unread")
}
