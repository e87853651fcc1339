// A panel maker's first program: a fresh state, a log, a step for each of its records, and what each was answered.
#![tactic(auto)]

use answer::{Values, number_of, values_of};
use broker::state::Broker;
use std::io;
use steps::step;

// The log has the records start 0 0, start 1 1, call 0 1, route 0 1, send 0 1 500, take 1 0 and land 1. Printed of each answer are its
// number, 0 where the step is accepted, and its first value.
fn main(rt: HostRuntime) -> io::Result<()> {
    let log =
        b"\x01\x00\x00\x01\x01\x01\x02\x00\x01\x03\x00\x01\x04\x00\x01\xF4\x01\x00\x00\x05\x01\x00\x09\x01";
    let mut broker = Broker::fresh();
    let mut at: usize = 0;
    while at < log.len() {
        let done = step(broker, log, at);
        let Values(first, _, _) = values_of(done.answer);
        println!(rt; "{} {first}", number_of(done.answer))?;
        if done.next <= at {
            break;
        }
        broker = done.broker;
        at = done.next;
    }
    Ok(())
}
