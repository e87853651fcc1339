// Counts the answers to the log on standard input by their numbers, and prints each number that came with its count.
#![tactic(auto)]

use answer::number_of;
use broker::state::Broker;
use std::io;
use std::io::{Cursor, Read};
use steps::step;

// The numbers of an answer: 0 where the step is accepted, and the refusals up to 28.
const NUMBERS: usize = 29;

// So many bytes of a log are read.
const ROOM: usize = 65536;

// The log is read as far as the room goes, and up to a read that fails. No number is above 28: the test in the loop spares the proof of
// that.
fn main(rt: HostRuntime) -> io::Result<()> {
    let mut room = Cursor::new([0u8; ROOM]);
    let _ = io::copy(&mut rt.stdin().take(ROOM as u64), &mut room);
    let end = (room.position() as usize).min(ROOM);
    let log = &room.get_ref()[..end];
    if end == ROOM {
        eprintln!(rt; "example_tally: the log is cut at 65,536 bytes")?;
    }
    let mut counts = [0u32; NUMBERS];
    let mut broker = Broker::fresh();
    let mut at: usize = 0;
    while at < log.len() {
        let done = step(broker, log, at);
        let number = number_of(done.answer) as usize;
        if number < NUMBERS {
            counts[number] = counts[number].saturating_add(1);
        }
        if done.next <= at {
            break;
        }
        broker = done.broker;
        at = done.next;
    }
    for (number, count) in counts.iter().enumerate() {
        if 0 < *count {
            println!(rt; "{number} {count}")?;
        }
    }
    Ok(())
}
