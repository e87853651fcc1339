// Makes one call of the library many times on one state, so that its time can be measured. Standard input has a byte that says which call,
// four bytes, least significant first, that say how often, and a log that leads from the fresh state to the one that is used. What the
// calls answered is added up and printed, so that none of them can be left out.
#![tactic(auto)]

ghost use Rattle.std.specs.Prelude.{◌≡◌};
ghost use Rattle.answer.specs.Answer.{NeverEighteen};
ghost use Rattle.broker.specs.State.{view};
ghost use Rattle.protocol.specs.Step.{step};
ghost use Rattle.steps.specs.Outcome.{outcome, RefusalKeeps};

use answer::{Answer, number_of, values_of};
use broker::state::Broker;
use desk::Desk;
use soundness::is_sound;
use std::io;
use std::io::{Cursor, Read};
use steps::{Outcome, step};
use steps_in_place::{Reply, step_in_place};
use steps_lent::step_lent;
use steps_load::{fresh, unload};

// The call that is made, by the byte that asks for it.
#[derive(Clone, Copy, PartialEq, Eq)]
enum Call {
    // A step by value.
    ByValue,
    // A step of a lent state.
    Lent,
    // A test of soundness.
    Tested,
    // A step in place.
    InPlace,
}

impl TryFrom<u8> for Call {
    type Error = ();

    fn try_from(byte: u8) -> Result<Call, ()> {
        match byte {
            1 => Ok(Call::ByValue),
            2 => Ok(Call::Lent),
            3 => Ok(Call::Tested),
            4 => Ok(Call::InPlace),
            _ => Err(()),
        }
    }
}

// So many bytes of the input are read.
const ROOM: usize = 65536;

// The log is run in place, up to where no record stands.
fn lead(log: &[u8], desk: &mut Desk) {
    let mut at: usize = 0;
    while at < log.len() {
        let done = step_in_place(log, at, desk);
        if done.next <= at {
            return;
        }
        at = done.next;
    }
}

// The answer's number and its first value, together.
fn told(answer: Answer) -> u64 {
    let values = values_of(answer);
    (number_of(answer) as u64).wrapping_add(values.0 as u64)
}

// A step by lending: the state is lent to the step, and then handed back.
fn step_by_lending(mut broker: Broker, log: &[u8], at: usize) -> Outcome
    ensures result_value { outcome result ≡ step (view broker) log.now at }
    ensures refused_unchanged { RefusalKeeps result.answer broker result.broker }
    ensures never_eighteen { NeverEighteen result.answer }
{
    let Reply { answer, next } = step_lent(&mut broker, log, at);
    Outcome {
        broker,
        answer,
        next,
    }
}

// Steps, each a look of rank 0, which leaves the state as it is.
fn looks<F: Fn(Broker, &[u8], usize) -> Outcome>(step: F, mut broker: Broker, times: u32) -> u64
    requires { F.IsAlwaysCallable step }
{
    let mut sum: u64 = 0;
    for _ in 0..times {
        let done = step(broker, b"\x0C\x00", 0);
        broker = done.broker;
        sum = sum.wrapping_add(told(done.answer));
    }
    sum
}

// The same looks, in place.
fn looks_in_place(times: u32, desk: &mut Desk) -> u64 {
    let mut sum: u64 = 0;
    for _ in 0..times {
        let done = step_in_place(b"\x0C\x00", 0, desk);
        sum = sum.wrapping_add(told(done.answer));
    }
    sum
}

// Tests of soundness: how many found the state sound.
fn tests(broker: Broker, times: u32) -> u64 {
    let mut sum: u64 = 0;
    for _ in 0..times {
        sum = sum.wrapping_add(is_sound(broker) as u64);
    }
    sum
}

// A byte that asks for none of the calls has only the log run.
fn main(rt: HostRuntime) -> io::Result<()> {
    let mut room = Cursor::new([0u8; ROOM]);
    let _ = io::copy(&mut rt.stdin().take(ROOM as u64), &mut room);
    let end = (room.position() as usize).min(ROOM);
    let [call, t0, t1, t2, t3, log @ ..] = &room.get_ref()[..end] else {
        return Ok(());
    };
    let times = u32::from_le_bytes([*t0, *t1, *t2, *t3]);
    let mut desk = fresh();
    lead(log, &mut desk);
    let broker = unload(Broker::fresh(), &desk);
    let sum = match Call::try_from(*call) {
        Ok(Call::ByValue) => looks(step, broker, times),
        Ok(Call::Lent) => looks(step_by_lending, broker, times),
        Ok(Call::Tested) => tests(broker, times),
        Ok(Call::InPlace) => looks_in_place(times, &mut desk),
        Err(()) => 0,
    };
    println!(rt; "{sum}")
}
