// A step in place: for those who get one record at a time and keep the desk between steps.
#![tactic(auto)]

ghost use Rattle.answer.specs.Answer.{NeverEighteen};
ghost use Rattle.steps_in_place.specs.InPlace.{StepsInPlace};

use answer::{Answer, Refusal};
use desk::Desk;
use record::decode::decode;
use settle::settle;

// What a step of a lent state gives: the answer, and the next position.
#[derive(Clone, Copy)]
pub struct Reply {
    pub answer: Answer,
    pub next: usize,
}

// The record at a position of a log is settled. Soundness is not tested: a sound state stays sound.
pub fn step_in_place(log: &[u8], at: usize, desk: &mut Desk) -> Reply
    ensures steps_in_place { StepsInPlace log.now at desk.old result desk.new }
    ensures never_eighteen { NeverEighteen result.answer }
{
    match decode(log, at) {
        Ok((read, next)) => {
            let answer = settle(read, desk);
            Reply { answer, next }
        }
        Err(fault) => Reply {
            answer: Err(Refusal::from(fault)),
            next: at,
        },
    }
}
