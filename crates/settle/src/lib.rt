// A record judged, and applied only where it passes. Paper 01, "The step log" and "Where each step is checked".
#![tactic(auto)]

ghost use Rattle.settle.specs.Settles.{Settles};

use answer::Answer;
use desk::Desk;
use record::Record;
use settle_apply::apply;
use settle_judge::judge;

#[tactic(auto, unfolding(protocol::specs::Step::settle))]
pub fn settle(read: Record, desk: &mut Desk) -> Answer
    ensures { Settles read desk.old result desk.new }
{
    judge(read, desk)?;
    Ok(apply(read, desk))
}
