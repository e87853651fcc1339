// The entries that users call, each behind a function that does nothing but call it and says in full what it promises.
#![tactic(auto)]

ghost use Rattle.std.specs.Prelude.{Some, None, true, false, List, [], ◌≡◌, ◌+◌, ◌^◌, ◌<◌, ◌≤◌, length, take, replicate};
ghost use Rattle.answer.specs.Answer.{number, NeverEighteen};
ghost use Rattle.answer.specs.declared.Refusal.{Refusal};
ghost use Rattle.broker.specs.State.{fresh, view};
ghost use Rattle.broker.specs.declared.link.Backlog.TheVariants.{Clear};
ghost use Rattle.broker.specs.declared.link.Connection.TheVariants.{Closed};
ghost use Rattle.broker.specs.declared.process.Status.TheVariants.{Unstarted};
ghost use Rattle.desk.specs.Desk.{state_of};
ghost use Rattle.desk.specs.declared.Desk.{Desk};
ghost use Rattle.print_piece.specs.declared.Stop.TheVariants.{PageFull, KindUnknown, RecordCut};
ghost use Rattle.print_run.specs.Printed.{lines_of};
ghost use Rattle.print_run.specs.Run.{Answered};
ghost use Rattle.print_run.specs.Wholes.{wholes};
ghost use Rattle.protocol.specs.Sound.{sound};
ghost use Rattle.protocol.specs.Step.{step};
ghost use Rattle.promises.specs.Entries.{ExactStep, EachAnswer, Makes, TurnOfARun};
ghost use Rattle.record.specs.Record.{decode};
ghost use Rattle.record.specs.declared.Fault.TheVariants.{Unknown, Cut};
ghost use Rattle.steps.specs.Outcome.{outcome, RefusalKeeps};

use broker::state::Broker;
use desk::Desk;
use generator::{Made, Word, go_on, made_up};
use print_piece::{Stopped, run_piece};
use print_turn::{Turned, turn};
use soundness::is_sound;
use steps::{Outcome, step};
use steps_in_place::{Reply, step_in_place};
use steps_lent::step_lent;
use steps_load::{load, load_into, unload};

// "A fresh desk has no rank started, no messages, no numbers drawn, and table entries 0.0 (host 0, number 0: unknown)."
pub fn fresh_desk() -> Broker
    ensures { view result ≡ record {
      processes = replicate 16 (record { status = Unstarted; request = None });
      locations = replicate 256 (record { 0 = 0; 1 = 0 });
      links = replicate 256 (record { connection = Closed; backlog = Clear });
      drawn = replicate 8 0;
      unread = record { messages = []; count = 0; sent = replicate 256 0 };
    } }
{
    Broker::fresh()
}

// Demands 1 and 2, by value: of any state, any log and any position. A refusal gives back the very state, its unused message slots too.
pub fn step_of_a_state(broker: Broker, log: &[u8], at: usize) -> Outcome
    ensures exact { ExactStep (view broker) log.now at result.answer result.next (view result.broker) }
    ensures refused_unchanged { (n : Refusal) → result.answer ≡ Err n → result.broker ≡ broker }
    ensures never_eighteen { number result.answer ≡ 18 → ⊥ }
{
    step(broker, log, at)
}

// The state is lent to the step, and then handed back.
fn step_by_lending(mut broker: Broker, log: &[u8], at: usize) -> Outcome
    ensures result_value { outcome result ≡ step (view broker) log.now at }
    ensures refused_unchanged { RefusalKeeps result.answer broker result.broker }
    ensures never_eighteen { NeverEighteen result.answer }
{
    let reply = step_lent(&mut broker, log, at);
    Outcome {
        broker,
        answer: reply.answer,
        next: reply.next,
    }
}

// The same of a state that is lent: "A refusal leaves the state lent for a step unchanged".
pub fn step_of_a_lent_state(broker: Broker, log: &[u8], at: usize) -> Outcome
    ensures exact { ExactStep (view broker) log.now at result.answer result.next (view result.broker) }
    ensures refused_unchanged { (n : Refusal) → result.answer ≡ Err n → result.broker ≡ broker }
    ensures never_eighteen { number result.answer ≡ 18 → ⊥ }
{
    step_by_lending(broker, log, at)
}

// "A state is sound when all of these hold."
pub fn soundness_of_a_state(broker: Broker) -> bool
    ensures { result ≡ sound (view broker) }
{
    is_sound(broker)
}

// The fresh state, in place.
pub fn fresh_in_place() -> Desk
    ensures { state_of result ≡ fresh }
{
    steps_load::fresh()
}

// A state that is handed over: where it is sound there is a desk that holds it, and else there is none.
pub fn state_into_place(broker: Broker) -> Option<Desk>
    ensures refused { result ≡ None → sound (view broker) ≡ false }
    ensures tells { (d : Desk) → result ≡ Some d → sound (view broker) ≡ true }
    ensures holds { (d : Desk) → result ≡ Some d → state_of d ≡ view broker }
{
    load(broker)
}

// The same into a desk that is lent: whether the state is sound, and where it is the desk holds it; else the desk stays as it was.
pub fn state_into_a_lent_desk(broker: Broker, desk: &mut Desk) -> bool
    ensures tells { result ≡ sound (view broker) }
    ensures holds { result ≡ true → state_of desk.new ≡ view broker }
    ensures stays { result ≡ false → desk.new ≡ desk.old }
{
    load_into(broker, desk)
}

// The state that a desk holds, handed back.
pub fn state_out_of_place(broker: Broker, desk: &Desk) -> Broker
    ensures { view result ≡ state_of desk.now }
{
    unload(broker, desk)
}

// Demand 2 in place, where the desk holds a sound state.
pub fn step_of_a_desk(log: &[u8], at: usize, desk: &mut Desk) -> Reply
    ensures exact { sound (state_of desk.old) ≡ true →
        ExactStep (state_of desk.old) log.now at result.answer result.next (state_of desk.new) }
    ensures never_eighteen { number result.answer ≡ 18 → ⊥ }
{
    step_in_place(log, at, desk)
}

// The whole records of a piece of the input, while the page has room for another line. Where the desk held a sound state, the state, the
// position and the lines are those of so many records by the definition.
pub fn piece_of_a_run(piece: &[u8], base: u64, page: &mut [u8], desk: &mut Desk) -> Stopped
    requires { base + length piece.now < 2 ^ 64 }
    ensures ran { (answers : List Answered) × (take result.used page.new ≡ lines_of answers) ×
        EachAnswer (λ a. number a ≡ 18 → ⊥) answers ×
        (sound (state_of desk.old) ≡ true →
        (length answers ≡ result.steps) ×
        (record { state = state_of desk.new; at = result.at; answers = answers } ≡
        wholes base result.steps (state_of desk.old) piece.now 0)) }
    ensures inside { (result.at ≤ length piece.now) × (result.used ≤ length page.new) }
    ensures room { length page.new ≡ length page.old }
    ensures page_full { result.stop ≡ PageFull → length page.old < result.used + 108 }
    ensures kind_unknown { result.stop ≡ KindUnknown → decode piece.now result.at ≡ Err Unknown }
    ensures record_cut { result.stop ≡ RecordCut → decode piece.now result.at ≡ Err Cut }
{
    run_piece(piece, base, page, desk)
}

// A turn of a program that reads its input through a buffer of at most 65,536 bytes, on a page that has room for the end of a run.
pub fn turn_of_a_run(
    buffer: &mut [u8],
    held: usize,
    base: u64,
    done: bool,
    page: &mut [u8],
    desk: &mut Desk,
) -> Turned
    requires { (held ≤ length buffer.old) × (length buffer.old ≤ 65536) × (33648 ≤ length page.old) }
    ensures turns { TurnOfARun (state_of desk.old) (take held buffer.old) base done (state_of desk.new)
        (take result.held buffer.new) result page.new }
    ensures exact { (result.base + result.held ≡ base + held) × (result.held ≤ held) × (result.used ≤ length page.new) }
    ensures room { (length buffer.new ≡ length buffer.old) ×
        (length page.new ≡ length page.old) }
{
    turn(buffer, held, base, done, page, desk)
}

// Paper 02, change 1: "Write a log of n records into a lent buffer .. Checks: 26 for seed zero, then 27 for a buffer shorter than 7 times n
// bytes; neither writes a byte."
pub fn made_up_log(seed: u32, n: usize, buffer: &mut [u8]) -> Made
    ensures { Makes seed n buffer.old result buffer.new }
{
    made_up(seed, n, buffer)
}

// The same from the word that an earlier part of the log left.
pub fn made_up_log_goes_on(word: Word, n: usize, buffer: &mut [u8]) -> Made
    ensures { Makes word.0 n buffer.old result buffer.new }
{
    go_on(word, n, buffer)
}
