// What a record does that passed its checks, by its kind. Paper 01, "The step log".
#![tactic(auto)]

ghost use Rattle.std.proofs.Math.Option.{none};
ghost use Rattle.std.specs.Prelude.{◌≡◌};
ghost use Rattle.protocol.specs.Checks.{refusal};
ghost use Rattle.protocol.specs.Step.{apply};
ghost use Rattle.desk.specs.Desk.{state_of, DeskDoes};

use answer::Values;
use desk::Desk;
use record::Record;

// One arm a kind: what maps kinds to closures or trait objects would have the same twelve arms.
#[tactic(auto, unfolding(protocol::specs::Step::apply))]
pub fn apply(read: Record, desk: &mut Desk) -> Values
    requires { refusal (state_of desk.old) read ≡ none }
    ensures { DeskDoes (apply read) desk.old result desk.new }
{
    match read {
        Record::Start(r, host) => kind_start::start(r, host, desk),
        Record::Call(a, b) => kind_call::call(a, b, desk),
        Record::Route(a, b) => kind_route::route(a, b, desk),
        Record::Send(a, b, value) => kind_send::send(a, b, value, desk),
        Record::Take(b, a) => kind_take::take(b, a, desk),
        Record::Move(r, host) => {
            let mail = &mut desk.mail;
            kind_move::move_to(r, host, &mut mail.slots, &mut desk.roster)
        }
        Record::Heed(b, r) => kind_heed::heed(b, r, desk),
        Record::Drain(r, p) => kind_drain::drain(r, p, desk),
        Record::Land(r) => kind_land::land(r, desk),
        Record::Part(a, b) => kind_part::part(a, b, desk),
        Record::End(r) => kind_end::end(r, desk),
        Record::Look(r) => kind_look::look(r, desk),
    }
}
