// The verdict on a record, by its kind: the first check that applies. Paper 01, "Where each step is checked".
#![tactic(auto)]

ghost use Rattle.desk.specs.Desk.{state_of, Judges};

use desk::Desk;
use record::Record;
use verdict::Verdict;

// One arm a kind: what maps kinds to closures or trait objects would have the same twelve arms.
pub fn judge(read: Record, desk: &Desk) -> Verdict
    ensures { Judges read (state_of desk.now) result }
{
    match read {
        Record::Start(r, host) => kind_start::start_verdict(r, host, desk),
        Record::Call(a, b) => kind_call::call_verdict(a, b, desk),
        Record::Route(a, b) => kind_route::route_verdict(a, b, desk),
        Record::Send(a, b, _) => kind_send::send_verdict(a, b, desk),
        Record::Take(b, a) => kind_take::take_verdict(b, a, desk),
        Record::Move(r, host) => kind_move::move_verdict(r, host, &desk.roster),
        Record::Heed(b, r) => kind_heed::heed_verdict(b, r, desk),
        Record::Drain(r, p) => kind_drain::drain_verdict(r, p, desk),
        Record::Land(r) => kind_land::land_verdict(r, desk),
        Record::Part(a, b) => kind_part::part_verdict(a, b, desk),
        Record::End(r) => kind_end::end_verdict(r, desk),
        Record::Look(r) => kind_look::look_verdict(r, desk),
    }
}
