// Between the two forms of one state: the plain one, which is handed over, tested and saved, and the desk in place, on which a run works.
#![tactic(auto)]

ghost use Rattle.std.specs.Prelude.{true, false, ◌≡◌};
ghost use Rattle.broker.specs.State.{view, fresh};
ghost use Rattle.protocol.specs.Sound.{sound};
ghost use Rattle.desk.specs.Desk.{state_of};
ghost use Rattle.steps_load.specs.Held.{HoldsState, Loads};

use broker::state::Broker;
use desk::Desk;
use roster::ROSTER_LENGTH;
use soundness::is_sound;
use transit::CELLS;

// The fresh state, in place.
pub fn fresh() -> Desk
    ensures { HoldsState fresh result }
{
    let mut roster = [0u64; ROSTER_LENGTH];
    roster_load::clear(&mut roster);
    let mail = transit_load::empty([0; CELLS]);
    Desk { mail, roster }
}

// A state is tested, and where it is sound it goes into the desk that is lent; else that stays as it was.
pub fn load_into(broker: Broker, desk: &mut Desk) -> bool
    ensures tells { result ≡ sound (view broker) }
    ensures holds { result ≡ true → HoldsState (view broker) desk.new }
    ensures stays { result ≡ false → desk.new ≡ desk.old }
{
    if !is_sound(broker) {
        return false;
    }
    transit_load::load_into(&broker.transit, &mut desk.mail);
    roster_load::load(&broker, &mut desk.roster);
    true
}

// A state is tested, and where it is sound there is a desk that holds it. Where a desk is at hand, `load_into` copies less.
pub fn load(broker: Broker) -> Option<Desk>
    ensures { Loads (view broker) result }
{
    let mut desk = fresh();
    if !load_into(broker, &mut desk) {
        return None;
    }
    Some(desk)
}

// The state that a desk holds, in the room of `broker`.
pub fn unload(broker: Broker, desk: &Desk) -> Broker
    ensures { view result ≡ state_of desk.now }
{
    let room = broker.transit;
    let messages = transit_load::unload_into(room, &desk.mail);
    let mut next = roster_load::unload(broker, &desk.roster);
    next.transit = messages;
    next
}
