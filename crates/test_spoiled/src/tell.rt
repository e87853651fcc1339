// What a step finds of a state.
use answer::Refusal;
use broker::state::Broker;
use std::io;
use steps::step;

// The state is handed to a step at the end of an empty log, where a sound state is answered with 3 and an unsound one with 1. Either way
// the position stays, and the very state comes back.
pub fn tell(rt: &impl Print, name: &[u8], broker: Broker) -> io::Result<()> {
    let stepped = step(broker, &[], 0);
    rt.write_all(name)?;
    if stepped.broker != broker {
        return println!(rt; " changed");
    }
    match stepped.answer {
        Err(Refusal::Unsound) => println!(rt; " unsound"),
        Err(Refusal::CutShort) => println!(rt; " sound"),
        _ => Ok(()),
    }
}
