// Prints the run of the log on standard input. The calls that read and write are here, and what is done with them is up to the libraries:
// what to hand over, whether to read on, whether to stop and what to say. Paper 01, "The printed run".
#![tactic(auto)]

use replay_course::take_turn;
use replay_stage::words::words;
use replay_stage::{BUFFER_LENGTH, Then, after_write, begun, take_in};
use std::io::Read;
use steps_load::fresh;

fn main(rt: HostRuntime) {
    let mut buffer = [0u8; BUFFER_LENGTH];
    let mut page = [0u8; BUFFER_LENGTH];
    let mut desk = fresh();
    let mut stage = begun();
    loop {
        let then = stage.then;
        match then {
            Then::Turn => {
                let turned = take_turn(stage, &mut buffer, &mut page, &mut desk);
                let used = turned.used;
                let wrote = rt.write_all(&page[..used]).is_ok();
                stage = after_write(turned, wrote);
            }
            Then::Read => {
                let held = stage.held;
                let got = rt.stdin().read(&mut buffer[held..]);
                stage = take_in(stage, got, &buffer[held..]);
            }
            Then::Stop(why) => {
                let said = words(why, &mut page);
                let _ = rt.stderr().write_all(&page[..said]);
                return;
            }
        }
    }
}
