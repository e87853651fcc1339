// A program that writes a made-up pass: `made_up SEED COUNT` writes the log of COUNT records from SEED to standard output. Only the calls
// that take the arguments and write are here: what is made, what is next and what is said is up to the libraries. Paper 02, change 1.
#![tactic(auto)]

ghost use Rattle.std.specs.Prelude.{◌≤◌, length};
ghost use Rattle.made_up_pass.specs.Ending.{Ends};
ghost use Rattle.made_up_pass.specs.Piece.{piece_room};

mod given;

use given::{ARGUMENT_LENGTH, BUFFER_LENGTH, argument_count, take_argument};
use made_up_pass::{Ending, bytes_of, next_of, next_piece, no_piece, put_ending};
use made_up_plan::{COUNT_AT, SEED_AT, plan_of};
use made_up_problem::put_problem;
use std::ops::ControlFlow;

// Writes the log of so many records from a seed to standard output.
fn write_pass(rt: &impl Print, seed: u32, count: u64, buffer: &mut [u8]) -> Ending
    requires { piece_room ≤ length buffer.old }
    ensures { Ends seed count result }
{
    let mut piece = no_piece(seed, count);
    loop {
        let made = next_piece(piece, buffer);
        let written = rt.write_all(&buffer[..bytes_of(made)]).is_ok();
        match next_of(made, written) {
            ControlFlow::Continue(next) => {
                piece = next;
            }
            ControlFlow::Break(ending) => {
                return ending;
            }
        }
    }
}

fn main(rt: HostRuntime) {
    let mut seed = [0u8; ARGUMENT_LENGTH];
    let mut count = [0u8; ARGUMENT_LENGTH];
    let plan = plan_of(
        argument_count(&rt),
        take_argument(&rt, SEED_AT, &mut seed),
        take_argument(&rt, COUNT_AT, &mut count),
    );
    let mut buffer = [0u8; BUFFER_LENGTH];
    let said = match plan {
        Ok(pass) => {
            let ending = write_pass(&rt, pass.seed, pass.count, &mut buffer);
            put_ending(&mut buffer, ending)
        }
        Err(problem) => put_problem(&mut buffer, problem),
    };
    let _ = rt.stderr().write_all(&buffer[..said]);
}
