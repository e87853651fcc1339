// A turn of the program `replay`, and where it leaves the program. Paper 01, "The printed run".
#![tactic(auto)]

ghost use Rattle.std.specs.Prelude.{◌≤◌, length};
ghost use Rattle.desk.specs.Desk.{state_of};
ghost use Rattle.print_last.specs.Last.{ending_room};
ghost use Rattle.print_turn.specs.Turn.{buffer_room};
ghost use Rattle.replay_course.specs.Advances.{Advances};

use desk::Desk;
use print_turn::turn;
use replay_stage::{Stage, then_of};

// Takes a turn. What the page then shows is to be written.
pub fn take_turn(before: Stage, buffer: &mut [u8], page: &mut [u8], desk: &mut Desk) -> Stage
    requires { (before.held ≤ length buffer.old) × (length buffer.old ≤ buffer_room) × (ending_room ≤ length page.old) }
    ensures { Advances (state_of desk.old) buffer.old before (length page.old)
        (state_of desk.new) buffer.new result page.new }
{
    let held = before.held;
    let base = before.base;
    let done = before.done;
    let turned = turn(buffer, held, base, done, page, desk);
    let next = turned.next;
    let then = then_of(next);
    Stage {
        held: turned.held,
        base: turned.base,
        done,
        used: turned.used,
        then,
    }
}
