// A turn of a program that reads its input through a buffer and writes what a page shows: only the two calls are outside.
// Paper 01, "The printed run".
#![tactic(auto)]

ghost use Rattle.std.specs.Prelude.{◌≡◌, ◌≤◌, length};
ghost use Rattle.desk.specs.Desk.{state_of};
ghost use Rattle.print_last.specs.Last.{ending_room};
ghost use Rattle.print_turn.specs.Turn.{next_of, buffer_room, Turns};

use desk::Desk;
use print_buffer::keep_rest;
use print_ending::run_end;
use print_page::Page;
use print_piece::{Stop, run_piece};

// What a program does when it has written what the page shows.
#[derive(Clone, Copy)]
pub enum Next {
    // Another turn: the page had no room for more.
    Again,
    // It reads more of the input, behind what is held, and then takes another turn.
    Read,
    // Nothing: the run is over.
    End,
    // It says that the input is too long: a position could pass 64 bits.
    TooLong,
}

// What a turn comes to: how many bytes are held at the buffer's front, where they begin in the input, how much of the page is used, and
// what is next.
#[derive(Clone, Copy)]
pub struct Turned {
    pub held: usize,
    pub base: u64,
    pub used: usize,
    pub next: Next,
}

// Nothing is run from here on.
const FARTHEST: u64 = 9223372036854775808;

// The most bytes that the end of a run takes.
const ENDING: usize = 33648;

// What is next behind a piece.
fn next_of(stop: Stop, done: bool) -> Next
    ensures { result ≡ next_of stop done }
{
    match stop {
        Stop::PageFull => Next::Again,
        Stop::KindUnknown => Next::End,
        Stop::RecordCut => {
            if done {
                return Next::End;
            }
            Next::Read
        }
    }
}

// Runs what the buffer holds, whose first byte stands at `base` in the input, and ends the run where it is over. `done` says that the
// input is at its end.
pub fn turn(
    buffer: &mut [u8],
    held: usize,
    base: u64,
    done: bool,
    page: &mut [u8],
    desk: &mut Desk,
) -> Turned
    requires { (held ≤ length buffer.old) × (length buffer.old ≤ buffer_room) × (ending_room ≤ length page.old) }
    ensures { Turns (state_of desk.old) buffer.old held base done (length page.old)
        (state_of desk.new) buffer.new result page.new }
{
    if FARTHEST <= base {
        return Turned {
            held,
            base,
            used: 0,
            next: Next::TooLong,
        };
    }
    let stopped = run_piece(&buffer[..held], base, page, desk);
    let at = stopped.at;
    let used = stopped.used;
    let stop = stopped.stop;
    let kept = keep_rest(buffer, at, held);
    let further = base + at as u64;
    let next = next_of(stop, done);
    if let Next::End = next {
        if page.len() - used < ENDING {
            return Turned {
                held: kept,
                base: further,
                used,
                next: Next::Again,
            };
        }
        let mail = &desk.mail;
        let mut shown = Page { bytes: page, used };
        run_end(&mut shown, further, &buffer[..kept], &mail.slots);
        return Turned {
            held: kept,
            base: further,
            used: shown.used,
            next: Next::End,
        };
    }
    Turned {
        held: kept,
        base: further,
        used,
        next,
    }
}
