// Where the program `replay` stands, and what it decides by what its calls gave: what a read means, what is next behind a turn and behind a
// write, and what it says as it ends. Paper 01, "The printed run".
#![tactic(auto)]

ghost use Rattle.std.specs.Prelude.{◌≡◌, ◌+◌, ◌≤◌, ◌<◌, length};
ghost use Rattle.print_turn.specs.Turn.{buffer_room};
ghost use Rattle.replay_stage.specs.Stage.{begins, given_of, taken_in, then_of, after_write};

use print_turn::Next;
use std::io;

pub mod words;

// How long the buffer is, and the page.
pub const BUFFER_LENGTH: usize = 65536;

// How the program ends.
#[derive(Clone, Copy, PartialEq, Eq)]
pub enum Ending {
    // The run is over.
    Over,
    // Standard output takes no more.
    Unwritten,
    // Standard input cannot be read.
    Unread,
    // Standard input is too long.
    TooLong,
}

// What the program does next.
#[derive(Clone, Copy, PartialEq, Eq)]
pub enum Then {
    // It takes a turn, and writes what the page shows.
    Turn,
    // It reads behind what is held.
    Read,
    // It stops.
    Stop(Ending),
}

// Where the program stands: how many bytes are held at the buffer's front, where they begin in the input, whether the input is at its
// end, how much of the page is used, and what is next.
#[derive(Clone, Copy, PartialEq, Eq)]
pub struct Stage {
    pub held: usize,
    pub base: u64,
    pub done: bool,
    pub used: usize,
    pub then: Then,
}

// Before the first call.
pub fn begun() -> Stage
    ensures { result ≡ begins }
{
    Stage {
        held: 0,
        base: 0,
        done: false,
        used: 0,
        then: Then::Turn,
    }
}

// What a read gave: so many bytes of the part of the buffer that it was lent, or nothing where it failed.
fn read_gave(got: io::Result<usize>, lent: &[u8]) -> Option<usize>
    ensures { result ≡ given_of got (length lent.now) }
{
    match got {
        Ok(count) => Some(count.min(lent.len())),
        Err(_) => None,
    }
}

// Behind a read, which was lent the buffer behind what is held. A read of no bytes is the input's end.
pub fn take_in(before: Stage, got: io::Result<usize>, lent: &[u8]) -> Stage
    requires { (0 < length lent.now) × (before.held + length lent.now ≤ buffer_room) }
    ensures { result ≡ taken_in before (given_of got (length lent.now)) }
{
    match read_gave(got, lent) {
        None => Stage {
            then: Then::Stop(Ending::Unread),
            ..before
        },
        Some(0) => Stage {
            done: true,
            then: Then::Turn,
            ..before
        },
        Some(more) => Stage {
            held: before.held + more,
            done: false,
            then: Then::Turn,
            ..before
        },
    }
}

// What the program does behind a turn.
pub fn then_of(next: Next) -> Then
    ensures { result ≡ then_of next }
{
    match next {
        Next::Again => Then::Turn,
        Next::Read => Then::Read,
        Next::End => Then::Stop(Ending::Over),
        Next::TooLong => Then::Stop(Ending::TooLong),
    }
}

// Behind a write of what the page shows.
pub fn after_write(before: Stage, wrote: bool) -> Stage
    ensures { result ≡ after_write before wrote }
{
    if wrote {
        return before;
    }
    Stage {
        then: Then::Stop(Ending::Unwritten),
        ..before
    }
}
