// A made-up pass, made piece by piece in one buffer: all that the program decides that writes it. Paper 02, change 1.
#![tactic(auto)]

ghost use Rattle.std.specs.Prelude.{◌≡◌, ◌≤◌, length};
ghost use Rattle.made_up_pass.specs.Ending.{next_of, Told, ending_room, ending_words};
ghost use Rattle.made_up_pass.specs.Piece.{no_piece, bytes_of, piece_records, piece_room, Pieced};
ghost use Rattle.made_up_pass.specs.declared.Stop.TheVariants.{Refused};
ghost use Rattle.print_page.specs.Put.{Put};

use generator::{Unmade, Word, go_on};
use print_text::put_text;
use std::ops::ControlFlow;

// Where the program stands with a piece of the pass: the bytes at the buffer's front, which are to be written, the word that they leave,
// and how many records are left.
#[derive(Clone, Copy)]
pub struct Piece {
    pub bytes: usize,
    pub word: Word,
    pub left: u64,
}

// No piece is made yet.
pub fn no_piece(seed: u32, count: u64) -> Piece
    ensures { result ≡ no_piece seed count }
{
    Piece {
        bytes: 0,
        word: Word(seed),
        left: count,
    }
}

// So many records fit into the buffer, whatever they are: 9,362 times 7 bytes are within 65,536.
const PIECE: u64 = 9362;

// The records of the next piece: as many as fit, of those that are left.
fn piece_of(left: u64) -> u64
    ensures { result ≡ piece_records left }
{
    left.min(PIECE)
}

// Makes the next piece, from the word and of the records that the one before it left.
pub fn next_piece(before: Piece, buffer: &mut [u8]) -> Result<Piece, Unmade>
    requires { piece_room ≤ length buffer.old }
    ensures { Pieced before.word.0 before.left buffer.old result buffer.new }
{
    let n = piece_of(before.left);
    let (bytes, word) = go_on(before.word, n as usize, buffer)?;
    let left = before.left - n;
    Ok(Piece { bytes, word, left })
}

// How many bytes of the buffer are to be handed to the output: those of a piece that is made, and none of a refused one.
pub fn bytes_of(made: Result<Piece, Unmade>) -> usize
    ensures { result ≡ bytes_of made }
{
    match made {
        Ok(piece) => piece.bytes,
        Err(_) => 0,
    }
}

// Why the writing of a pass stops before all of it is written.
#[derive(Clone, Copy, PartialEq, Eq)]
pub enum Stop {
    // The generator refused it.
    Refused(Unmade),
    // Standard output takes no more.
    Unwritten,
}

impl From<Unmade> for Stop {
    ghost from_gives = { λ why stop. stop ≡ Refused why };

    fn from(why: Unmade) -> Stop {
        Stop::Refused(why)
    }
}

// How the writing of a pass ends: all of it is written, or it stops.
pub type Ending = Result<(), Stop>;

// What is next when a piece was made or refused, and its bytes were handed to the output, which took all of them or not: the piece to go
// on from, or the end. A refusal comes before a failed write.
pub fn next_of(made: Result<Piece, Unmade>, written: bool) -> ControlFlow<Ending, Piece>
    ensures { result ≡ next_of made written }
{
    let piece = match made {
        Ok(piece) => piece,
        Err(why) => return ControlFlow::Break(Err(Stop::from(why))),
    };
    if !written {
        return ControlFlow::Break(Err(Stop::Unwritten));
    }
    if piece.left == 0 {
        return ControlFlow::Break(Ok(()));
    }
    ControlFlow::Continue(piece)
}

// What is said of an ending, at a page's front: nothing where all went well.
pub fn put_ending(page: &mut [u8], ending: Ending) -> usize
    requires told { Told ending }
    requires ending_room_in_bounds { ending_room ≤ length page.old }
    ensures { Put ending_room page.old 0 (ending_words ending) page.new result }
{
    match ending {
        Ok(()) => 0,
        Err(Stop::Refused(_)) => put_text(page, 0, b"made_up: refused with 26: the seed is zero\n"),
        Err(Stop::Unwritten) => put_text(page, 0, b"made_up: standard output cannot be written\n"),
    }
}
