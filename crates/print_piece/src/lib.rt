// A piece of the input is run in place. Paper 01, "The printed run".
#![tactic(auto)]

ghost use Rattle.std.specs.Prelude.{◌+◌, ◌<◌, ◌^◌, length};
ghost use Rattle.desk.specs.Desk.{state_of};
ghost use Rattle.print_piece.specs.Ran.{RanSome, Stops};

use desk::Desk;
use print_lines::record_line;
use print_page::Page;
use record::Fault;
use record::decode::decode;
use settle::settle;

// Why a run of a piece stops.
#[derive(Clone, Copy)]
pub enum Stop {
    // The page has no room for another line.
    PageFull,
    // A kind that is none stands there.
    KindUnknown,
    // The piece ends there, or cuts a record short.
    RecordCut,
}

// Where a run of a piece stopped: its position in the piece, how much of the page is used, how many records were run, and why.
#[derive(Clone, Copy)]
pub struct Stopped {
    pub at: usize,
    pub used: usize,
    pub steps: usize,
    pub stop: Stop,
}

// The most bytes that a record's line takes.
const ROOM: usize = 108;

// Runs the whole records of a piece while the page has room for a line. The piece's first byte stands at `base` in the input.
pub fn run_piece(piece: &[u8], base: u64, page: &mut [u8], desk: &mut Desk) -> Stopped
    requires { base + length piece.now < 2 ^ 64 }
    ensures ran { RanSome (state_of desk.old) piece.now base (length page.old)
        (state_of desk.new) result.at result.used result.steps page.new }
    ensures stops { Stops result.stop piece.now result.at result.used (length page.old) }
{
    let mut shown = Page {
        bytes: page,
        used: 0,
    };
    let mut at: usize = 0;
    let mut steps: usize = 0;
    while at < piece.len() {
        if shown.bytes.len() - shown.used < ROOM {
            return Stopped {
                at,
                used: shown.used,
                steps,
                stop: Stop::PageFull,
            };
        }
        match decode(piece, at) {
            Ok((read, next)) => {
                let answer = settle(read, desk);
                record_line(&mut shown, base + at as u64, piece[at], answer);
                at = next;
                steps += 1;
            }
            Err(Fault::Unknown) => {
                return Stopped {
                    at,
                    used: shown.used,
                    steps,
                    stop: Stop::KindUnknown,
                };
            }
            Err(Fault::Cut) => {
                return Stopped {
                    at,
                    used: shown.used,
                    steps,
                    stop: Stop::RecordCut,
                };
            }
        }
    }
    Stopped {
        at,
        used: shown.used,
        steps,
        stop: Stop::RecordCut,
    }
}
