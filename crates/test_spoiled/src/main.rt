// Builds the states that standard input lists and hands each to a step. For each it prints a line: its name, and whether the step finds it
// sound. The head of the list, the file `stdin`, explains its lines.
#![tactic(auto)]

mod change;
mod number;
mod part;
mod tell;
mod word;

use broker::state::Broker;
use change::changed;
use std::io;
use std::io::{Cursor, Read};
use tell::tell;
use word::{Word, word_of};

// So many bytes of the list are read.
const ROOM: usize = 65536;

// What stands behind the first word of a line.
fn name_in(line: &[u8]) -> &[u8] {
    match line.iter().position(|byte| *byte == b' ') {
        Some(end) => &line[end + 1..],
        None => line,
    }
}

// Every line of the list: a change of the state, or the name of the state that the lines before it make. A state starts at the first one,
// and that at a fresh one.
fn read_list(rt: &impl Print, text: &[u8]) -> io::Result<()> {
    let mut first = None;
    let mut state = Broker::fresh();
    for line in text.split(|byte| *byte == b'\n') {
        if matches!(word_of(line), Some(Word::Sound | Word::Unsound)) {
            tell(rt, name_in(line), state)?;
            let start = first.unwrap_or(state);
            first = Some(start);
            state = start;
        } else {
            state = changed(rt, state, line)?;
        }
    }
    Ok(())
}

fn main(rt: HostRuntime) -> io::Result<()> {
    let mut room = Cursor::new([0u8; ROOM]);
    let _ = io::copy(&mut rt.stdin().take(ROOM as u64), &mut room);
    let end = (room.position() as usize).min(ROOM);
    read_list(&rt, &room.get_ref()[..end])
}
