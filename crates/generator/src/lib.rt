// A made-up pass: a log of so many records from one number, so that a fault is told by its seed and count. Paper 02, change 1.
#![tactic(auto)]

ghost use Rattle.std.specs.Prelude.{◌≡◌, ◌*◌, ◌≤◌, length};
ghost use Rattle.print_page.specs.Put.{Put};
ghost use Rattle.generator.specs.Answer.{number, number_of, outcome, makes};
ghost use Rattle.generator_record.specs.MadeUp.{longest, made_log, log_leaves};

use generator_record::{Progress, put_record};

// The word at which the generator stands. A seed is the first one.
#[derive(Clone, Copy, PartialEq, Eq)]
pub struct Word(pub u32);

// Why a maker of a log makes none. Each has the paper's number.
#[derive(Clone, Copy, PartialEq, Eq)]
pub enum Unmade {
    // The seed, or the word to go on from, is zero.
    SeedZero = 26,
    // The buffer is shorter than 7 times the count of records.
    TooShort = 27,
}

impl Unmade {
    pub fn number(self) -> u8
        ensures { result ≡ number self }
    {
        self as u8
    }
}

// What a maker of a log answers: the bytes written, and the word that they leave.
pub type Made = Result<(usize, Word), Unmade>;

// 0 where a log was written, else the refusal's number.
pub fn number_of(made: Made) -> u8
    ensures { result ≡ number_of made }
{
    match made {
        Ok(_) => 0,
        Err(why) => why.number(),
    }
}

// The most bytes that a record takes.
const LONGEST: usize = 7;

// So many records from a word, at the buffer's front.
fn put_records(buffer: &mut [u8], n: usize, word: u32) -> Progress
    requires { longest * n ≤ length buffer.old }
    ensures put { Put (longest * n) buffer.old 0 (made_log n word) buffer.new result.used }
    ensures left { result.word ≡ log_leaves n word }
{
    let mut so_far = Progress { used: 0, word };
    for _ in 0..n {
        so_far = put_record(buffer, so_far);
    }
    so_far
}

// The log goes on from a word that an earlier part of it left.
pub fn go_on(word: Word, n: usize, buffer: &mut [u8]) -> Made
    ensures { outcome result buffer.new ≡ makes word.0 n buffer.old }
{
    if word.0 == 0 {
        return Err(Unmade::SeedZero);
    }
    // 7 times n is the number of mathematics: a product of machine numbers could wrap round.
    if buffer.len() / LONGEST < n {
        return Err(Unmade::TooShort);
    }
    let Progress { used, word: left } = put_records(buffer, n, word.0);
    Ok((used, Word(left)))
}

// A log of n records from a seed, at the front of a lent buffer.
pub fn made_up(seed: u32, n: usize, buffer: &mut [u8]) -> Made
    ensures { outcome result buffer.new ≡ makes seed n buffer.old }
{
    go_on(Word(seed), n, buffer)
}
