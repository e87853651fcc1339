// A program that prints the first draws from two seeds: the words after them are known from outside, from Marsaglia's paper and from other
// programs of the same generator.
#![tactic(auto)]

use generator_draw::draw;
use std::io;

// A seed and the four words that are drawn from it, in a line.
fn print_draws(rt: &impl Print, seed: u32) -> io::Result<()> {
    print!(rt; "{seed}:")?;
    let mut word = seed;
    for _ in 0..4 {
        word = draw(word);
        print!(rt; " {word}")?;
    }
    println!(rt)
}

fn main(rt: HostRuntime) -> io::Result<()> {
    print_draws(&rt, 2463534242)?;
    print_draws(&rt, 1)
}
