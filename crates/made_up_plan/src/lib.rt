// What the program that writes a made-up pass does by its arguments: it writes a pass, or says what is wrong with them.
#![tactic(auto)]

ghost use Rattle.std.specs.Prelude.{◌≡◌};
ghost use Rattle.std.specs.Option.{option_map};
ghost use Rattle.made_up_argument.specs.Argument.{argument_of};
ghost use Rattle.made_up_plan.specs.Plan.{most, plan_of};
ghost use Rattle.made_up_plan.specs.declared.Which.TheVariants.{Seed, Count};

use made_up_argument::{Fault, argument_of};

// Where the arguments stand, the program's own name being at 0.
pub const SEED_AT: usize = 1;

pub const COUNT_AT: usize = 2;

// One of the two arguments.
#[derive(Clone, Copy, PartialEq, Eq)]
pub enum Which {
    Seed,
    Count,
}

// What is wrong with the arguments.
#[derive(Clone, Copy, PartialEq, Eq)]
pub enum Problem {
    // There are more than two.
    TooMany,
    Missing(Which),
    Faulty(Which, Fault),
}

// The pass that is written: so many records from a seed.
#[derive(Clone, Copy, PartialEq, Eq)]
pub struct Pass {
    pub seed: u32,
    pub count: u64,
}

// The most that an argument may be: a seed is a word of 32 bits.
fn most(which: Which) -> u64
    ensures { result ≡ most which }
{
    match which {
        Which::Seed => u32::MAX as u64,
        Which::Count => u64::MAX,
    }
}

// What is done by what the program was given: how many words, its own name among them, and the first argument and the second, or nothing of
// one that was not given whole. How many there are comes before what they are, and the seed before the count.
pub fn plan_of(given: usize, seed: Option<&[u8]>, count: Option<&[u8]>) -> Result<Pass, Problem>
    ensures { result ≡ plan_of given (argument_of (option_map (λ text. text.now) seed.entry) (most Seed))
        (argument_of (option_map (λ text. text.now) count.entry) (most Count)) }
{
    if COUNT_AT + 1 < given {
        return Err(Problem::TooMany);
    }
    if given <= SEED_AT {
        return Err(Problem::Missing(Which::Seed));
    }
    if given <= COUNT_AT {
        return Err(Problem::Missing(Which::Count));
    }
    let word = argument_of(seed, most(Which::Seed)).map_err(|fault| Problem::Faulty(
        Which::Seed,
        fault,
    ))?;
    let records = argument_of(count, most(Which::Count)).map_err(|fault| Problem::Faulty(
        Which::Count,
        fault,
    ))?;
    Ok(Pass {
        seed: word as u32,
        count: records,
    })
}
