// What is known of the ranks in a run: standing, call, table, line and await towards each other rank, and the numbers drawn on hosts,
// in one array of numbers that is lent, behind typed reads and stores. Paper 01, "Names and places".
// Past a column's end a read gives what a fresh desk has, and a store changes nothing.
#![tactic(auto)]

ghost use Rattle.std.specs.Prelude.{◌≡◌};
ghost use Rattle.broker.specs.State.{cell};

use transit::{RANKS, Rank};

pub const ROSTER_LENGTH: usize = 552;

// Five columns, one behind the other: standings (16), calls (16), table entries (256), links (256), numbers drawn (8).
// All zeros is the fresh state.
pub type Roster = [u64; ROSTER_LENGTH];

// Where each column behind the standings starts.
pub const REQUESTS: usize = 16;

pub const LOCATIONS: usize = 32;

pub const LINKS: usize = 288;

pub const DRAWN: usize = 544;

// Where `a`'s entry for `b` stands among sixteen rows of sixteen.
pub fn cell(a: Rank, b: Rank) -> usize
    ensures { result ≡ cell a b }
{
    RANKS * (a.0 as usize) + (b.0 as usize)
}
