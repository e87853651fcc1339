// A walk along a pair's links.
#![tactic(auto)]

ghost use Rattle.std.specs.Prelude.{◌<◌};
ghost use Rattle.transit.specs.Columns.{columns_of};
ghost use Rattle.transit.specs.Message.{cells};
ghost use Rattle.transit.specs.Search.{Reached};

use transit::layout::{FIRST, NEXT, PLACES, SLOTS};
use transit::mail::Mail;

// The first slot of a pair at the place of a number, or 2,048.
pub fn seek(pair: usize, place: u16, mail: &Mail) -> usize
    requires { pair < cells }
    ensures { Reached (columns_of mail.now.slots) pair place result }
{
    let mut at = usize::from(mail.slots[FIRST + pair]);
    // A walk along links counts no index.
    while at < SLOTS {
        if mail.slots[PLACES + at] == place {
            return at;
        }
        at = usize::from(mail.slots[NEXT + at]);
    }
    at
}
