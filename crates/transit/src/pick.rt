// Which slots a pass picks, for passes over all slots that branch on nothing.
ghost use Rattle.std.specs.Prelude.{◌≡◌};
ghost use Rattle.transit.specs.Pick.{picked, pick_between, pick_to};

use crate::layout::{DEAD, ROW};
use crate::{Place, Rank};

// The slots of a pair number from `low` up to `high` that are to `receiver`, at the place of a number.
#[derive(Clone, Copy, PartialEq, Eq)]
pub struct Pick {
    pub low: u16,
    pub high: u16,
    pub receiver: u16,
    pub place: u16,
}

impl Pick {
    // The slots of the pair from `a` to `b` at a place.
    pub fn between(a: Rank, b: Rank, place: Place) -> Self
        ensures { result ≡ pick_between a b place }
    {
        let low = ROW * u16::from(a.0);
        Pick {
            low,
            high: low + ROW,
            receiver: u16::from(b.0),
            place: u16::from(place.number()),
        }
    }

    // The slots of all pairs to `r` at a place.
    pub fn to(r: Rank, place: Place) -> Self
        ensures { result ≡ pick_to r place }
    {
        Pick {
            low: 0,
            high: DEAD,
            receiver: u16::from(r.0),
            place: u16::from(place.number()),
        }
    }

    // Whether a slot of the pair at the place is picked.
    pub fn picks(self, pair: u16, place: u16) -> bool
        ensures { result ≡ picked self pair place }
    {
        (self.low <= pair)
            & (pair < self.high)
            & (pair % ROW == self.receiver)
            & (place == self.place)
    }
}
