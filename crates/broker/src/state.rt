// The whole state of the broker, and the fresh one. Paper 01, "Names and places".
ghost use Rattle.std.specs.Prelude.{◌≡◌};
ghost use Rattle.broker.specs.State.{view, fresh};

use crate::link::{Backlog, Connection, Link};
use crate::process::{Process, Status, Vmid};
use transit::{CELLS, RANKS, Rank, Transit};

// Sixteen processes; sixteen location tables of sixteen vmids each, row after row; a link for each rank towards each rank,
// laid out likewise; how many numbers are drawn on each host; and the unread messages.
#[derive(Clone, Copy, PartialEq, Eq)]
pub struct Broker {
    pub processes: [Process; RANKS],
    pub locations: [Vmid; CELLS],
    pub links: [Link; CELLS],
    pub drawn: [u16; 8],
    pub transit: Transit,
}

impl Broker {
    pub const RANKS: u8 = Rank::LIMIT;

    pub const HOSTS: u8 = 8;

    pub const NUMBERS: u16 = 65535;

    // Paper 01: "A fresh desk has no rank started, no messages, no numbers drawn, and table entries 0.0".
    pub fn fresh() -> Self
        ensures { view result ≡ fresh }
    {
        let process = Process {
            status: Status::Unstarted,
            request: None,
        };
        let link = Link {
            connection: Connection::Closed,
            backlog: Backlog::Clear,
        };
        let unknown = Vmid(0, 0);
        Broker {
            processes: [process; RANKS],
            locations: [unknown; CELLS],
            links: [link; CELLS],
            drawn: [0; 8],
            transit: Transit::fresh(),
        }
    }
}
