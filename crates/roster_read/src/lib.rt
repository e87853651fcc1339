// What is known of a rank, read at any rank or host. Paper 01, "Names and places".
#![tactic(auto)]

ghost use Rattle.std.specs.Prelude.{◌≡◌};
ghost use Rattle.broker.specs.State.{status, request, location, link_at, drawn_on};
ghost use Rattle.roster.specs.Roster.{ranks_of};

use broker::link::{Backlog, Connection, Link};
use broker::process::{Request, Status, Vmid};
use roster::{DRAWN, LINKS, LOCATIONS, REQUESTS, Roster, cell};
use roster_numbers::{decode_drawn, decode_link, decode_request, decode_standing, decode_vmid};
use transit::{CELLS, RANKS, Rank};

// A rank's standing.
pub fn standing_of(r: Rank, roster: &Roster) -> Status
    ensures { result ≡ status (ranks_of roster.now) r }
{
    let i = r.0 as usize;
    if i < RANKS {
        return decode_standing(roster[i]);
    }
    Status::Unstarted
}

// A rank's call.
pub fn request_of(r: Rank, roster: &Roster) -> Option<Request>
    ensures { result ≡ request (ranks_of roster.now) r }
{
    let i = r.0 as usize;
    if i < RANKS {
        return decode_request(roster[REQUESTS + i]);
    }
    None
}

// `a`'s table entry for `b`.
pub fn location_of(a: Rank, b: Rank, roster: &Roster) -> Vmid
    ensures { result ≡ location (ranks_of roster.now) a b }
{
    let i = cell(a, b);
    if i < CELLS {
        return decode_vmid(roster[LOCATIONS + i]);
    }
    Vmid::unknown()
}

// `a`'s line to `b` and its await of `b`.
pub fn link_between(a: Rank, b: Rank, roster: &Roster) -> Link
    ensures { result ≡ link_at (ranks_of roster.now).links a b }
{
    let i = cell(a, b);
    if i < CELLS {
        return decode_link(roster[LINKS + i]);
    }
    Link {
        connection: Connection::Closed,
        backlog: Backlog::Clear,
    }
}

// How many numbers are drawn on the host.
pub fn drawn_on(host: u8, roster: &Roster) -> u16
    ensures { result ≡ drawn_on (ranks_of roster.now) host }
{
    let i = host as usize;
    if i < 8 {
        return decode_drawn(roster[DRAWN + i]);
    }
    0
}
