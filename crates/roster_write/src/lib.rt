// What is known of a rank, changed: one standing, call, table entry, link or count of numbers, and nothing else.
// Paper 01, "Names and places".
#![tactic(auto)]

ghost use Rattle.std.specs.Prelude.{set};
ghost use Rattle.broker.specs.State.{connect, await, cell, set_link, with_status, with_request, with_locations, with_links, with_drawn};
ghost use Rattle.protocol.specs.Connect.{connect_both};
ghost use Rattle.protocol.specs.Life.{announced};
ghost use Rattle.roster.specs.Roster.{ranks_of, Holds};

use broker::link::{Backlog, Connection, Link};
use broker::process::{Request, Status, Vmid};
use broker::state::Broker;
use roster::{DRAWN, LINKS, LOCATIONS, REQUESTS, Roster, cell};
use roster_numbers::{encode_drawn, encode_link, encode_request, encode_standing, encode_vmid};
use roster_read::link_between;
use transit::{CELLS, RANKS, Rank};

// A rank's standing.
pub fn set_standing(r: Rank, standing: Status, roster: &mut Roster)
    ensures { Holds roster.new (with_status r standing (ranks_of roster.old)) }
{
    let i = r.0 as usize;
    if i < RANKS {
        let w = encode_standing(standing);
        roster[i] = w;
    }
}

// A rank's call.
pub fn set_request(r: Rank, request: Option<Request>, roster: &mut Roster)
    ensures { Holds roster.new (with_request r request (ranks_of roster.old)) }
{
    let i = r.0 as usize;
    if i < RANKS {
        let w = encode_request(request);
        roster[REQUESTS + i] = w;
    }
}

// `a`'s table entry for `b`.
pub fn set_location(a: Rank, b: Rank, vmid: Vmid, roster: &mut Roster)
    ensures { Holds roster.new
        (with_locations (set (ranks_of roster.old).locations (cell a b) vmid) (ranks_of roster.old)) }
{
    let i = cell(a, b);
    if i < CELLS {
        let w = encode_vmid(vmid);
        roster[LOCATIONS + i] = w;
    }
}

// `a`'s line to `b` and its await of `b`.
pub fn set_link(a: Rank, b: Rank, link: Link, roster: &mut Roster)
    ensures { Holds roster.new
        (with_links (set_link (ranks_of roster.old).links a b link) (ranks_of roster.old)) }
{
    let i = cell(a, b);
    if i < CELLS {
        let w = encode_link(link);
        roster[LINKS + i] = w;
    }
}

// How many numbers are drawn on the host.
pub fn set_drawn(host: u8, number: u16, roster: &mut Roster)
    ensures { Holds roster.new (with_drawn host number (ranks_of roster.old)) }
{
    let i = host as usize;
    if i < 8 {
        let w = encode_drawn(number);
        roster[DRAWN + i] = w;
    }
}

// `a`'s line to `b`, and nothing else.
pub fn connect(a: Rank, b: Rank, line: Connection, roster: &mut Roster)
    ensures { Holds roster.new
        (with_links (connect a b line (ranks_of roster.old).links) (ranks_of roster.old)) }
{
    let link = link_between(a, b, roster);
    let changed = Link {
        connection: line,
        ..link
    };
    set_link(a, b, changed, roster);
}

// `r`'s await of `p`, and nothing else.
pub fn awaiting(r: Rank, p: Rank, backlog: Backlog, roster: &mut Roster)
    ensures { Holds roster.new
        (with_links (await r p backlog (ranks_of roster.old).links) (ranks_of roster.old)) }
{
    let link = link_between(r, p, roster);
    let changed = Link { backlog, ..link };
    set_link(r, p, changed, roster);
}

// Everybody's entry for `r` becomes `vmid`.
pub fn announce(r: Rank, vmid: Vmid, roster: &mut Roster)
    ensures { Holds roster.new
        (with_locations (announced r vmid (ranks_of roster.old).locations) (ranks_of roster.old)) }
{
    for i in 0..Broker::RANKS {
        set_location(Rank(i), r, vmid, roster);
    }
}

// Both lines between `a` and `b`.
pub fn connect_both(a: Rank, b: Rank, line: Connection, roster: &mut Roster)
    ensures { Holds roster.new (connect_both a b line (ranks_of roster.old)) }
{
    connect(a, b, line, roster);
    connect(b, a, line, roster);
}
