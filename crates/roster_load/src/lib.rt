// Between the two forms of one state: a roster cleared, loaded from a state by value, and unloaded into one.
// Paper 01, "Where each language form goes": the tables by value go row by row, a row an array of sixteen.
#![tactic(auto)]

ghost use Rattle.std.specs.Prelude.{◌≡◌, ◌<◌};
ghost use Rattle.transit.specs.Message.{ranks};
ghost use Rattle.transit.specs.Unread.{nothing};
ghost use Rattle.broker.specs.State.{view, fresh, with_locations, with_links, with_unread};
ghost use Rattle.roster.specs.Loaded.{row_of, row_in, with_processes, with_all_drawn};
ghost use Rattle.roster.specs.Roster.{ranks_of, Holds};

use broker::link::{Backlog, Connection, Link};
use broker::process::{Process, Status, Vmid};
use broker::state::Broker;
use roster::{DRAWN, LINKS, LOCATIONS, REQUESTS, Roster};
use roster_numbers::{
    decode_drawn, decode_link, decode_request, decode_standing, decode_vmid, encode_drawn,
    encode_link, encode_request, encode_standing, encode_vmid,
};
use transit::{CELLS, RANKS};

// Nothing is known of any rank: the fresh state.
pub fn clear(roster: &mut Roster)
    ensures { Holds roster.new fresh }
{
    roster.fill(0);
}

// All standings and calls.
fn load_processes(processes: [Process; RANKS], roster: &mut Roster)
    ensures { Holds roster.new (with_processes processes (ranks_of roster.old)) }
{
    for i in 0..RANKS {
        let p = processes[i];
        let standing = p.status;
        let request = p.request;
        let v = encode_standing(standing);
        let w = encode_request(request);
        roster[i] = v;
        roster[REQUESTS + i] = w;
    }
}

// The table of the rank `a`.
fn row_of(locations: [Vmid; CELLS], a: usize) -> [Vmid; RANKS]
    requires { a < ranks }
    ensures { result ≡ row_of a locations }
{
    let unknown = Vmid::unknown();
    let mut row = [unknown; RANKS];
    let start = RANKS * a;
    for i in 0..RANKS {
        let v = locations[start + i];
        row[i] = v;
    }
    row
}

// All tables, row by row.
fn load_locations(locations: [Vmid; CELLS], roster: &mut Roster)
    ensures { Holds roster.new (with_locations locations (ranks_of roster.old)) }
{
    for a in 0..RANKS {
        let row = row_of(locations, a);
        let into = RANKS * a;
        for i in 0..RANKS {
            let v = row[i];
            let w = encode_vmid(v);
            roster[LOCATIONS + (into + i)] = w;
        }
    }
}

// All lines and awaits.
fn load_links(links: [Link; CELLS], roster: &mut Roster)
    ensures { Holds roster.new (with_links links (ranks_of roster.old)) }
{
    for i in 0..CELLS {
        let link = links[i];
        let w = encode_link(link);
        roster[LINKS + i] = w;
    }
}

// The numbers drawn on all hosts.
fn load_drawn(drawn: [u16; 8], roster: &mut Roster)
    ensures { Holds roster.new (with_all_drawn drawn (ranks_of roster.old)) }
{
    for i in 0..8 {
        let w = encode_drawn(drawn[i]);
        roster[DRAWN + i] = w;
    }
}

// All of a state by value but its messages.
pub fn load(broker: &Broker, roster: &mut Roster)
    ensures { Holds roster.new (with_unread nothing (view broker.now)) }
{
    let processes = broker.processes;
    let locations = broker.locations;
    let links = broker.links;
    let drawn = broker.drawn;
    load_processes(processes, roster);
    load_locations(locations, roster);
    load_links(links, roster);
    load_drawn(drawn, roster);
}

// All standings and calls, out of the roster.
fn processes_in(roster: &Roster) -> [Process; RANKS]
    ensures { result ≡ (ranks_of roster.now).processes }
{
    let idle = Process {
        status: Status::Unstarted,
        request: None,
    };
    let mut processes = [idle; RANKS];
    for i in 0..RANKS {
        let standing = decode_standing(roster[i]);
        let request = decode_request(roster[REQUESTS + i]);
        processes[i] = Process {
            status: standing,
            request,
        };
    }
    processes
}

// The table of the rank `a`, out of the roster.
fn row_in(a: usize, roster: &Roster) -> [Vmid; RANKS]
    requires { a < ranks }
    ensures { result ≡ row_in a roster.now }
{
    let unknown = Vmid::unknown();
    let mut row = [unknown; RANKS];
    let start = RANKS * a;
    for i in 0..RANKS {
        let v = decode_vmid(roster[LOCATIONS + (start + i)]);
        row[i] = v;
    }
    row
}

// All tables, row by row, out of the roster.
fn locations_in(roster: &Roster) -> [Vmid; CELLS]
    ensures { result ≡ (ranks_of roster.now).locations }
{
    let unknown = Vmid::unknown();
    let mut locations = [unknown; CELLS];
    for a in 0..RANKS {
        let row = row_in(a, roster);
        let start = RANKS * a;
        for i in 0..RANKS {
            let v = row[i];
            locations[start + i] = v;
        }
    }
    locations
}

// All lines and awaits, out of the roster.
fn links_in(roster: &Roster) -> [Link; CELLS]
    ensures { result ≡ (ranks_of roster.now).links }
{
    let apart = Link {
        connection: Connection::Closed,
        backlog: Backlog::Clear,
    };
    let mut links = [apart; CELLS];
    for i in 0..CELLS {
        let link = decode_link(roster[LINKS + i]);
        links[i] = link;
    }
    links
}

// The numbers drawn on all hosts, out of the roster.
fn drawn_in(roster: &Roster) -> [u16; 8]
    ensures { result ≡ (ranks_of roster.now).drawn }
{
    let mut drawn = [0u16; 8];
    for i in 0..8 {
        let n = decode_drawn(roster[DRAWN + i]);
        drawn[i] = n;
    }
    drawn
}

// The state by value with all of it but its messages as the roster has it.
pub fn unload(broker: Broker, roster: &Roster) -> Broker
    ensures { view result ≡ with_unread (view broker).unread (ranks_of roster.now) }
{
    let processes = processes_in(roster);
    let locations = locations_in(roster);
    let links = links_in(roster);
    let drawn = drawn_in(roster);
    Broker {
        processes,
        locations,
        links,
        drawn,
        ..broker
    }
}
