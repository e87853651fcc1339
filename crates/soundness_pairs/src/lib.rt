// The pairs of ranks, row after row: what each rank holds towards each.
#![tactic(auto)]

ghost use Rattle.std.specs.Prelude.{◌≡◌};
ghost use Rattle.soundness_pairs.specs.Pairs.{
  location_fits,
  vmids_apart,
  connection_fits,
  backlog_fits,
  request_fits,
  holds_nothing,
  pair_sound,
  pairs_sound,
};

use broker::link::{Backlog, Connection, Link};
use broker::process::{Process, Request, Status, Vmid, asks_for};
use soundness_names::{are_distinct, is_drawn, share_none};
use transit::{CELLS, RANKS, Rank};

// Where a rank is believed to be: a vmid that is drawn if the rank is started, else nowhere.
fn location_fits(drawn: [u16; 8], location: Vmid, status: Status) -> bool
    ensures { result ≡ location_fits drawn location status }
{
    if status.is_started() {
        is_drawn(drawn, location)
    } else {
        location == Vmid::unknown()
    }
}

fn vmids_apart(a: Rank, b: Rank, one: Status, other: Status) -> bool
    ensures { result ≡ vmids_apart a b one other }
{
    if a == b {
        are_distinct(one)
    } else {
        share_none(one, other)
    }
}

// A connection by the other side's, `back`.
fn connection_fits(one: Status, there: Connection, back: Connection) -> bool
    ensures { result ≡ connection_fits one there back }
{
    let owned = there.is_closed() | one.is_live();
    let both_open = !there.is_open() | back.is_open();
    let faces_none = !there.is_closing() | back.is_closed();
    owned & both_open & faces_none
}

// A backlog by the connection of the peer that it is to come from.
fn backlog_fits(one: Status, other: Status, backlog: Backlog, back: Connection) -> bool
    ensures { result ≡ backlog_fits one other backlog back }
{
    let owned = backlog.is_clear() | one.is_migrating() & other.is_started();
    let announced = backlog.is_unheeded() == back.is_closing();
    owned & announced
}

fn request_fits(
    b: Rank,
    request: Option<Request>,
    one: Status,
    other: Status,
    there: Connection,
) -> bool
    ensures { result ≡ request_fits b request one other there }
{
    !asks_for(request, b) | one.is_running() & other.is_started() & there.is_closed()
}

// A rank has no line, no await and no call to another, `b`, and faces no notice of it. That always fits, and most are so.
fn holds_nothing(
    b: Rank,
    request: Option<Request>,
    there: Connection,
    backlog: Backlog,
    back: Connection,
) -> bool
    ensures { result ≡ holds_nothing b request there backlog back }
{
    there.is_closed() & backlog.is_clear() & !asks_for(request, b) & !back.is_closing()
}

// Two ranks with their processes, where the first believes the second to be, and the link of each to the other.
fn pair_sound(
    drawn: [u16; 8],
    a: Rank,
    b: Rank,
    p: Process,
    q: Process,
    location: Vmid,
    there: Link,
    back: Link,
) -> bool
    ensures { result ≡ pair_sound drawn a b p q location there back }
{
    let Process {
        status: one,
        request,
    } = p;
    let other = q.status;
    let Link {
        connection,
        backlog,
    } = there;
    let facing = back.connection;
    let named = location_fits(drawn, location, other) & vmids_apart(a, b, one, other);
    if holds_nothing(b, request, connection, backlog, facing) {
        return named;
    }
    named
        & connection_fits(one, connection, facing)
        & backlog_fits(one, other, backlog, facing)
        & request_fits(b, request, one, other, connection)
}

// Every rank and every rank, up to the first two that fail.
pub fn pairs_sound(
    drawn: [u16; 8],
    processes: [Process; RANKS],
    locations: [Vmid; CELLS],
    links: [Link; CELLS],
) -> bool
    ensures { result ≡ pairs_sound drawn processes locations links }
{
    (0..CELLS).all(|i| {
        let a = i / RANKS;
        let b = i % RANKS;
        pair_sound(
            drawn,
            Rank(a as u8),
            Rank(b as u8),
            processes[a],
            processes[b],
            locations[i],
            links[i],
            links[RANKS * b + a],
        )
    })
}
