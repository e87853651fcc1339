// The numbers of a roster, and what each stands for: standings, calls, table entries, links. Paper 01, "Names and places".
#![tactic(auto)]

ghost use Rattle.std.specs.Prelude.{◌≡◌, ◌<◌};
ghost use Rattle.roster.specs.Numbers.{vmid_of, status_of, request_of, line_of, await_of, link_of, drawn_of};

use broker::link::{Backlog, Connection, Link};
use broker::process::{Request, Status, Vmid};
use transit::Rank;

// A vmid is its host times this, and its number.
const HOST: u64 = 65536;

// The second vmid of a standing is times this: behind the tag and the first vmid.
const SECOND: u64 = 67108864;

// A call that is open has this bit, so that it is never zero.
const POSTED: u64 = 4294967296;

// Host and number of a vmid.
pub fn decode_vmid(w: u64) -> Vmid
    ensures { result ≡ vmid_of w }
{
    Vmid((w / HOST % 256) as u8, (w % HOST) as u16)
}

// A vmid as a number below 2^24.
pub fn encode_vmid(v: Vmid) -> u64
    ensures result_value { vmid_of result ≡ v }
    ensures small { result < 16777216 }
{
    (v.0 as u64) * HOST + (v.1 as u64)
}

// The tag in the lowest two bits, then one vmid, then another.
pub fn decode_standing(w: u64) -> Status
    ensures { result ≡ status_of w }
{
    let tag = w % 4;
    if tag == 0 {
        return Status::Unstarted;
    }
    let vmid = decode_vmid(w / 4);
    if tag == 1 {
        return Status::Running(vmid);
    }
    if tag == 2 {
        return Status::Ended(vmid);
    }
    Status::Migrating(vmid, decode_vmid(w / SECOND))
}

// A standing as a number.
pub fn encode_standing(standing: Status) -> u64
    ensures { status_of result ≡ standing }
{
    match standing {
        Status::Unstarted => 0,
        Status::Running(v) => 1 + 4 * encode_vmid(v),
        Status::Ended(v) => 2 + 4 * encode_vmid(v),
        Status::Migrating(source, target) => 3
            + 4 * encode_vmid(source)
            + SECOND * encode_vmid(target),
    }
}

// The rank called in the lowest eight bits, then the vmid that the call was posted to; 0 where no call is open.
pub fn decode_request(w: u64) -> Option<Request>
    ensures { result ≡ request_of w }
{
    if w == 0 {
        return None;
    }
    Some(Request {
        to: Rank((w % 256) as u8),
        vmid: decode_vmid(w / 256),
    })
}

// A call as a number.
pub fn encode_request(request: Option<Request>) -> u64
    ensures { request_of result ≡ request }
{
    match request {
        None => 0,
        Some(q) => POSTED + (q.to.0 as u64) + 256 * encode_vmid(q.vmid),
    }
}

// A line: none, plain or notice.
fn decode_line(n: u64) -> Connection
    ensures { result ≡ line_of n }
{
    if n == 0 {
        return Connection::Closed;
    }
    if n == 1 {
        return Connection::Open;
    }
    Connection::Closing
}

// A line as a number.
fn encode_line(line: Connection) -> u64
    ensures result_value { line_of result ≡ line }
    ensures small { result < 3 }
{
    match line {
        Connection::Closed => 0,
        Connection::Open => 1,
        Connection::Closing => 2,
    }
}

// An await: none, unheeded or marked.
fn decode_await(n: u64) -> Backlog
    ensures { result ≡ await_of n }
{
    if n == 0 {
        return Backlog::Clear;
    }
    if n == 1 {
        return Backlog::Unheeded;
    }
    Backlog::Marked
}

// An await as a number.
fn encode_await(backlog: Backlog) -> u64
    ensures result_value { await_of result ≡ backlog }
    ensures small { result < 3 }
{
    match backlog {
        Backlog::Clear => 0,
        Backlog::Unheeded => 1,
        Backlog::Marked => 2,
    }
}

// The line in the lowest two bits, then the await.
pub fn decode_link(w: u64) -> Link
    ensures { result ≡ link_of w }
{
    let connection = decode_line(w % 4);
    let backlog = decode_await(w / 4);
    Link {
        connection,
        backlog,
    }
}

// A link as a number.
pub fn encode_link(link: Link) -> u64
    ensures { link_of result ≡ link }
{
    let line = link.connection;
    let backlog = link.backlog;
    let low = encode_line(line);
    let high = encode_await(backlog);
    low + 4 * high
}

// How many numbers are drawn on a host.
pub fn decode_drawn(w: u64) -> u16
    ensures { result ≡ drawn_of w }
{
    (w % 65536) as u16
}

// The same, stored.
pub fn encode_drawn(n: u16) -> u64
    ensures { drawn_of result ≡ n }
{
    n as u64
}
