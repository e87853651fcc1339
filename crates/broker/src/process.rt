// A process as the broker knows it: its two levels of name, whether it runs, and its connection request.
// Paper 01, "Names and places".
ghost use Rattle.std.specs.Prelude.{◌≡◌};
ghost use Rattle.broker.specs.Names.{is_started, is_running, is_migrating, is_ended, is_live, endpoint};
ghost use Rattle.broker.specs.Names.{unknown, asks_for, posted_to};

use transit::Rank;

// The lower level of name: a host, and a number drawn on it. `Vmid(0, 0)` is unknown.
#[derive(Clone, Copy, PartialEq, Eq)]
pub struct Vmid(pub u8, pub u16);

// A rank's standing. A migrating rank has a source process (the mover) and a target process (the arrival).
#[derive(Clone, Copy, PartialEq, Eq)]
pub enum Status {
    Unstarted,
    Running(Vmid),
    Migrating(Vmid, Vmid),
    Ended(Vmid),
}

// A connection request (a call): the rank called, and the vmid that the request was posted to.
#[derive(Clone, Copy, PartialEq, Eq)]
pub struct Request {
    pub to: Rank,
    pub vmid: Vmid,
}

// A rank has at most one open call.
#[derive(Clone, Copy, PartialEq, Eq)]
pub struct Process {
    pub status: Status,
    pub request: Option<Request>,
}

impl Vmid {
    // Unknown: host 0, number 0.
    pub fn unknown() -> Self
        ensures { result ≡ unknown }
    {
        Vmid(0, 0)
    }
}

impl Status {
    pub fn is_started(self) -> bool
        ensures { result ≡ is_started self }
    {
        !matches!(self, Status::Unstarted)
    }

    pub fn is_running(self) -> bool
        ensures { result ≡ is_running self }
    {
        matches!(self, Status::Running(_))
    }

    pub fn is_migrating(self) -> bool
        ensures { result ≡ is_migrating self }
    {
        matches!(self, Status::Migrating(_, _))
    }

    pub fn is_ended(self) -> bool
        ensures { result ≡ is_ended self }
    {
        matches!(self, Status::Ended(_))
    }

    // Running or migrating.
    pub fn is_live(self) -> bool
        ensures { result ≡ is_live self }
    {
        matches!(self, Status::Running(_) | Status::Migrating(_, _))
    }

    // The vmid of the current end: of the target process in a migration, the last one of an ended rank.
    pub fn endpoint(self) -> Vmid
        ensures { result ≡ endpoint self }
    {
        match self {
            Status::Unstarted => Vmid::unknown(),
            Status::Running(v) | Status::Migrating(_, v) | Status::Ended(v) => v,
        }
    }
}

// Whether the call is to `b`.
pub fn asks_for(request: Option<Request>, b: Rank) -> bool
    ensures { result ≡ asks_for b request }
{
    request.is_some_and(|q| q.to == b)
}

// The vmid that the call was posted to.
pub fn posted_to(request: Option<Request>) -> Vmid
    ensures { result ≡ posted_to request }
{
    request.map_or(Vmid::unknown(), |q| q.vmid)
}
