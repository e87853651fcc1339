// What one rank holds towards one other. Paper 01, "Names and places".
ghost use Rattle.std.specs.Prelude.{◌≡◌};
ghost use Rattle.broker.specs.Names.{is_closed, is_open, is_closing, is_clear, is_unheeded};

// A line: none; plain; or a notice, a connection whose peer has announced its migration.
#[derive(Clone, Copy, PartialEq, Eq)]
pub enum Connection {
    Closed,
    Open,
    Closing,
}

// An await, what the old channel still holds for the source process of a migration:
// none; unheeded, the peer has not closed its side yet; or marked, the end marker is on the channel.
#[derive(Clone, Copy, PartialEq, Eq)]
pub enum Backlog {
    Clear,
    Unheeded,
    Marked,
}

#[derive(Clone, Copy, PartialEq, Eq)]
pub struct Link {
    pub connection: Connection,
    pub backlog: Backlog,
}

impl Connection {
    pub fn is_closed(self) -> bool
        ensures { result ≡ is_closed self }
    {
        self == Connection::Closed
    }

    pub fn is_open(self) -> bool
        ensures { result ≡ is_open self }
    {
        self == Connection::Open
    }

    pub fn is_closing(self) -> bool
        ensures { result ≡ is_closing self }
    {
        self == Connection::Closing
    }
}

impl Backlog {
    pub fn is_clear(self) -> bool
        ensures { result ≡ is_clear self }
    {
        self == Backlog::Clear
    }

    pub fn is_unheeded(self) -> bool
        ensures { result ≡ is_unheeded self }
    {
        self == Backlog::Unheeded
    }
}
