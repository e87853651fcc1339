// The parts of a state that a line of the list names, by its numbers. A number is cut to the size of its part.
ghost use Rattle.std.specs.Prelude.{◌≡◌, ◌%◌, min};
ghost use Rattle.transit.specs.Message.{place_number};

use broker::process::Vmid;
use transit::{Message, Place, Rank, Sequence, Value};

pub fn rank(n: u64) -> Rank
    ensures { result.0 ≡ n % 256 }
{
    Rank((n % 256) as u8)
}

pub fn vmid(host: u64, number: u64) -> Vmid
    ensures { (result.0 ≡ host % 256) × (result.1 ≡ number % 65536) }
{
    Vmid((host % 256) as u8, (number % 65536) as u16)
}

fn place(n: u64) -> Place
    ensures { place_number result ≡ min n 3 }
{
    match n {
        0 => Place::SourceList,
        1 => Place::SourceChannel,
        2 => Place::EndList,
        _ => Place::Channel,
    }
}

pub fn running_number(n: u64) -> Sequence
    ensures { result ≡ n % 4294967296 }
{
    (n % 4294967296) as Sequence
}

pub fn message(sender: u64, receiver: u64, at: u64, value: u64, sequence: u64) -> Message
    ensures ranks { (result.sender.0 ≡ sender % 256) × (result.receiver.0 ≡ receiver % 256) }
    ensures place { place_number result.place ≡ min at 3 }
    ensures numbers { (result.value ≡ value % 4294967296) × (result.sequence ≡ sequence % 4294967296) }
{
    Message::new(
        rank(sender),
        rank(receiver),
        place(at),
        (value % 4294967296) as Value,
        running_number(sequence),
    )
}
