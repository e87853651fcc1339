// The state that is being built, with one of its parts changed.
ghost use Rattle.std.specs.Prelude.{◌<◌};
ghost use Rattle.transit.specs.Message.{ranks, cells};

use crate::number::numbers_in;
use crate::part::{message, rank, running_number, vmid};
use crate::word::{Word, word_of};
use broker::link::{Backlog, Connection};
use broker::process::{Request, Status, Vmid};
use broker::state::Broker;
use std::io;
use transit::{Message, RANKS, Transit};

// The place of a rank among sixteen. The list names no other where a state has a place for each.
fn place_of(a: u64) -> usize
    ensures { result < ranks }
{
    a as usize % RANKS
}

// The place of what a rank has towards another.
fn cell(a: u64, b: u64) -> usize
    ensures { result < cells }
{
    RANKS * place_of(a) + place_of(b)
}

fn with_status(mut broker: Broker, a: u64, status: Status) -> Broker {
    broker.processes[place_of(a)].status = status;
    broker
}

fn with_call(mut broker: Broker, a: u64, call: Request) -> Broker {
    broker.processes[place_of(a)].request = Some(call);
    broker
}

fn with_line(mut broker: Broker, a: u64, b: u64, line: Connection) -> Broker {
    broker.links[cell(a, b)].connection = line;
    broker
}

fn with_await(mut broker: Broker, a: u64, b: u64, held: Backlog) -> Broker {
    broker.links[cell(a, b)].backlog = held;
    broker
}

fn with_entry(mut broker: Broker, a: u64, b: u64, v: Vmid) -> Broker {
    broker.locations[cell(a, b)] = v;
    broker
}

fn with_entries(mut broker: Broker, b: u64, v: Vmid) -> Broker {
    for a in 0..RANKS {
        broker = with_entry(broker, a as u64, b, v);
    }
    broker
}

fn with_drawn(mut broker: Broker, host: u64, numbers: u64) -> Broker {
    broker.drawn[(host % Broker::HOSTS as u64) as usize] = (numbers % 65536) as u16;
    broker
}

// Of more messages than there are slots the last are only counted.
fn with_message(mut broker: Broker, m: Message) -> Broker {
    let count = broker.transit.count;
    if count < Transit::LIMIT {
        broker.transit.messages[count] = m;
    }
    if count < 65535 {
        broker.transit.count = count + 1;
    }
    broker
}

fn with_sent(mut broker: Broker, a: u64, b: u64, sent: u64) -> Broker {
    broker.transit.sent[cell(a, b)] = running_number(sent);
    broker
}

// One more message is unread, with the next number of its pair, which has then sent one more. For a rank above 15 the number is 1, and
// nothing is counted.
fn after_send(broker: Broker, a: u64, b: u64, at: u64, value: u64) -> Broker {
    if (a < RANKS as u64) & (b < RANKS as u64) {
        let number = broker.transit.sent[cell(a, b)] as u64 + 1;
        return with_message(
            with_sent(broker, a, b, number),
            message(a, b, at, value, number),
        );
    }
    with_message(broker, message(a, b, at, value, 1))
}

fn with_messages(mut broker: Broker, count: u64, a: u64, b: u64, at: u64, value: u64) -> Broker {
    for _ in 0..count {
        broker = after_send(broker, a, b, at, value);
    }
    broker
}

// A line that is none of the list's is printed, so that the output differs.
fn complain(rt: &impl Print, line: &[u8]) -> io::Result<()> {
    rt.write_all(line)?;
    println!(rt; "?")
}

// The state after a line of the list.
pub fn changed(rt: &impl Print, broker: Broker, line: &[u8]) -> io::Result<Broker> {
    let n = numbers_in(line);
    let Some(word) = word_of(line) else {
        complain(rt, line)?;
        return Ok(broker);
    };
    let next = match word {
        Word::Fresh => Broker::fresh(),
        Word::Running => with_status(broker, n[0], Status::Running(vmid(n[1], n[2]))),
        Word::Moving => {
            let moving = Status::Migrating(vmid(n[1], n[2]), vmid(n[3], n[4]));
            with_status(broker, n[0], moving)
        }
        Word::Ended => with_status(broker, n[0], Status::Ended(vmid(n[1], n[2]))),
        Word::Call => {
            let to = rank(n[1]);
            let vmid = vmid(n[2], n[3]);
            with_call(broker, n[0], Request { to, vmid })
        }
        Word::Plain => with_line(broker, n[0], n[1], Connection::Open),
        Word::Notice => with_line(broker, n[0], n[1], Connection::Closing),
        Word::Unheeded => with_await(broker, n[0], n[1], Backlog::Unheeded),
        Word::Marked => with_await(broker, n[0], n[1], Backlog::Marked),
        Word::Table => with_entry(broker, n[0], n[1], vmid(n[2], n[3])),
        Word::Tables => with_entries(broker, n[0], vmid(n[1], n[2])),
        Word::Drawn => with_drawn(broker, n[0], n[1]),
        Word::Message => after_send(broker, n[0], n[1], n[2], n[3]),
        Word::Messages => with_messages(broker, n[0], n[1], n[2], n[3], n[4]),
        Word::Numbered => with_message(broker, message(n[0], n[1], n[2], n[3], n[4])),
        Word::Sent => with_sent(broker, n[0], n[1], n[2]),
        Word::Sound | Word::Unsound | Word::Remark => broker,
    };
    Ok(next)
}
