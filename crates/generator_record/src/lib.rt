// A record of a made-up pass: its kind is drawn, and then each field of its body. Paper 02, change 1.
#![tactic(auto)]

ghost use Rattle.std.specs.Prelude.{◌≡◌, ◌+◌, ◌<◌, ◌≤◌, length};
ghost use Rattle.print_page.specs.Put.{Put};
ghost use Rattle.record.specs.Record.{fields_of, bytes_of};
ghost use Rattle.generator_record.specs.Body.{fields_in, has_second, second_below, has_value};
ghost use Rattle.generator_record.specs.MadeUp.{kinds, longest, body, body_leaves, made_record, record_leaves};

use broker::state::Broker;
use generator_draw::draw;
use print_page::{put_byte, put_four_bytes};

// "1 plus the draw modulo 12": the kinds 01 to 0C.
const KINDS: u32 = 12;

// "modulo 16 for a rank and 8 for a host"
const RANKS: u32 = Broker::RANKS as u32;

const HOSTS: u32 = Broker::HOSTS as u32;

// How far a log has come: the bytes that are used of the buffer, and the word that the generator stands at.
#[derive(Clone, Copy)]
pub struct Progress {
    pub used: usize,
    pub word: u32,
}

// The fields of a body.
#[derive(Clone, Copy)]
pub enum Body {
    Rank,
    RankAndHost,
    Ranks,
    RanksAndValue,
}

impl Body {
    fn has_second(self) -> bool
        ensures { result ≡ has_second self }
    {
        !matches!(self, Body::Rank)
    }

    // What the second byte of a body is below: it is a host or a rank.
    fn second_below(self) -> u32
        ensures { result ≡ second_below self }
    {
        match self {
            Body::RankAndHost => HOSTS,
            Body::Rank | Body::Ranks | Body::RanksAndValue => RANKS,
        }
    }

    fn has_value(self) -> bool
        ensures { result ≡ has_value self }
    {
        matches!(self, Body::RanksAndValue)
    }
}

// The bodies of the kinds 01 to 0C.
const BODIES: [Body; 12] = [
    Body::RankAndHost,
    Body::Ranks,
    Body::Ranks,
    Body::RanksAndValue,
    Body::Ranks,
    Body::RankAndHost,
    Body::Ranks,
    Body::Ranks,
    Body::Rank,
    Body::Ranks,
    Body::Rank,
    Body::Rank,
];

// The body of the kind that is 1 plus a number. Paper 01 names the form, a table: a `match` would branch on a kind that can't be foreseen.
fn body_of(number: u32) -> Body
    requires { number < kinds }
    ensures { fields_in result ≡ fields_of (1 + number) }
{
    BODIES[number as usize]
}

// The four bytes of a value, least significant first.
fn put_value(buffer: &mut [u8], used: usize, value: u32) -> usize
    requires { used + 4 ≤ length buffer.old }
    ensures { Put 4 buffer.old used (bytes_of value) buffer.new result }
{
    let [b0, b1, b2, b3] = value.to_le_bytes();
    put_four_bytes(buffer, used, b0, b1, b2, b3)
}

// A body, each field from a draw of its own. Every body begins with a rank.
fn put_body(buffer: &mut [u8], before: Progress, fields: Body) -> Progress
    requires { before.used + 6 ≤ length buffer.old }
    ensures put { Put 6 buffer.old before.used (body (fields_in fields) before.word) buffer.new result.used }
    ensures left { result.word ≡ body_leaves (fields_in fields) before.word }
{
    let first = draw(before.word);
    let one = put_byte(buffer, before.used, (first % RANKS) as u8);
    if !fields.has_second() {
        return Progress {
            used: one,
            word: first,
        };
    }
    let second = draw(first);
    let two = put_byte(buffer, one, (second % fields.second_below()) as u8);
    if !fields.has_value() {
        return Progress {
            used: two,
            word: second,
        };
    }
    let value = draw(second);
    Progress {
        used: put_value(buffer, two, value),
        word: value,
    }
}

// A record: its kind, and the body of that kind.
pub fn put_record(buffer: &mut [u8], before: Progress) -> Progress
    requires { before.used + longest ≤ length buffer.old }
    ensures put { Put longest buffer.old before.used (made_record before.word) buffer.new result.used }
    ensures left { result.word ≡ record_leaves before.word }
{
    let word = draw(before.word);
    let number = word % KINDS;
    let used = put_byte(buffer, before.used, (1 + number) as u8);
    put_body(buffer, Progress { used, word }, body_of(number))
}
