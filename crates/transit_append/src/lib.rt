// A message sent: it stands behind all others, with the next number of its pair.
#![tactic(auto)]

ghost use Rattle.std.specs.Prelude.{◌≡◌, ◌<◌, length};
ghost use Rattle.base.specs.Lists.{tally};
ghost use Rattle.transit.specs.Columns.{columns_of, SLOTS};
ghost use Rattle.transit.specs.InPlace.{messages, sent, unread};
ghost use Rattle.transit.specs.Message.{between, ranks};
ghost use Rattle.transit.specs.Unread.{appended, limit, sent_at, most_sent};

use transit::layout::{NONE, TAIL};
use transit::mail::Mail;
use transit::{Count, Message, Place, Rank, Value};
use transit_load::{load_into, unload};
use transit_put::put;
use transit_sent::count_one;

// Where the tail has come to the end, the messages go to the front.
fn make_room(mail: &mut Mail)
    ensures same { messages mail.new ≡ messages mail.old }
    ensures counts { sent mail.new ≡ sent mail.old }
    ensures room { (columns_of mail.new.slots).tail < SLOTS }
{
    if mail.slots[TAIL] < NONE {
        return;
    }
    let packed = unload(mail);
    load_into(&packed, mail);
}

// A message from `a` to `b` is unread, behind all others; how many of its pair are unread then.
pub fn append(a: Rank, b: Rank, place: Place, value: Value, mail: &mut Mail) -> Count
    requires contents_len_bound { length (messages mail.old) < limit }
    requires a_lt_ranks { a.0 < ranks }
    requires b_lt_ranks { b.0 < ranks }
    requires contents_bound { sent_at a b (sent mail.old) < most_sent }
    ensures last { unread mail.new ≡ (appended (unread mail.old) a b place value).unread }
    ensures pair { result ≡ tally (between a b) (messages mail.new) }
{
    make_room(mail);
    let sequence = count_one(a, b, mail);
    put(Message::new(a, b, place, value, sequence), mail)
}
