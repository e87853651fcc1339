// The messages go between the two forms: a `Transit`, which is handed over and saved, and the slots, which a run works on.
#![tactic(auto)]

ghost use Rattle.std.specs.Prelude.{true, List, [], ◌≡◌, ℕ, ◌≤◌, length};
ghost use Rattle.base.specs.Lists.{every};
ghost use Rattle.transit.specs.Columns.{columns_of, contents_length, sent_in};
ghost use Rattle.transit.specs.InPlace.{messages, sent, unread};
ghost use Rattle.transit.specs.Mail.{Loaded};
ghost use Rattle.transit.specs.Slots.{ranked};
ghost use Rattle.transit.specs.Unread.{unread_of, limit};

use transit::layout::{COUNT, DEAD, FIRST, NONE, SLOTS, TAIL, UNREAD, message_at};
use transit::mail::Mail;
use transit::{CELLS, CONTENTS_LENGTH, Contents, SLOTS_LENGTH, Sequence, Slots, Transit};
use transit_put::put;
use transit_sent::{counts_in, keep_counts};

// The slots are those of no message, whatever they were.
fn empty_slots(slots: &mut Slots)
    ensures { (contents : List ℕ) → length contents ≡ contents_length
        → Loaded [] (sent_in contents) slots.new contents }
{
    for i in 0..SLOTS {
        slots[i] = DEAD;
    }
    for p in 0..CELLS {
        slots[FIRST + p] = NONE;
        slots[COUNT + p] = 0;
    }
    slots[TAIL] = 0;
    slots[UNREAD] = 0;
}

// No message is unread, and each pair has sent as many as the counts say, whatever the arrays held.
pub fn clear(counts: [Sequence; CELLS], slots: &mut Slots, contents: &mut Contents)
    ensures { Loaded [] counts slots.new contents.new }
{
    empty_slots(slots);
    keep_counts(counts, contents);
}

// The same in arrays of its own. It is written out, so that it is compiled into the desk that is made of it.
pub fn empty(counts: [Sequence; CELLS]) -> Mail
    ensures none { messages result ≡ [] }
    ensures counts { sent result ≡ counts }
    ensures packed { (columns_of result.slots).tail ≡ 0 }
{
    let mut slots: Slots = [0; SLOTS_LENGTH];
    empty_slots(&mut slots);
    let mut contents: Contents = [0; CONTENTS_LENGTH];
    keep_counts(counts, &mut contents);
    Mail { slots, contents }
}

// The messages of a value stand in the slots, packed to the front, whatever stood there.
pub fn load_into(t: &Transit, mail: &mut Mail)
    requires count_le_limit { t.now.count ≤ limit }
    requires counted { t.now.count ≡ length (unread_of t.now).messages }
    requires t_value { every ranked (unread_of t.now).messages ≡ true }
    ensures same { unread mail.new ≡ unread_of t.now }
    ensures packed { (columns_of mail.new.slots).tail ≡ t.now.count }
{
    clear(t.sent, &mut mail.slots, &mut mail.contents);
    for i in 0..t.count {
        put(t.messages[i], mail);
    }
}

// The same in slots of its own. Where a `Mail` is at hand, `load_into` does without the copies of one that is given back.
pub fn load(t: Transit) -> Mail
    requires count_le_limit { t.count ≤ limit }
    requires t_value { every ranked (unread_of t).messages ≡ true }
    ensures same { unread result ≡ unread_of t }
    ensures packed { (columns_of result.slots).tail ≡ t.count }
{
    let mut mail = empty(t.sent);
    load_into(&t, &mut mail);
    mail
}

// The messages of the slots as a value, in the room of `t`.
pub fn unload_into(t: Transit, mail: &Mail) -> Transit
    ensures { unread_of result ≡ unread mail.now }
{
    let mut value = t;
    let mut n: usize = 0;
    for i in 0..usize::from(mail.slots[TAIL]) {
        if mail.slots[i] < DEAD {
            value.messages[n] = message_at(mail, i);
            n += 1;
        }
    }
    value.count = n;
    value.sent = counts_in(mail);
    value
}

// The messages of the slots as a value.
pub fn unload(mail: &Mail) -> Transit
    ensures { unread_of result ≡ unread mail.now }
{
    unload_into(Transit::fresh(), mail)
}
