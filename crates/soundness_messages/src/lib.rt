// The unread messages in order of sending: each by its sender and its receiver, and each after the last of its pair. Paper 01, "Sound
// states"; paper 02, change 4.
#![tactic(auto)]

ghost use Rattle.std.specs.Prelude.{◌≡◌};
ghost use Rattle.transit.specs.Unread.{unread_of};
ghost use Rattle.soundness_messages.specs.Messages.{messages_sound};

use broker::link::Link;
use broker::process::Process;
use soundness_places::{is_named, message_fits};
use transit::{CELLS, RANKS, Sequence, Transit};

// Every message, up to the first that fails, or whose running number is not above that of the last of its pair or is above the count sent,
// or that is at a lower place than that last one. At the place of that last one a message is not tested again: whether it fits depends on
// its pair and its place alone.
pub fn messages_sound(processes: [Process; RANKS], links: [Link; CELLS], t: Transit) -> bool
    ensures { result ≡ messages_sound processes links (unread_of t) }
{
    if Transit::LIMIT < t.count {
        return false;
    }
    // One more than the number of the place of each pair's last message, and 0 where it had none yet.
    let mut last = [0u8; CELLS];
    // The running number of each pair's last message, and 0 where it had none yet. Paper 02, change 4: "Sound pairs have unread numbers
    // rising within 1 to the count sent."
    let mut numbers: [Sequence; CELLS] = [0; CELLS];
    for m in &t.messages[..t.count] {
        if !is_named(*m) {
            return false;
        }
        let from = m.sender.0 as usize;
        let to = m.receiver.0 as usize;
        let pair = RANKS * from + to;
        if !((numbers[pair] < m.sequence) & (m.sequence <= t.sent[pair])) {
            return false;
        }
        numbers[pair] = m.sequence;
        let mark = m.place.number() + 1;
        if last[pair] != mark {
            if mark < last[pair] {
                return false;
            }
            if !message_fits(*m, processes[from], processes[to], links[RANKS * to + from]) {
                return false;
            }
            last[pair] = mark;
        }
    }
    true
}
