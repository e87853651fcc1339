// How many messages each pair has sent: read, kept and handed over. Paper 02, change 4.
#![tactic(auto)]

ghost use Rattle.std.specs.Prelude.{◌≡◌, ◌<◌};
ghost use Rattle.transit.specs.Columns.{sent_in};
ghost use Rattle.transit.specs.InPlace.{sent};
ghost use Rattle.transit.specs.Message.{ranks};
ghost use Rattle.transit.specs.Sent.{Counted, Kept};
ghost use Rattle.transit.specs.Unread.{sent_at, most_sent};

use transit::layout::{SENT, pair_of};
use transit::mail::Mail;
use transit::{CELLS, Contents, RANKS, Rank, Sequence};

// How many messages `a` has sent to `b`.
pub fn sent_between(a: Rank, b: Rank, contents: &Contents) -> Sequence
    ensures { result ≡ sent_at a b (sent_in contents.now) }
{
    let pair = RANKS * usize::from(a.0) + usize::from(b.0);
    if pair < CELLS {
        return contents[SENT + pair];
    }
    0
}

// The pair has sent one more; how many then.
pub fn count_one(a: Rank, b: Rank, mail: &mut Mail) -> Sequence
    requires a_lt_ranks { a.0 < ranks }
    requires b_lt_ranks { b.0 < ranks }
    requires contents_bound { sent_at a b (sent mail.old) < most_sent }
    ensures slots { mail.new.slots ≡ mail.old.slots }
    ensures counted { Counted a b mail.old.contents result mail.new.contents }
{
    let pair = pair_of(a, b);
    let n = mail.contents[SENT + pair] + 1;
    mail.contents[SENT + pair] = n;
    n
}

// The counts as they are handed over stand in the contents.
pub fn keep_counts(counts: [Sequence; CELLS], contents: &mut Contents)
    ensures { Kept counts contents.new }
{
    contents[SENT..].copy_from_slice(&counts);
}

// The counts as they are handed over.
pub fn counts_in(mail: &Mail) -> [Sequence; CELLS]
    ensures { result ≡ sent mail.now }
{
    let mut counts: [Sequence; CELLS] = [0; CELLS];
    counts.copy_from_slice(&mail.contents[SENT..]);
    counts
}
