// The state in place, as a run works on it, and what the kinds promise of it.
#![tactic(auto)]

use roster::Roster;
use transit::mail::Mail;

// The unread messages, and what is known of the ranks.
#[derive(Clone, Copy, PartialEq, Eq)]
pub struct Desk {
    pub mail: Mail,
    pub roster: Roster,
}
