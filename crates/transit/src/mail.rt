// The unread messages in place, as a run works on them.
ghost use Rattle.transit.specs.Mail.{IsMail};

use crate::{Contents, Slots};

// The two arrays, which hold the messages unread before and after each routine.
#[derive(Clone, Copy, PartialEq, Eq)]
pub struct Mail {
    pub slots: Slots,
    pub contents: Contents,
    ghost kept: { IsMail slots contents },
}
