// A text that is given, onto a page that has room for it.
#![tactic(auto)]

ghost use Rattle.std.specs.Prelude.{◌+◌, ◌≤◌, length};
ghost use Rattle.print_page.specs.Put.{Put};

use print_page::Page;

// The form for a page that is lent without how much of it is used.
pub fn put_text(bytes: &mut [u8], used: usize, text: &[u8]) -> usize
    requires { used + length text.now ≤ length bytes.old }
    ensures { Put (length text.now) bytes.old used text.now bytes.new result }
{
    let mut page = Page { bytes, used };
    page.text(text);
    page.used
}
