// A number in decimal, straight onto a page that has room for it. Paper 01, "The printed run".
#![tactic(auto)]

ghost use Rattle.std.specs.Prelude.{◌≡◌, ◌+◌, ◌≤◌, length};
ghost use Rattle.print_page.specs.Put.{Put, Room, Writes};
ghost use Rattle.print_page.specs.Text.{decimal};

use itoa::write_digits;
use print_page::Page;

// How many digits a number has.
fn digits_of(n: u64) -> usize
    ensures { (result ≡ length (decimal n)) × (result ≤ 20) }
{
    if n < 10 {
        return 1;
    }
    n.ilog10() as usize + 1
}

// The digits are written from the last one on, so that they are counted first. It is called, and lent the bytes alone: a page that a run
// writes on stays in registers, and so does what a run looks for in its loops.
#[inline(never)]
fn write_decimal(bytes: &mut [u8], used: usize, n: u64) -> usize
    requires { used + 20 ≤ length bytes.old }
    ensures { Put 20 bytes.old used (decimal n) bytes.new result }
{
    let end = used + digits_of(n);
    write_digits(n, bytes, end);
    end
}

// A number in decimal.
#[inline(always)]
pub fn put_decimal(page: &mut Page, n: u64)
    requires { Room 20 page.old }
    ensures { Writes 20 page.old (decimal n) page.new }
{
    page.used = write_decimal(page.bytes, page.used, n);
}
