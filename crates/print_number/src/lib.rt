// Numbers in decimal, each behind a space, straight onto a page that has room for them. Paper 01, "The printed run".
#![tactic(auto)]

ghost use Rattle.std.specs.Prelude.{◌∷◌, ◌*◌};
ghost use Rattle.print_page.specs.Put.{Room, Writes};
ghost use Rattle.print_page.specs.Text.{decimal, numbers, space};

use print_digits::put_decimal;
use print_page::Page;

// A space and a number in decimal.
#[inline(always)]
pub fn put_number(page: &mut Page, n: u64)
    requires { Room 21 page.old }
    ensures { Writes 21 page.old (space ∷ decimal n) page.new }
{
    page.byte(b' ');
    if n < 10 {
        page.byte(b'0' + n as u8);
        return;
    }
    put_decimal(page, n);
}

// Numbers, each behind a space.
#[inline(always)]
pub fn put_numbers<const N: usize>(page: &mut Page, ns: &[u64; N])
    requires { Room (21 * N) page.old }
    ensures { Writes (21 * N) page.old (numbers ns.now) page.new }
{
    for n in ns.iter() {
        put_number(page, *n);
    }
}
