// Text straight onto a page that has room for it: single bytes, and a byte in hexadecimal. Paper 01, "The printed run".
#![tactic(auto)]

ghost use Rattle.std.specs.Prelude.{◌≡◌, ◌∷◌, [], ◌+◌, ◌≤◌, ◌<◌, length};
ghost use Rattle.print_page.specs.Put.{Put, Room, Writes};
ghost use Rattle.print_page.specs.Text.{digit, hex, space};

// A page that is lent, and how much of it is used.
#[derive(Drop)]
pub struct Page<'a> {
    pub bytes: &'a mut [u8],
    pub used: usize,
}

// A hexadecimal digit, upper case.
fn hex_digit(d: u8) -> u8
    requires { d < 16 }
    ensures { result ≡ digit d }
{
    if d < 10 { b'0' + d } else { b'7' + d }
}

impl Page<'_> {
    pub fn byte(&mut self, byte: u8)
        requires { Room 1 self.old }
        ensures { Writes 1 self.old (byte ∷ []) self.new }
    {
        self.bytes[self.used] = byte;
        self.used += 1;
    }

    // A space and a byte in two hexadecimal digits.
    pub fn hex(&mut self, n: u8)
        requires { Room 3 self.old }
        ensures { Writes 3 self.old (space ∷ hex n) self.new }
    {
        self.byte(b' ');
        self.byte(hex_digit(n / 16));
        self.byte(hex_digit(n % 16));
    }

    pub fn text(&mut self, text: &[u8])
        requires { Room (length text.now) self.old }
        ensures { Writes (length text.now) self.old text.now self.new }
    {
        let end = self.used + text.len();
        self.bytes[self.used..end].copy_from_slice(text);
        self.used = end;
    }
}

pub fn put_byte(page: &mut [u8], used: usize, byte: u8) -> usize
    requires { used + 1 ≤ length page.old }
    ensures { Put 1 page.old used (byte ∷ []) page.new result }
{
    page[used] = byte;
    used + 1
}

pub fn put_four_bytes(page: &mut [u8], used: usize, a: u8, b: u8, c: u8, d: u8) -> usize
    requires { used + 4 ≤ length page.old }
    ensures { Put 4 page.old used (a ∷ b ∷ c ∷ d ∷ []) page.new result }
{
    let mut at = put_byte(page, used, a);
    at = put_byte(page, at, b);
    at = put_byte(page, at, c);
    put_byte(page, at, d)
}
