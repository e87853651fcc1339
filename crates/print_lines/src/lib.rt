// The lines of a printed run, straight onto a page that has room for them. Paper 01, "The printed run".
#![tactic(auto)]

ghost use Rattle.std.specs.Prelude.{◌∷◌, [], ◌++◌};
ghost use Rattle.print_lines.specs.Lines.{record_line, record_room, pair_line, pair_room, end_line, end_room};
ghost use Rattle.print_page.specs.Put.{Room, Writes};
ghost use Rattle.print_page.specs.Text.{decimal, hex, newline, numbers, space};

use answer::{Answer, Refusal, Values};
use print_digits::put_decimal;
use print_number::put_numbers;
use print_page::Page;
use transit::Value;

// Position, kind, and four numbers. It is compiled into each line's function, and so into a run's loop.
#[inline(always)]
fn put_line(page: &mut Page, position: u64, kind: u8, four: &[u64; 4])
    requires { Room record_room page.old }
    ensures { Writes record_room page.old (decimal position ++ (space ∷ hex kind) ++ numbers four.now ++ (newline ∷ [])) page.new }
{
    put_decimal(page, position);
    page.hex(kind);
    put_numbers(page, four);
    page.byte(b'\n');
}

// Position, kind, number, v1, v2, v3. A run calls it at one place, so that it is compiled into its loop.
pub fn record_line(page: &mut Page, position: u64, kind: u8, answer: Answer)
    requires { Room record_room page.old }
    ensures { Writes record_room page.old (record_line position kind answer) page.new }
{
    match answer {
        Ok(Values(v1, v2, v3)) => {
            put_line(page, position, kind, &[0, v1 as u64, v2 as u64, v3 as u64]);
        }
        Err(why) => refused_line(page, position, kind, why),
    }
}

// The same of a refusal, which has no values.
pub fn refused_line(page: &mut Page, position: u64, kind: u8, why: Refusal)
    requires { Room record_room page.old }
    ensures { Writes record_room page.old (record_line position kind (Err why)) page.new }
{
    put_line(page, position, kind, &[why.number() as u64, 0, 0, 0]);
}

// `pair`, the sender a, the receiver b, and the counts at places 0 to 3.
pub fn pair_line(page: &mut Page, a: u8, b: u8, counts: &[Value; 4])
    requires { Room pair_room page.old }
    ensures { Writes pair_room page.old (pair_line a b counts.now) page.new }
{
    let [first, second, third, fourth] = *counts;
    page.text(b"pair");
    put_numbers(
        page,
        &[
            a as u64,
            b as u64,
            first as u64,
            second as u64,
            third as u64,
            fourth as u64,
        ],
    );
    page.byte(b'\n');
}

// `end`.
pub fn end_line(page: &mut Page)
    requires { Room end_room page.old }
    ensures { Writes end_room page.old end_line page.new }
{
    page.text(b"end\n");
}
