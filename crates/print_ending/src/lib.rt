// How a run ends. Paper 01, "The printed run": "It stops at the log's end without a line for it, or after a 2 or 3".
#![tactic(auto)]

ghost use Rattle.std.specs.Prelude.{◌++◌, ◌≡◌};
ghost use Rattle.print_page.specs.Put.{Writes, Room};
ghost use Rattle.print_lines.specs.Lines.{record_room, pair_lines, end_line};
ghost use Rattle.print_last.specs.Last.{PutOf, ending_room};
ghost use Rattle.print_run.specs.Printed.{lines_of};
ghost use Rattle.print_run.specs.Wholes.{reason_of, closing};

use answer::Refusal;
use print_last::last_lines;
use print_lines::refused_line;
use print_page::Page;
use record::decode::is_kind;
use transit::Slots;

// Why a run ends where a kind stands, and no whole record of it.
fn reason_of(kind: u8) -> Refusal
    ensures { result ≡ reason_of kind }
{
    if is_kind(kind) {
        Refusal::CutShort
    } else {
        Refusal::UnknownKind
    }
}

// The line after which a run ends, where there is one, of what is left of the input: its first byte stands at `base`.
pub fn closing_line(page: &mut Page, base: u64, rest: &[u8])
    requires { Room record_room page.old }
    ensures { Writes record_room page.old (lines_of (closing base rest.now 0)) page.new }
{
    if let [kind, ..] = rest {
        refused_line(page, base, *kind, reason_of(*kind));
    }
}

// How a run ends where no whole record is left: that line, the pairs with messages unread, and `end`.
pub fn run_end(page: &mut Page, base: u64, rest: &[u8], slots: &Slots)
    requires { Room ending_room page.old }
    ensures { PutOf ending_room page.old slots.now
        (λ l. lines_of (closing base rest.now 0) ++ (pair_lines l ++ end_line)) page.new }
{
    closing_line(page, base, rest);
    last_lines(page, slots);
}
