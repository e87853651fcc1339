// What the program says as it ends, on standard error.
ghost use Rattle.std.specs.Prelude.{◌≤◌, length};
ghost use Rattle.print_page.specs.Put.{Put};
ghost use Rattle.replay_stage.specs.Words.{words_of, words_room};

use crate::Ending;
use print_text::put_text;

// Why the program stops, at the page's front; nothing where the run is over.
pub fn words(why: Ending, page: &mut [u8]) -> usize
    requires { words_room ≤ length page.old }
    ensures { Put words_room page.old 0 (words_of why) page.new result }
{
    match why {
        Ending::Over => 0,
        Ending::Unwritten => put_text(page, 0, b"replay: standard output cannot be written\n"),
        Ending::Unread => put_text(page, 0, b"replay: standard input cannot be read\n"),
        Ending::TooLong => put_text(page, 0, b"replay: standard input is too long\n"),
    }
}
