// What the program that writes a made-up pass says of its arguments, where something is wrong with them: a line of text.
#![tactic(auto)]

ghost use Rattle.std.specs.Prelude.{◌+◌, ◌≤◌, length};
ghost use Rattle.made_up_problem.specs.Words.{name_room, name_words, fault_room, fault_words, problem_room, problem_words};
ghost use Rattle.print_page.specs.Put.{Put};

use made_up_argument::Fault;
use made_up_plan::{Problem, Which};
use print_text::put_text;

// The name of an argument, at a page's front.
fn put_name(page: &mut [u8], which: Which) -> usize
    requires { name_room ≤ length page.old }
    ensures { Put name_room page.old 0 (name_words which) page.new result }
{
    match which {
        Which::Seed => put_text(page, 0, b"made_up: argument 1, SEED, "),
        Which::Count => put_text(page, 0, b"made_up: argument 2, COUNT, "),
    }
}

// What is wrong with an argument, behind its name.
fn put_fault(page: &mut [u8], used: usize, which: Which, fault: Fault) -> usize
    requires { used + fault_room ≤ length page.old }
    ensures { Put fault_room page.old used (fault_words which fault) page.new result }
{
    match fault {
        Fault::NoNumber => put_text(page, used, b"is no decimal number\n"),
        Fault::TooLarge => match which {
            Which::Seed => put_text(page, used, b"is above 4294967295\n"),
            Which::Count => put_text(page, used, b"is above 18446744073709551615\n"),
        },
        Fault::TooLong => put_text(page, used, b"is longer than 4096 bytes\n"),
    }
}

// What is wrong with the arguments, at a page's front.
pub fn put_problem(page: &mut [u8], problem: Problem) -> usize
    requires { problem_room ≤ length page.old }
    ensures { Put problem_room page.old 0 (problem_words problem) page.new result }
{
    match problem {
        Problem::TooMany => put_text(page, 0, b"made_up: argument 3 is too much\n"),
        Problem::Missing(which) => {
            let name = put_name(page, which);
            put_text(page, name, b"is missing\n")
        }
        Problem::Faulty(which, fault) => {
            let name = put_name(page, which);
            put_fault(page, name, which, fault)
        }
    }
}
