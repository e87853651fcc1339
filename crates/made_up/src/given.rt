// What the program was given: its arguments, as the count and the bytes that the plan is made by.
ghost use Rattle.std.specs.Prelude.{◌≤◌, IfSome, length};

use std::env::FillError;
use std::rt::Env;

// The most bytes of an argument that are read.
pub const ARGUMENT_LENGTH: usize = 4096;

// How long the buffer is that a piece of a pass is made in.
pub const BUFFER_LENGTH: usize = 65536;

// An argument, put at the front of a buffer; nothing where the buffer has no room for it, or there is none.
pub fn take_argument<'a>(rt: &impl Env, at: usize, buffer: &'a mut [u8]) -> Option<&'a [u8]>
    ensures { IfSome result (λ text. length text.now ≤ length buffer.old) }
{
    match rt.arg(at, buffer) {
        Ok(long) => Some(&buffer[..long]),
        Err(_) => None,
    }
}

// How many words the program was given, its own name among them.
pub fn argument_count(rt: &impl Env) -> usize {
    for at in 0..usize::MAX {
        if let Err(FillError::NotPresent) = rt.arg(at, &mut []) {
            return at;
        }
    }
    usize::MAX
}
