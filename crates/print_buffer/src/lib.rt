// The buffer that the input is read through. Paper 01, "The printed run": "Input may be of any length, read through at most 65,536 bytes".
#![tactic(auto)]

ghost use Rattle.std.specs.Prelude.{◌≤◌, length};
ghost use Rattle.print_buffer.specs.Buffer.{Kept};

// What is left from a position on of what the buffer holds goes to its front.
pub fn keep_rest(buffer: &mut [u8], from: usize, held: usize) -> usize
    requires { (from ≤ held) × (held ≤ length buffer.old) }
    ensures { Kept buffer.old from held buffer.new result }
{
    buffer.copy_within(from..held, 0);
    held - from
}
