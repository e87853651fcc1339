// The generator: 32-bit xorshift of Marsaglia. Paper 02, change 1.
#![tactic(auto)]

ghost use Rattle.std.specs.Prelude.{◌≡◌, ◌<◌};
ghost use Rattle.generator_draw.specs.Draw.{draw, shifted_left};

// A word shifted left, modulo 2 to the 32: "bits that leave the top are dropped".
fn shifted_left(word: u32, places: u32) -> u32
    requires { places < 32 }
    ensures { result ≡ shifted_left places word }
{
    word << places
}

// The word that follows a word.
pub fn draw(word: u32) -> u32
    ensures { result ≡ draw word }
{
    let first = word ^ shifted_left(word, 13);
    let second = first ^ (first >> 17);
    second ^ shifted_left(second, 5)
}
