// An argument of the program that writes a made-up pass: a number in decimal.
#![tactic(auto)]

ghost use Rattle.std.specs.Prelude.{true, ◌≡◌, ◌-◌, ◌≤◌};
ghost use Rattle.std.specs.Option.{option_map};
ghost use Rattle.base.specs.Lists.{every};
ghost use Rattle.made_up_argument.specs.Argument.{is_digit, number_in, argument_of};

// What is wrong with an argument.
#[derive(Clone, Copy, PartialEq, Eq)]
pub enum Fault {
    // It has another byte than a digit, or none at all.
    NoNumber,
    // The number is above the most that it may be.
    TooLarge,
    // It is longer than the program reads.
    TooLong,
}

fn all_digits(text: &[u8]) -> bool
    ensures { result ≡ every is_digit text.now }
{
    for byte in text {
        if !byte.is_ascii_digit() {
            return false;
        }
    }
    true
}

fn digit_of(byte: u8) -> u64
    requires { is_digit byte ≡ true }
    ensures { (result ≡ byte - 48) × (result ≤ 9) }
{
    (byte - b'0') as u64
}

// The number in a text, where it is at most so much.
pub fn number_in(text: &[u8], most: u64) -> Result<u64, Fault>
    ensures { result ≡ number_in most text.now }
{
    if text.is_empty() {
        return Err(Fault::NoNumber);
    }
    if !all_digits(text) {
        return Err(Fault::NoNumber);
    }
    let mut n: u64 = 0;
    for byte in text {
        let digit = digit_of(*byte);
        let Some(tens) = n.checked_mul(10) else {
            return Err(Fault::TooLarge);
        };
        let Some(more) = tens.checked_add(digit) else {
            return Err(Fault::TooLarge);
        };
        n = more;
    }
    if most < n {
        return Err(Fault::TooLarge);
    }
    Ok(n)
}

// What an argument says, by what the call that gives arguments gave of it: its text, or nothing where it is too long.
pub fn argument_of(given: Option<&[u8]>, most: u64) -> Result<u64, Fault>
    ensures { result ≡ argument_of (option_map (λ text. text.now) given.entry) most }
{
    match given {
        Some(text) => number_in(text, most),
        None => Err(Fault::TooLong),
    }
}
