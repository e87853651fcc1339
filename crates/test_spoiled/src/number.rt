// The numbers of a line.

// A number in decimal: 0 where there is no digit. Another byte, and a digit past the twelfth, change nothing.
fn number(text: &[u8]) -> u64 {
    let mut n: u64 = 0;
    for byte in text {
        if byte.is_ascii_digit() && n <= 99999999999 {
            n = 10 * n + (*byte - b'0') as u64;
        }
    }
    n
}

// The five words after the first, each as a number: 0 where there is none.
pub fn numbers_in(line: &[u8]) -> [u64; 5] {
    let mut numbers = [0u64; 5];
    let words = line.split(|byte| *byte == b' ').skip(1);
    for (n, word) in numbers.iter_mut().zip(words) {
        *n = number(word);
    }
    numbers
}
