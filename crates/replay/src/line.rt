// The pieces of a script's line: what its digits say.
ghost use Rattle.std.specs.Prelude.{◌≤◌, IfSome, length};

use out::front;

// What a hexadecimal digit says, capital or small.
fn digit_of(byte: u8) -> Option<u8>
    ensures { IfSome result (λ d. d ≤ 15) }
{
    match byte {
        b'0'..=b'9' => Some(byte - b'0'),
        b'A'..=b'F' => Some(byte - b'A' + 10),
        b'a'..=b'f' => Some(byte - b'a' + 10),
        _ => None,
    }
}

// A number with one more digit after it. The remainder cuts nothing off at eight digits in base 16 and at ten in base 10, and shows
// that the product fits.
fn with_digit(number: usize, base: u8, digit: u8) -> usize {
    number % 1000000000 * usize::from(base) + usize::from(digit)
}

// The number that these digits say in this base, 16 or 10, if there are at least one and at most so many of them, and it is at most
// `most`.
fn number_of(digits: &[u8], base: u8, width: usize, most: usize) -> Option<usize>
    ensures { IfSome result (λ n. n ≤ most) }
{
    if digits.is_empty() || width < digits.len() {
        return None;
    }
    let mut number = 0;
    for byte in digits {
        let digit = digit_of(*byte)?;
        if base <= digit {
            return None;
        }
        number = with_digit(number, base, digit);
    }
    if number <= most { Some(number) } else { None }
}

// The count that 1 to 10 decimal digits say, if it is at most `most`.
pub(crate) fn count_of(digits: &[u8], most: usize) -> Option<usize>
    ensures { IfSome result (λ n. n ≤ most) }
{
    number_of(digits, 10, 10, most)
}

// The number below 2^32 that 1 to 10 decimal digits say.
pub(crate) fn word_of(digits: &[u8]) -> Option<u32> {
    let number = count_of(digits, 4294967295)?;
    Some(number as u32)
}

// The key that 1 to 8 hexadecimal digits say.
pub(crate) fn key_of(digits: &[u8]) -> Option<u32> {
    let number = number_of(digits, 16, 8, 4294967295)?;
    Some(number as u32)
}

// The byte that 1 or 2 hexadecimal digits say.
fn byte_of(digits: &[u8]) -> Option<u8> {
    let number = number_of(digits, 16, 2, 255)?;
    Some(number as u8)
}

// The bytes that these hexadecimal digits say, in a buffer: an even number of digits, at least two, whose bytes fit. No byte where
// there are no words.
pub(crate) fn bytes_of<'a>(digits: Option<&[u8]>, bytes: &'a mut [u8]) -> Option<&'a [u8]> {
    let Some(digits) = digits else {
        return Some(&[]);
    };
    if digits.is_empty() || digits.len() % 2 == 1 || bytes.len() < digits.len() / 2 {
        return None;
    }
    for (pair, byte) in digits.chunks_exact(2).zip(bytes.iter_mut()) {
        *byte = byte_of(pair)?;
    }
    Some(front(bytes, digits.len() / 2))
}
