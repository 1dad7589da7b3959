//! Bytes as most lines write them, read where they stand.

ghost use Rattle.std.specs.Prelude.{◌≡◌, ◌<◌, MatchOption, ⊤};
ghost use Rattle.console_operand.specs.Number.{digit_of, byte_of, hex_byte_of};
ghost use Rattle.console_operand.specs.DataSteps.{BeginsByte};

use crate::number::digit;
use crate::words::ends_here;

/// The byte that two hexadecimal digits after one space spell, and what comes after them.
pub fn hex_pair(line: &[u8]) -> Option<(u8, &[u8])>
    ensures { MatchOption result ⊤ (λ cut. BeginsByte hex_byte_of line.now cut.0 cut.1.now) }
{
    let [space, high, low, rest @ ..] = line else {
        return None;
    };
    if *space != b' ' {
        return None;
    }
    let high = digit(*high);
    if high > 15 {
        return None;
    }
    let low = digit(*low);
    if low > 15 || !ends_here(rest) {
        return None;
    }
    Some((high * 16 + low, rest))
}

/// The value of a decimal digit; above 9 if the byte is none.
fn decimal(byte: u8) -> u8
    ensures { result < 10 → digit_of byte ≡ result }
{
    if byte < b'0' { 16 } else { byte - b'0' }
}

/// The byte that one decimal digit after one space spells, and what comes after it.
fn one_digit(line: &[u8]) -> Option<(u8, &[u8])>
    ensures { MatchOption result ⊤ (λ cut. BeginsByte byte_of line.now cut.0 cut.1.now) }
{
    let [space, ones, rest @ ..] = line else {
        return None;
    };
    if *space != b' ' {
        return None;
    }
    let ones = decimal(*ones);
    if ones > 9 || !ends_here(rest) {
        return None;
    }
    Some((ones, rest))
}

/// The byte that two decimal digits after one space spell, and what comes after them. An octal number is none.
fn two_digits(line: &[u8]) -> Option<(u8, &[u8])>
    ensures { MatchOption result ⊤ (λ cut. BeginsByte byte_of line.now cut.0 cut.1.now) }
{
    let [space, tens, ones, rest @ ..] = line else {
        return None;
    };
    if *space != b' ' {
        return None;
    }
    let tens = decimal(*tens);
    let ones = decimal(*ones);
    if tens == 0 || tens > 9 || ones > 9 || !ends_here(rest) {
        return None;
    }
    Some((tens * 10 + ones, rest))
}

/// The byte that three decimal digits after one space spell, and what comes after them. An octal number is none.
fn three_digits(line: &[u8]) -> Option<(u8, &[u8])>
    ensures { MatchOption result ⊤ (λ cut. BeginsByte byte_of line.now cut.0 cut.1.now) }
{
    let [space, hundreds, tens, ones, rest @ ..] = line else {
        return None;
    };
    if *space != b' ' {
        return None;
    }
    let hundreds = decimal(*hundreds);
    let tens = decimal(*tens);
    let ones = decimal(*ones);
    if hundreds == 0 || hundreds > 9 || tens > 9 || ones > 9 || !ends_here(rest) {
        return None;
    }
    let value = u32::from(hundreds) * 100 + u32::from(tens) * 10 + u32::from(ones);
    if value > 255 {
        return None;
    }
    Some((value as u8, rest))
}

/// The byte that decimal digits after one space spell, and what comes after them. An octal number is none.
pub fn decimal_byte(line: &[u8]) -> Option<(u8, &[u8])>
    ensures { MatchOption result ⊤ (λ cut. BeginsByte byte_of line.now cut.0 cut.1.now) }
{
    if let Some(cut) = one_digit(line) {
        return Some(cut);
    }
    if let Some(cut) = two_digits(line) {
        return Some(cut);
    }
    three_digits(line)
}
