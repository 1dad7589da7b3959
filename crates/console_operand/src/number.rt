//! Numbers and bytes as words spell them.

ghost use Rattle.std.specs.Prelude.{◌≡◌, ◌<◌, ◌≤◌, ◌^◌, MatchOption, ⊤, codes};
ghost use Rattle.console_operand.specs.Number.{digit_of, numeral_of, begins, below, long_number_of, number_of, byte_of, without_0x, hex_byte_of};

/// The value of a digit of a base up to 16; 16 if the byte is none.
pub(crate) fn digit(byte: u8) -> u8
    ensures { result ≡ digit_of byte }
{
    match byte {
        b'0'..=b'9' => byte - b'0',
        b'a'..=b'f' => byte - b'a' + 10,
        b'A'..=b'F' => byte - b'A' + 10,
        _ => 16,
    }
}

/// The number that one or more digits of a base spell, below 2^64.
fn numeral(base: u8, digits: &[u8]) -> Option<u64>
    requires some { 0 < base }
    requires most { base ≤ 16 }
    ensures { result ≡ below (2 ^ 64) (numeral_of base digits.now) }
{
    if digits.is_empty() {
        return None;
    }
    let mut value: u64 = 0;
    for byte in digits {
        let digit = digit(*byte);
        if digit >= base {
            return None;
        }
        value = value
            .checked_mul(u64::from(base))?
            .checked_add(u64::from(digit))?;
    }
    Some(value)
}

/// The number that a word of one decimal digit spells.
fn digit_number(word: &[u8]) -> Option<u64>
    ensures { MatchOption result ⊤ (λ number. long_number_of word.now ≡ Some number) }
{
    let [byte] = word else {
        return None;
    };
    match digit(*byte) {
        digit @ 0..=9 => Some(u64::from(digit)),
        _ => None,
    }
}

/// The number below 2^64 that a word spells: hexadecimal after `0x`, octal after `0`, else decimal.
pub fn number(word: &[u8]) -> Option<u64>
    ensures { result ≡ long_number_of word.now }
{
    if let Some(number) = digit_number(word) {
        return Some(number);
    }
    if word.starts_with(b"0x") {
        numeral(16, &word[2..])
    } else if word.starts_with(b"0") {
        numeral(8, word)
    } else {
        numeral(10, word)
    }
}

/// The number in 32 bits, if it has no more.
fn in_32_bits(number: Option<u64>) -> Option<u32>
    ensures { result ≡ below (2 ^ 32) number }
{
    match number {
        Some(number) if number <= u64::from(u32::MAX) => Some(number as u32),
        _ => None,
    }
}

/// NUM: the number below 2^32 that a word spells.
pub fn number_of(word: &[u8]) -> Option<u32>
    ensures { result ≡ number_of word.now }
{
    in_32_bits(number(word))
}

/// The number as a byte, if it is one.
fn as_byte(number: Option<u64>) -> Option<u8>
    ensures { result ≡ below 256 number }
{
    match number {
        Some(number) if number < 256 => Some(number as u8),
        _ => None,
    }
}

/// The byte that a word spells: a number up to 255.
pub fn byte(word: &[u8]) -> Option<u8>
    ensures { result ≡ byte_of word.now }
{
    as_byte(number(word))
}

/// The word without `0x` before it.
fn without_0x(word: &[u8]) -> &[u8]
    ensures { result.now ≡ without_0x word.now }
{
    if word.starts_with(b"0x") {
        &word[2..]
    } else {
        word
    }
}

/// The byte that a word spells in hexadecimal digits, with or without `0x` before them.
pub fn hex_byte(word: &[u8]) -> Option<u8>
    ensures { result ≡ hex_byte_of word.now }
{
    as_byte(numeral(16, without_0x(word)))
}
