//! Texts written piece by piece. No call here takes memory.

ghost use Rattle.std.specs.Prelude.{◌≡◌, ◌<◌, ◌∷◌, [], codes, decimal, OnErr};
ghost use Rattle.std.specs.List.{concat, flat_map};
ghost use Rattle.console_text.specs.Written.{Writes};
ghost use Rattle.console_text.specs.Text.{hex_digit, hex_of, spaced_hex_of, low_digit, hexadecimal_within, hexadecimal, bytes_text, piece_text, pieces_text};

use crate::gathered::gather;
use crate::output::{Output, WriteFault};
use arrayvec::ArrayVec;
use itoa::Buffer;

/// A part of a text.
#[derive(Clone, Copy)]
pub enum Piece<'a> {
    /// These bytes.
    Plain(&'static [u8]),
    /// These bytes.
    Word(&'a [u8]),
    /// A number in decimal.
    Number(u64),
    /// A number in hexadecimal, of lower-case digits and without leading zeros.
    Hexadecimal(u32),
    /// Two hexadecimal digits a byte, divided by spaces.
    Bytes(&'a [u8]),
    /// Two hexadecimal digits a byte, with a space before each.
    Spaced(&'a [u8]),
}

/// Writes these bytes.
pub fn put<W: Output>(out: &mut W, bytes: &[u8]) -> Result<(), WriteFault>
    ensures text { Writes (W.contents out.old) (W.contents out.new) result bytes.now }
    ensures refused { OnErr result (W.has_refused out.new) }
{
    let mut rest = bytes;
    while !rest.is_empty() {
        match out.write_front(rest) {
            Ok(count) => {
                let (_, after) = rest.split_at(count);
                rest = after;
            }
            Err(fault) => return Err(fault),
        }
    }
    Ok(())
}

fn hex_digit(number: u8) -> u8
    requires { number < 16 }
    ensures { result ≡ hex_digit number }
{
    if number < 10 {
        b'0' + number
    } else {
        b'a' + (number - 10)
    }
}

pub(crate) fn hex(byte: u8) -> [u8; 2]
    ensures { result ≡ hex_of byte }
{
    [hex_digit(byte / 16), hex_digit(byte % 16)]
}

fn put_low_digit<W: Output>(out: &mut W, number: u32) -> Result<(), WriteFault>
    ensures text { Writes (W.contents out.old) (W.contents out.new) result (low_digit number) }
    ensures refused { OnErr result (W.has_refused out.new) }
{
    put(out, &[hex_digit((number % 16) as u8)])
}

// Writes a number of at most so many digits.
fn put_digits<W: Output>(out: &mut W, digits: u32, number: u32) -> Result<(), WriteFault>
    ensures text { Writes (W.contents out.old) (W.contents out.new) result (hexadecimal_within digits number) }
    ensures refused { OnErr result (W.has_refused out.new) }
{
    if digits == 0 {
        return Ok(());
    }
    if number < 16 {
        return put_low_digit(out, number);
    }
    match put_digits(out, digits - 1, number / 16) {
        Ok(()) => put_low_digit(out, number),
        Err(fault) => Err(fault),
    }
}

fn put_hexadecimal<W: Output>(out: &mut W, number: u32) -> Result<(), WriteFault>
    ensures text { Writes (W.contents out.old) (W.contents out.new) result (hexadecimal number) }
    ensures refused { OnErr result (W.has_refused out.new) }
{
    put_digits(out, 8, number)
}

pub(crate) fn spaced_hex(byte: u8) -> [u8; 3]
    ensures { result ≡ spaced_hex_of byte }
{
    [b' ', hex_digit(byte / 16), hex_digit(byte % 16)]
}

fn put_spaced<W: Output>(out: &mut W, bytes: &[u8]) -> Result<(), WriteFault>
    ensures text { Writes (W.contents out.old) (W.contents out.new) result (flat_map spaced_hex_of bytes.now) }
    ensures refused { OnErr result (W.has_refused out.new) }
{
    for byte in bytes {
        let digits = spaced_hex(*byte);
        match put(out, &digits) {
            Ok(()) => {}
            Err(fault) => return Err(fault),
        }
    }
    Ok(())
}

fn put_bytes<W: Output>(out: &mut W, bytes: &[u8]) -> Result<(), WriteFault>
    ensures text { Writes (W.contents out.old) (W.contents out.new) result (bytes_text bytes.now) }
    ensures refused { OnErr result (W.has_refused out.new) }
{
    match bytes.split_first() {
        Some((first, rest)) => {
            let digits = hex(*first);
            match put(out, &digits) {
                Ok(()) => put_spaced(out, rest),
                Err(fault) => Err(fault),
            }
        }
        None => Ok(()),
    }
}

fn put_piece<W: Output>(out: &mut W, piece: &Piece<'_>) -> Result<(), WriteFault>
    ensures text { Writes (W.contents out.old) (W.contents out.new) result (piece_text piece.now) }
    ensures refused { OnErr result (W.has_refused out.new) }
{
    match piece {
        Piece::Plain(text) => put(out, text),
        Piece::Word(word) => put(out, word),
        Piece::Number(number) => {
            let mut buffer = Buffer::new();
            put(out, buffer.format(*number).as_bytes())
        }
        Piece::Hexadecimal(number) => put_hexadecimal(out, *number),
        Piece::Bytes(bytes) => put_bytes(out, bytes),
        Piece::Spaced(bytes) => put_spaced(out, bytes),
    }
}

// Writes the pieces one after another.
fn put_each<W: Output>(out: &mut W, pieces: &[Piece<'_>]) -> Result<(), WriteFault>
    ensures text { Writes (W.contents out.old) (W.contents out.new) result (pieces_text pieces.now) }
    ensures refused { OnErr result (W.has_refused out.new) }
{
    for piece in pieces {
        match put_piece(out, piece) {
            Ok(()) => {}
            Err(fault) => return Err(fault),
        }
    }
    Ok(())
}

/// Writes the pieces one after another, and at once if they are short.
pub fn put_pieces<W: Output>(out: &mut W, pieces: &[Piece<'_>]) -> Result<(), WriteFault>
    ensures text { Writes (W.contents out.old) (W.contents out.new) result (pieces_text pieces.now) }
    ensures refused { OnErr result (W.has_refused out.new) }
{
    let mut line = ArrayVec::new();
    if gather(&mut line, pieces) {
        put(out, line.as_slice())
    } else {
        put_each(out, pieces)
    }
}

/// Writes words and a number after them, as a line.
pub fn put_numbered<W: Output>(
    out: &mut W,
    words: &'static [u8],
    number: u64,
) -> Result<(), WriteFault>
    ensures text { Writes (W.contents out.old) (W.contents out.new) result
        (concat (words.now ∷ decimal number ∷ codes "\n" ∷ [])) }
    ensures refused { OnErr result (W.has_refused out.new) }
{
    put_pieces(
        out,
        &[
            Piece::Plain(words),
            Piece::Number(number),
            Piece::Plain(b"\n"),
        ],
    )
}
