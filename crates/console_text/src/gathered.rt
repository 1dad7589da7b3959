//! Short texts gathered from their pieces, to be written at once. No call here takes memory.

ghost use Rattle.std.specs.Prelude.{◌≡◌, ◌++◌, true};
ghost use Rattle.std.specs.List.{flat_map};
ghost use Rattle.console_text.specs.Text.{spaced_hex_of, bytes_text, piece_text, pieces_text};

use crate::piece::{Piece, hex, spaced_hex};
use arrayvec::ArrayVec;
use itoa::Buffer;

/// How many bytes are gathered at most.
pub(crate) const GATHERED: usize = 128;

// Adds these bytes; false if there is no room for them.
fn add(line: &mut ArrayVec<u8, GATHERED>, bytes: &[u8]) -> bool
    ensures { result ≡ true → line.new.items ≡ line.old.items ++ bytes.now }
{
    line.try_extend_from_slice(bytes).is_ok()
}

// Adds two hexadecimal digits a byte, with a space before each; false if there is no room for them.
fn add_spaced(line: &mut ArrayVec<u8, GATHERED>, bytes: &[u8]) -> bool
    ensures { result ≡ true → line.new.items ≡ line.old.items ++ flat_map spaced_hex_of bytes.now }
{
    for byte in bytes {
        let digits = spaced_hex(*byte);
        if !add(line, &digits) {
            return false;
        }
    }
    true
}

// Adds two hexadecimal digits a byte, divided by spaces; false if there is no room for them.
fn add_bytes(line: &mut ArrayVec<u8, GATHERED>, bytes: &[u8]) -> bool
    ensures { result ≡ true → line.new.items ≡ line.old.items ++ bytes_text bytes.now }
{
    let Some((first, rest)) = bytes.split_first() else {
        return true;
    };
    let digits = hex(*first);
    if !add(line, &digits) {
        return false;
    }
    add_spaced(line, rest)
}

// Adds a piece; false if there is no room for it.
fn add_piece(line: &mut ArrayVec<u8, GATHERED>, piece: &Piece<'_>) -> bool
    ensures { result ≡ true → line.new.items ≡ line.old.items ++ piece_text piece.now }
{
    match piece {
        Piece::Plain(text) => add(line, text),
        Piece::Word(word) => add(line, word),
        Piece::Number(number) => {
            let mut buffer = Buffer::new();
            add(line, buffer.format(*number).as_bytes())
        }
        Piece::Hexadecimal(_) => false,
        Piece::Bytes(bytes) => add_bytes(line, bytes),
        Piece::Spaced(bytes) => add_spaced(line, bytes),
    }
}

/// Adds the text of these pieces; false if there is no room for it.
pub(crate) fn gather(line: &mut ArrayVec<u8, GATHERED>, pieces: &[Piece<'_>]) -> bool
    ensures { result ≡ true → line.new.items ≡ line.old.items ++ pieces_text pieces.now }
{
    for piece in pieces {
        if !add_piece(line, piece) {
            return false;
        }
    }
    true
}
