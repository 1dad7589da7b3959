//! OBJ, what `prog load` loads: bytes as hexadecimal digits, or a file.

ghost use Rattle.std.specs.Prelude.{◌≡◌, ◌*◌, length, IfOk, IfSome};
ghost use Rattle.std.specs.Option.{option_map};
ghost use Rattle.console_operand.specs.Object.{hex_bytes, object_of};

use crate::NoMemory;
use hex::FromHexError;
use host_words::Word;
use std::alloc::{AllocError, Global};

/// Where the bytes of a program are.
#[derive(PartialEq, Eq, Debug, Drop)]
pub enum Object {
    /// They are these.
    Hex(Word),
    /// In the file of this path.
    File(Word),
}

/// The bytes that pairs of hexadecimal digits spell, of either case; `None` if they are none.
pub fn hex_bytes(alloc: Global, digits: &[u8]) -> Result<Option<Vec<u8>>, NoMemory>
    ensures value { IfOk result (λ bytes. option_map (λ it. it.items) bytes ≡ hex_bytes digits.now) }
    ensures halved { IfOk result (λ bytes. IfSome bytes (λ it. length digits.now ≡ 2 * length it.items)) }
{
    match hex::decode(alloc, digits) {
        Ok(bytes) => Ok(Some(bytes)),
        Err(FromHexError::OutOfMemory) => Err(AllocError),
        Err(_) => Ok(None),
    }
}

impl Object {
    /// The object that a word spells: `hex:` and an even number of digits, or a path that does not begin so.
    pub fn of(alloc: Global, word: &[u8]) -> Result<Option<Object>, NoMemory>
        ensures { IfOk result (λ object. object ≡ object_of word.now) }
    {
        if word.starts_with(b"hex:") {
            return match hex_bytes(alloc, &word[4..])? {
                Some(bytes) => Ok(Some(Object::Hex(Word::new(alloc, &bytes)?))),
                None => Ok(None),
            };
        }
        Ok(Some(Object::File(Word::new(alloc, word)?)))
    }
}
