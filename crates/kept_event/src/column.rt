//! What stands in one column.

ghost use Rattle.std.specs.Prelude.{◌≡◌, IfOk};
ghost use Rattle.kept_event.specs.Reading.{small, id_in, short, bytes_in};

use bt_mapkind::Bytes;
use host_state::Listing;
use host_words::{NoMemory, Word};
use std::alloc::Global;

// A number of 32 bits.
#[tactic(auto, unfolding(crate::specs::Reading::small))]
pub(crate) fn small(n: u64) -> Option<u32>
    ensures { result ≡ small n }
{
    if n < 4_294_967_296 {
        Some(n as u32)
    } else {
        None
    }
}

/// A number of 32 bits in a column.
pub(crate) fn id_in(column: Option<u64>) -> Option<u32>
    ensures { result ≡ id_in column }
{
    small(column?)
}

// The bytes of a key or a value.
#[tactic(auto, unfolding(crate::specs::Reading::short))]
fn short(alloc: Global, bytes: &[u8]) -> Option<Bytes>
    ensures { result ≡ short bytes.now }
{
    if bytes.len() <= 260 {
        Some(Bytes::short(alloc, bytes))
    } else {
        None
    }
}

/// The bytes of a key or a value in a column.
pub(crate) fn bytes_in(alloc: Global, column: &Option<Listing<u8>>) -> Option<Bytes>
    ensures { result ≡ bytes_in column.now }
{
    match column {
        Some(bytes) => short(alloc, bytes.as_slice()),
        None => None,
    }
}

/// A copy of the word in a column.
pub(crate) fn word_in(column: &Option<Word>) -> Result<Option<Word>, NoMemory>
    ensures { IfOk result (λ word. word ≡ column.now) }
{
    match column {
        Some(word) => Ok(Some(word.copy()?)),
        None => Ok(None),
    }
}
