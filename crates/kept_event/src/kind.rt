//! The types of maps by the words of bpftool-map(8), and by numbers.

ghost use Rattle.std.specs.Prelude.{◌≡◌};
ghost use Rattle.bt_mapkind.specs.Codes.{number_of_type};
ghost use Rattle.kept_event.specs.Words.{type_word, type_of};
ghost use Rattle.kept_event.specs.Maps.{type_numbered};

use bt_mapkind::MapType;

/// The word for a type in the column `type` (bpftool-map(8), `map create`).
pub fn type_word(kind: MapType) -> &'static [u8]
    ensures { result.now ≡ type_word kind }
{
    match kind {
        MapType::Array => b"array",
        MapType::Hash => b"hash",
        MapType::LpmTrie => b"lpm_trie",
        MapType::Queue => b"queue",
        MapType::Stack => b"stack",
        MapType::ArrayOfMaps => b"array_of_maps",
        MapType::ProgArray => b"prog_array",
        MapType::HashOfMaps => b"hash_of_maps",
    }
}

/// The type of a word, if it is one.
pub fn type_of(word: &[u8]) -> Option<MapType>
    ensures { result ≡ type_of word.now }
{
    if word == b"array".as_slice() {
        Some(MapType::Array)
    } else if word == b"hash".as_slice() {
        Some(MapType::Hash)
    } else if word == b"lpm_trie".as_slice() {
        Some(MapType::LpmTrie)
    } else if word == b"queue".as_slice() {
        Some(MapType::Queue)
    } else if word == b"stack".as_slice() {
        Some(MapType::Stack)
    } else if word == b"array_of_maps".as_slice() {
        Some(MapType::ArrayOfMaps)
    } else if word == b"prog_array".as_slice() {
        Some(MapType::ProgArray)
    } else if word == b"hash_of_maps".as_slice() {
        Some(MapType::HashOfMaps)
    } else {
        None
    }
}

/// The number of a type where the maps of a program are listed.
pub(crate) fn number_of(kind: MapType) -> u32
    ensures { result ≡ number_of_type kind }
{
    match kind {
        MapType::Array => 0,
        MapType::Hash => 1,
        MapType::LpmTrie => 2,
        MapType::Queue => 3,
        MapType::Stack => 4,
        MapType::ArrayOfMaps => 5,
        MapType::ProgArray => 6,
        MapType::HashOfMaps => 7,
    }
}

/// The type of a number, if it is one's.
pub(crate) fn numbered(number: u32) -> Option<MapType>
    ensures { result ≡ type_numbered number }
{
    match number {
        0 => Some(MapType::Array),
        1 => Some(MapType::Hash),
        2 => Some(MapType::LpmTrie),
        3 => Some(MapType::Queue),
        4 => Some(MapType::Stack),
        5 => Some(MapType::ArrayOfMaps),
        6 => Some(MapType::ProgArray),
        7 => Some(MapType::HashOfMaps),
        _ => None,
    }
}
