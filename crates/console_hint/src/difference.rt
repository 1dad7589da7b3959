//! In what an inner map is unlike those that its outer map holds.

ghost use Rattle.std.specs.Prelude.{◌≡◌, true, ◌↔◌, IsNone};
ghost use Rattle.bt_mapkind.specs.Inner.{type_number, agrees};
ghost use Rattle.console_hint.specs.Differences.{difference_of};

use crate::attributes::type_name;
use bt_mapkind::{MapAttr, MapType};
use std::fmt;

/// An attribute in which a map is unlike those that an outer map holds: theirs, and its own.
#[derive(Clone, Copy)]
pub enum Difference {
    Kind { wanted: MapType, given: MapType },
    KeySize { wanted: u32, given: u32 },
    ValueSize { wanted: u32, given: u32 },
    Flags { wanted: u32, given: u32 },
    /// Of an array.
    Entries { wanted: u32, given: u32 },
}

// The number of a type in linux/bpf.h.
fn type_number(kind: MapType) -> u32
    ensures { result ≡ type_number kind }
{
    match kind {
        MapType::Hash => 1,
        MapType::Array => 2,
        MapType::ProgArray => 3,
        MapType::LpmTrie => 11,
        MapType::ArrayOfMaps => 12,
        MapType::HashOfMaps => 13,
        MapType::Queue => 22,
        MapType::Stack => 23,
    }
}

/// The first attribute in which a map is unlike another one: type, key size, value size, flags, or of an array its entries.
/// `None` if both may stand in one outer map.
pub fn difference_of(other: MapAttr, map: MapAttr) -> Option<Difference>
    ensures exact { result ≡ difference_of other map }
    ensures none { IsNone result ↔ (agrees other map ≡ true) }
{
    let kind = type_number(other.kind);
    if type_number(map.kind) != kind {
        Some(Difference::Kind {
            wanted: other.kind,
            given: map.kind,
        })
    } else if map.key_size != other.key_size {
        Some(Difference::KeySize {
            wanted: other.key_size,
            given: map.key_size,
        })
    } else if map.value_size != other.value_size {
        Some(Difference::ValueSize {
            wanted: other.value_size,
            given: map.value_size,
        })
    } else if map.flags != other.flags {
        Some(Difference::Flags {
            wanted: other.flags,
            given: map.flags,
        })
    } else if kind == 2 && map.max_entries != other.max_entries {
        Some(Difference::Entries {
            wanted: other.max_entries,
            given: map.max_entries,
        })
    } else {
        None
    }
}

// Writes which size is wanted and given, of keys or of values.
fn write_sizes<W: fmt::Write>(
    f: &mut fmt::Formatter<W>,
    what: &str,
    wanted: u32,
    given: u32,
) -> fmt::Result {
    write!(f, "{what} of {wanted} bytes, and this one of {given}")
}

impl fmt::Display for Difference {
    fn fmt<W: fmt::Write>(&self, f: &mut fmt::Formatter<W>) -> fmt::Result {
        match *self {
            Difference::Kind { wanted, given } => {
                let (wanted, given) = (type_name(wanted), type_name(given));
                write!(f, "type {wanted}, and this one {given}")
            }
            Difference::KeySize { wanted, given } => write_sizes(f, "keys", wanted, given),
            Difference::ValueSize { wanted, given } => write_sizes(f, "values", wanted, given),
            Difference::Flags { wanted, given } => {
                write!(f, "flags {wanted}, and this one {given}")
            }
            Difference::Entries { wanted, given } => {
                write!(f, "{wanted} entries, and this one {given}")
            }
        }
    }
}
