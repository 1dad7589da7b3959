//! Attributes that no map has.

ghost use Rattle.std.specs.Prelude.{◌≡◌, true, false, ◌↔◌, IsNone, IfSome};
ghost use Rattle.bt_mapkind.specs.Attributes.{good, is_within, suits_type};
ghost use Rattle.console_map_syntax.specs.MapGrammar.{type_word};
ghost use Rattle.console_hint.specs.AttrFaults.{flags_of, IsFaultOf};

use bt_mapkind::{MapAttr, MapType};
use std::fmt;

/// What is wrong with the attributes of a new map.
#[derive(Clone, Copy)]
pub enum AttrFault {
    /// Values have 1 to 256 bytes, and not so many.
    Value(u32),
    /// There are 1 to 65,536 entries, and not so many.
    Entries(u32),
    /// Keys of a map of this type do not have so many bytes.
    Key(MapType, u32),
    /// Ids have 4 bytes, and not so many.
    Id(u32),
    /// A map of this type does not have these flags.
    Flags(MapType, u32),
}

// Flags that a map of this type may have.
fn flags_of(kind: MapType) -> u32
    ensures { result ≡ flags_of kind }
{
    if matches!(kind, MapType::LpmTrie) {
        1
    } else {
        0
    }
}

// What does not suit the type: the first of key size, value size and flags that no map of the type has.
fn type_fault(attr: MapAttr) -> AttrFault
    requires values { is_within 1 256 attr.value_size ≡ true }
    requires unsuited { suits_type attr.kind attr.key_size attr.value_size attr.flags ≡ false }
    ensures { IsFaultOf attr result }
{
    let sizes = MapAttr {
        max_entries: 1,
        flags: flags_of(attr.kind),
        ..attr
    };
    let key = MapAttr {
        value_size: 4,
        ..sizes
    };
    if !key.good() {
        AttrFault::Key(attr.kind, attr.key_size)
    } else if !sizes.good() {
        AttrFault::Id(attr.value_size)
    } else {
        AttrFault::Flags(attr.kind, attr.flags)
    }
}

/// What is wrong with the attributes of a new map, if they are not good.
pub fn attr_fault(attr: MapAttr) -> Option<AttrFault>
    ensures none { IsNone result ↔ (good attr ≡ true) }
    ensures holds { IfSome result (IsFaultOf attr) }
{
    if attr.good() {
        None
    } else if !(1..=256).contains(&attr.value_size) {
        Some(AttrFault::Value(attr.value_size))
    } else if !(1..=65_536).contains(&attr.max_entries) {
        Some(AttrFault::Entries(attr.max_entries))
    } else {
        Some(type_fault(attr))
    }
}

/// The name of a type of maps, as a script has it.
pub fn type_name(kind: MapType) -> &'static str
    ensures { result.now ≡ type_word kind }
{
    match kind {
        MapType::Array => "array",
        MapType::Hash => "hash",
        MapType::LpmTrie => "lpm_trie",
        MapType::Queue => "queue",
        MapType::Stack => "stack",
        MapType::ArrayOfMaps => "array_of_maps",
        MapType::ProgArray => "prog_array",
        MapType::HashOfMaps => "hash_of_maps",
    }
}

fn key_sizes(kind: MapType) -> &'static str {
    match kind {
        MapType::Array | MapType::ArrayOfMaps | MapType::ProgArray => "keys of 4 bytes",
        MapType::Hash | MapType::HashOfMaps => "keys of 1 to 64 bytes",
        MapType::LpmTrie => "keys of 5 to 260 bytes",
        MapType::Queue | MapType::Stack => "no keys",
    }
}

fn flags(kind: MapType) -> &'static str {
    match kind {
        MapType::Hash | MapType::HashOfMaps => "flags 0 or 1",
        MapType::LpmTrie => "flags 1",
        MapType::Array
        | MapType::Queue
        | MapType::Stack
        | MapType::ArrayOfMaps
        | MapType::ProgArray => "flags 0",
    }
}

// Writes what a map of this type has, and what is given in place of that.
fn write_of_type<W: fmt::Write>(
    f: &mut fmt::Formatter<W>,
    kind: MapType,
    has: &str,
    given: u32,
) -> fmt::Result {
    let name = type_name(kind);
    write!(f, "{name} has {has}, {given} given")
}

impl fmt::Display for AttrFault {
    fn fmt<W: fmt::Write>(&self, f: &mut fmt::Formatter<W>) -> fmt::Result {
        match *self {
            AttrFault::Value(given) => write!(f, "values have 1 to 256 bytes, {given} given"),
            AttrFault::Entries(given) => write!(f, "there are 1 to 65536 entries, {given} given"),
            AttrFault::Key(kind, given) => write_of_type(f, kind, key_sizes(kind), given),
            AttrFault::Id(given) => write!(f, "ids have 4 bytes, value {given} given"),
            AttrFault::Flags(kind, given) => write_of_type(f, kind, flags(kind), given),
        }
    }
}
