//! Operations that a map of some attributes does not have.

ghost use Rattle.std.specs.Prelude.{◌≡◌, IfSome};
ghost use Rattle.console_hint.specs.Misfits.{has_items, holds_ids, key_misfit, value_misfit, misfit_of, IsKeyMisfit, IsValueMisfit, IsMisfit};

use crate::operation::{Given, Operation, Verb};
use bt_mapkind::{Bytes, MapAttr, MapType};

/// Why a map has no such operation.
#[derive(Clone, Copy)]
pub enum Misfit {
    /// It has items and no keys.
    NoKeys,
    /// It has keys and no items.
    NoItems,
    /// It has keys, and none is given.
    KeyMissing,
    /// Its keys do not have so many bytes.
    KeySize { has: u32, given: usize },
    /// Its values do not have so many bytes.
    ValueSize { has: u32, given: usize },
    /// It holds bytes, and an id is given.
    NoIds,
    /// It holds ids, and bytes are given.
    OnlyIds,
    /// Each index of it has a value for good.
    Undeletable,
    /// Its addresses have fewer bits than the prefix.
    Prefix { bits: u32, given: u32 },
}

fn has_items(kind: MapType) -> bool
    ensures { result ≡ has_items kind }
{
    matches!(kind, MapType::Queue | MapType::Stack)
}

fn holds_ids(kind: MapType) -> bool
    ensures { result ≡ holds_ids kind }
{
    matches!(
        kind,
        MapType::ArrayOfMaps | MapType::ProgArray | MapType::HashOfMaps
    )
}

// What is wrong with a key at a map of keys.
fn key_misfit(attr: MapAttr, key: &Bytes) -> Option<Misfit>
    ensures exact { result ≡ key_misfit attr key.now }
    ensures holds { IfSome result (IsKeyMisfit attr key.now) }
{
    let given = key.len();
    if given != attr.key_size as usize {
        return Some(Misfit::KeySize {
            has: attr.key_size,
            given,
        });
    }
    if !matches!(attr.kind, MapType::LpmTrie) || given < 4 || given > 260 {
        return None;
    }
    let bits = (attr.key_size - 4) * 8;
    let prefix = key.index();
    if prefix <= bits {
        return None;
    }
    Some(Misfit::Prefix {
        bits,
        given: prefix,
    })
}

// What is wrong with a value.
fn value_misfit(attr: MapAttr, value: Given) -> Option<Misfit>
    ensures exact { result ≡ value_misfit attr value }
    ensures holds { IfSome result (IsValueMisfit attr value) }
{
    match value {
        Given::Id => {
            if holds_ids(attr.kind) {
                return None;
            }
            Some(Misfit::NoIds)
        }
        Given::Bytes(given) => {
            if holds_ids(attr.kind) {
                return Some(Misfit::OnlyIds);
            }
            if given == attr.value_size as usize {
                return None;
            }
            Some(Misfit::ValueSize {
                has: attr.value_size,
                given,
            })
        }
    }
}

/// Why a map of these attributes has no such operation, if a hint can tell: the first reason of key, kind of operation and
/// value.
pub fn misfit_of(attr: MapAttr, operation: &Operation) -> Option<Misfit>
    ensures exact { result ≡ misfit_of attr operation.now }
    ensures holds { IfSome result (IsMisfit attr operation.now) }
{
    let keyless = has_items(attr.kind);
    match (&operation.key, operation.verb) {
        (Some(_), _) | (_, Verb::Next) if keyless => return Some(Misfit::NoKeys),
        (Some(_), Verb::Delete) if matches!(attr.kind, MapType::Array) => {
            return Some(Misfit::Undeletable);
        }
        (Some(key), _) => match key_misfit(attr, key) {
            Some(found) => return Some(found),
            None => {}
        },
        (None, Verb::Next) => {}
        (None, _) if keyless => {}
        (None, Verb::Peek | Verb::Push | Verb::Pop) => return Some(Misfit::NoItems),
        (None, _) => return Some(Misfit::KeyMissing),
    }
    match operation.value {
        Some(value) => value_misfit(attr, value),
        None => None,
    }
}
