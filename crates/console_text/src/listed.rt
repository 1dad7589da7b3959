//! The texts of maps shown and of dumps, written without memory.

ghost use Rattle.std.specs.Prelude.{◌≡◌, ◌++◌, OnErr};
ghost use Rattle.std.specs.List.{flat_map};
ghost use Rattle.console_text.specs.Written.{Writes};
ghost use Rattle.console_text.specs.Text.{found_text, linked_text, value_text, element_text, count_text, dump_text, type_name, naming_text, sizes_text, end_text, row_text};

use crate::output::{Output, WriteFault};
use crate::piece::{Piece, put, put_pieces};
use bt_mapkind::{MapAttr, MapType};
use host_state::{Element, MapRow};

/// Writes a value under its key.
pub fn put_found<'x, W: Output>(
    out: &mut W,
    key: &'x [u8],
    value: &'x [u8],
) -> Result<(), WriteFault>
    ensures text { Writes (W.contents out.old) (W.contents out.new) result (found_text key.now value.now) }
    ensures refused { OnErr result (W.has_refused out.new) }
{
    put_pieces(
        out,
        &[
            Piece::Plain(b"key: "),
            Piece::Bytes(key),
            Piece::Plain(b" value: "),
            Piece::Bytes(value),
            Piece::Plain(b"\n"),
        ],
    )
}

/// Writes the id under a key.
pub fn put_linked<W: Output>(out: &mut W, key: &[u8], id: u32) -> Result<(), WriteFault>
    ensures text { Writes (W.contents out.old) (W.contents out.new) result (linked_text key.now id) }
    ensures refused { OnErr result (W.has_refused out.new) }
{
    put_pieces(
        out,
        &[
            Piece::Plain(b"key: "),
            Piece::Bytes(key),
            Piece::Plain(b" value: id "),
            Piece::Number(u64::from(id)),
            Piece::Plain(b"\n"),
        ],
    )
}

/// Writes an item of a queue or a stack.
pub fn put_value<W: Output>(out: &mut W, value: &[u8]) -> Result<(), WriteFault>
    ensures text { Writes (W.contents out.old) (W.contents out.new) result (value_text value.now) }
    ensures refused { OnErr result (W.has_refused out.new) }
{
    put_pieces(
        out,
        &[
            Piece::Plain(b"value: "),
            Piece::Bytes(value),
            Piece::Plain(b"\n"),
        ],
    )
}

fn put_element<W: Output>(out: &mut W, element: &Element) -> Result<(), WriteFault>
    ensures text { Writes (W.contents out.old) (W.contents out.new) result (element_text element.now) }
    ensures refused { OnErr result (W.has_refused out.new) }
{
    match element {
        Element::Pair { key, value } => put_found(out, key.as_slice(), value.as_slice()),
        Element::Item(value) => put_value(out, value.as_slice()),
        Element::Link { key, id } => put_linked(out, key.as_slice(), *id),
    }
}

fn put_elements<W: Output>(out: &mut W, elements: &[Element]) -> Result<(), WriteFault>
    ensures text { Writes (W.contents out.old) (W.contents out.new) result (flat_map element_text elements.now) }
    ensures refused { OnErr result (W.has_refused out.new) }
{
    for element in elements {
        match put_element(out, element) {
            Ok(()) => {}
            Err(fault) => return Err(fault),
        }
    }
    Ok(())
}

fn put_count<W: Output>(out: &mut W, count: usize) -> Result<(), WriteFault>
    ensures text { Writes (W.contents out.old) (W.contents out.new) result (count_text count) }
    ensures refused { OnErr result (W.has_refused out.new) }
{
    put_pieces(
        out,
        &[
            Piece::Plain(b"found "),
            Piece::Number(count as u64),
            Piece::Plain(b" elements\n"),
        ],
    )
}

/// Writes the elements of a dump, one a line, and how many they are.
pub fn put_dump<W: Output>(out: &mut W, elements: &[Element]) -> Result<(), WriteFault>
    ensures text { Writes (W.contents out.old) (W.contents out.new) result (dump_text elements.now) }
    ensures refused { OnErr result (W.has_refused out.new) }
{
    match put_elements(out, elements) {
        Ok(()) => put_count(out, elements.len()),
        Err(fault) => Err(fault),
    }
}

fn type_name(kind: MapType) -> &'static [u8]
    ensures { result.now ≡ type_name kind }
{
    match kind {
        MapType::Array => b"array",
        MapType::Hash => b"hash",
        MapType::LpmTrie => b"lpm_trie",
        MapType::Queue => b"queue",
        MapType::Stack => b"stack",
        MapType::ArrayOfMaps => b"array_of_maps",
        MapType::ProgArray => b"prog_array",
        MapType::HashOfMaps => b"hash_of_maps",
    }
}

fn put_naming<W: Output>(out: &mut W, id: u32, kind: MapType, name: &[u8]) -> Result<(), WriteFault>
    ensures text { Writes (W.contents out.old) (W.contents out.new) result (naming_text id kind name.now) }
    ensures refused { OnErr result (W.has_refused out.new) }
{
    put_pieces(
        out,
        &[
            Piece::Number(u64::from(id)),
            Piece::Plain(b": "),
            Piece::Plain(type_name(kind)),
            Piece::Plain(b" name "),
            Piece::Word(name),
        ],
    )
}

fn put_sizes<W: Output>(out: &mut W, attr: MapAttr) -> Result<(), WriteFault>
    ensures text { Writes (W.contents out.old) (W.contents out.new) result (sizes_text attr) }
    ensures refused { OnErr result (W.has_refused out.new) }
{
    put_pieces(
        out,
        &[
            Piece::Plain(b" flags 0x"),
            Piece::Hexadecimal(attr.flags),
            Piece::Plain(b" key "),
            Piece::Number(u64::from(attr.key_size)),
            Piece::Plain(b"B value "),
            Piece::Number(u64::from(attr.value_size)),
            Piece::Plain(b"B max_entries "),
            Piece::Number(u64::from(attr.max_entries)),
        ],
    )
}

fn put_end<W: Output>(out: &mut W, frozen: bool) -> Result<(), WriteFault>
    ensures text { Writes (W.contents out.old) (W.contents out.new) result (end_text frozen) }
    ensures refused { OnErr result (W.has_refused out.new) }
{
    if frozen {
        put(out, b" frozen\n")
    } else {
        put(out, b"\n")
    }
}

// Writes what comes after the name of a map.
fn put_rest<W: Output>(out: &mut W, attr: MapAttr, frozen: bool) -> Result<(), WriteFault>
    ensures text { Writes (W.contents out.old) (W.contents out.new) result (sizes_text attr ++ end_text frozen) }
    ensures refused { OnErr result (W.has_refused out.new) }
{
    match put_sizes(out, attr) {
        Ok(()) => put_end(out, frozen),
        Err(fault) => Err(fault),
    }
}

fn put_row<W: Output>(out: &mut W, row: &MapRow) -> Result<(), WriteFault>
    ensures text { Writes (W.contents out.old) (W.contents out.new) result (row_text row.now) }
    ensures refused { OnErr result (W.has_refused out.new) }
{
    match put_naming(out, row.id, row.attr.kind, row.name.as_slice()) {
        Ok(()) => put_rest(out, row.attr, row.frozen),
        Err(fault) => Err(fault),
    }
}

/// Writes what is shown of maps, one a line.
pub fn put_rows<W: Output>(out: &mut W, rows: &[MapRow]) -> Result<(), WriteFault>
    ensures text { Writes (W.contents out.old) (W.contents out.new) result (flat_map row_text rows.now) }
    ensures refused { OnErr result (W.has_refused out.new) }
{
    for row in rows {
        match put_row(out, row) {
            Ok(()) => {}
            Err(fault) => return Err(fault),
        }
    }
    Ok(())
}
