//! The text of what a journal lists, written without memory.

ghost use Rattle.std.specs.Prelude.{OnErr};
ghost use Rattle.std.specs.List.{flat_map};
ghost use Rattle.console_text.specs.Written.{Writes};
ghost use Rattle.console_text.specs.Text.{made_by_text, deed_at_id_text, deed_at_word_text, deed_text, made_text, change_row_text, named_mark_text, mark_row_text, journal_text};

use crate::output::{Output, WriteFault};
use crate::piece::{Piece, put, put_pieces};
use host_state::Origin;
use journal_model::{ChangeRow, Deed, JournalList, MarkRow};

// Writes the serial of a change, and who made it.
fn put_made_by<W: Output>(out: &mut W, serial: u64, origin: Origin) -> Result<(), WriteFault>
    ensures text { Writes (W.contents out.old) (W.contents out.new) result (made_by_text serial origin) }
    ensures refused { OnErr result (W.has_refused out.new) }
{
    match origin {
        Origin::Console => put_pieces(out, &[Piece::Number(serial), Piece::Plain(b" console ")]),
        Origin::Prog(id) => put_pieces(
            out,
            &[
                Piece::Number(serial),
                Piece::Plain(b" prog "),
                Piece::Number(u64::from(id)),
                Piece::Plain(b" "),
            ],
        ),
    }
}

// Writes what was done to the map or the program of an id.
fn put_at_id<W: Output>(out: &mut W, words: &'static [u8], id: u32) -> Result<(), WriteFault>
    ensures text { Writes (W.contents out.old) (W.contents out.new) result (deed_at_id_text words.now id) }
    ensures refused { OnErr result (W.has_refused out.new) }
{
    put_pieces(out, &[Piece::Plain(words), Piece::Number(u64::from(id))])
}

// Writes what was done to a path or to a device.
fn put_at_word<W: Output>(out: &mut W, words: &'static [u8], word: &[u8]) -> Result<(), WriteFault>
    ensures text { Writes (W.contents out.old) (W.contents out.new) result (deed_at_word_text words.now word.now) }
    ensures refused { OnErr result (W.has_refused out.new) }
{
    put_pieces(out, &[Piece::Plain(words), Piece::Word(word)])
}

fn put_deed<W: Output>(out: &mut W, deed: &Deed) -> Result<(), WriteFault>
    ensures text { Writes (W.contents out.old) (W.contents out.new) result (deed_text deed.now) }
    ensures refused { OnErr result (W.has_refused out.new) }
{
    match deed {
        Deed::Create(id) => put_at_id(out, b"create map ", *id),
        Deed::Update(id) => put_at_id(out, b"update map ", *id),
        Deed::Delete(id) => put_at_id(out, b"delete map ", *id),
        Deed::Push(id) => put_at_id(out, b"push map ", *id),
        Deed::Pop(id) => put_at_id(out, b"pop map ", *id),
        Deed::Store(id) => put_at_id(out, b"store map ", *id),
        Deed::Atomic(id) => put_at_id(out, b"atomic map ", *id),
        Deed::Freeze(id) => put_at_id(out, b"freeze map ", *id),
        Deed::Link(id) => put_at_id(out, b"link map ", *id),
        Deed::Load(id) => put_at_id(out, b"load prog ", *id),
        Deed::Pin(path) => put_at_word(out, b"pin ", path.as_slice()),
        Deed::Unpin(path) => put_at_word(out, b"unpin ", path.as_slice()),
        Deed::Attach(device) => put_at_word(out, b"attach ", device.as_slice()),
        Deed::Detach(device) => put_at_word(out, b"detach ", device.as_slice()),
    }
}

/// Writes a change as a list of the journal has it: its serial, who made it and what it did, without the line end.
pub fn put_made<W: Output>(out: &mut W, row: &ChangeRow) -> Result<(), WriteFault>
    ensures text { Writes (W.contents out.old) (W.contents out.new) result (made_text row.now) }
    ensures refused { OnErr result (W.has_refused out.new) }
{
    match put_made_by(out, row.serial, row.origin) {
        Ok(()) => put_deed(out, &row.deed),
        Err(fault) => Err(fault),
    }
}

fn put_change_row<W: Output>(out: &mut W, row: &ChangeRow) -> Result<(), WriteFault>
    ensures text { Writes (W.contents out.old) (W.contents out.new) result (change_row_text row.now) }
    ensures refused { OnErr result (W.has_refused out.new) }
{
    match put_made(out, row) {
        Ok(()) => put(out, b"\n"),
        Err(fault) => Err(fault),
    }
}

fn put_change_rows<W: Output>(out: &mut W, rows: &[ChangeRow]) -> Result<(), WriteFault>
    ensures text { Writes (W.contents out.old) (W.contents out.new) result (flat_map change_row_text rows.now) }
    ensures refused { OnErr result (W.has_refused out.new) }
{
    for row in rows {
        match put_change_row(out, row) {
            Ok(()) => {}
            Err(fault) => return Err(fault),
        }
    }
    Ok(())
}

fn put_named_mark<W: Output>(out: &mut W, name: &[u8], moments: u64) -> Result<(), WriteFault>
    ensures text { Writes (W.contents out.old) (W.contents out.new) result (named_mark_text name.now moments) }
    ensures refused { OnErr result (W.has_refused out.new) }
{
    put_pieces(
        out,
        &[
            Piece::Plain(b"mark "),
            Piece::Word(name),
            Piece::Plain(b" "),
            Piece::Number(moments),
            Piece::Plain(b"\n"),
        ],
    )
}

fn put_mark_row<W: Output>(out: &mut W, row: &MarkRow) -> Result<(), WriteFault>
    ensures text { Writes (W.contents out.old) (W.contents out.new) result (mark_row_text row.now) }
    ensures refused { OnErr result (W.has_refused out.new) }
{
    put_named_mark(out, row.name.as_slice(), row.moments)
}

fn put_mark_rows<W: Output>(out: &mut W, rows: &[MarkRow]) -> Result<(), WriteFault>
    ensures text { Writes (W.contents out.old) (W.contents out.new) result (flat_map mark_row_text rows.now) }
    ensures refused { OnErr result (W.has_refused out.new) }
{
    for row in rows {
        match put_mark_row(out, row) {
            Ok(()) => {}
            Err(fault) => return Err(fault),
        }
    }
    Ok(())
}

/// Writes what a journal lists: its changes one a line, then its marks one a line.
pub fn put_journal<W: Output>(out: &mut W, list: &JournalList) -> Result<(), WriteFault>
    ensures text { Writes (W.contents out.old) (W.contents out.new) result (journal_text list.now) }
    ensures refused { OnErr result (W.has_refused out.new) }
{
    match put_change_rows(out, list.changes.as_slice()) {
        Ok(()) => put_mark_rows(out, list.marks.as_slice()),
        Err(fault) => Err(fault),
    }
}
