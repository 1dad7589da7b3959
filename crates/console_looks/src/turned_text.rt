//! What is told of moments that are taken back or brought back.

ghost use Rattle.std.specs.Prelude.{◌≡◌, ◌++◌, OnErr};
ghost use Rattle.std.specs.List.{flat_map};
ghost use Rattle.console_text.specs.Written.{Writes};
ghost use Rattle.console_looks.specs.TurnedText.{moments_word, row_text, next_text, rows_text, more_text, head_text, told_text, turned_text};

use crate::turned::{MomentRow, Turned};
use console_text::{Output, Piece, WriteFault, put, put_made, put_pieces};

fn put_row<W: Output>(out: &mut W, row: &MomentRow) -> Result<(), WriteFault>
    ensures text { Writes (W.contents out.old) (W.contents out.new) result (row_text row.now) }
    ensures refused { OnErr result (W.has_refused out.new) }
{
    match row {
        MomentRow::Change(row) => put_made(out, row),
        MomentRow::Without { serial, out: taken } => put_pieces(
            out,
            &[
                Piece::Number(*serial),
                Piece::Plain(b" console without "),
                Piece::Number(*taken),
            ],
        ),
        MomentRow::TakenOut(serial) => put_pieces(
            out,
            &[Piece::Number(*serial), Piece::Plain(b" taken out")],
        ),
    }
}

// Writes a row after these bytes.
fn put_after<W: Output>(
    out: &mut W,
    before: &'static [u8],
    row: &MomentRow,
) -> Result<(), WriteFault>
    ensures text { Writes (W.contents out.old) (W.contents out.new) result (before.now ++ row_text row.now) }
    ensures refused { OnErr result (W.has_refused out.new) }
{
    match put(out, before) {
        Ok(()) => put_row(out, row),
        Err(fault) => Err(fault),
    }
}

// Writes rows after the first.
fn put_others<W: Output>(out: &mut W, rows: &[MomentRow]) -> Result<(), WriteFault>
    ensures text { Writes (W.contents out.old) (W.contents out.new) result (flat_map next_text rows.now) }
    ensures refused { OnErr result (W.has_refused out.new) }
{
    for row in rows {
        match put_after(out, b", ", row) {
            Ok(()) => {}
            Err(fault) => return Err(fault),
        }
    }
    Ok(())
}

fn put_rows<W: Output>(out: &mut W, rows: &[MomentRow]) -> Result<(), WriteFault>
    ensures text { Writes (W.contents out.old) (W.contents out.new) result (rows_text rows.now) }
    ensures refused { OnErr result (W.has_refused out.new) }
{
    match rows.split_first() {
        Some((first, rest)) => match put_after(out, b": ", first) {
            Ok(()) => put_others(out, rest),
            Err(fault) => Err(fault),
        },
        None => put(out, b""),
    }
}

// Writes how many more there are, if there are any.
fn put_more<W: Output>(out: &mut W, more: u64) -> Result<(), WriteFault>
    ensures text { Writes (W.contents out.old) (W.contents out.new) result (more_text more) }
    ensures refused { OnErr result (W.has_refused out.new) }
{
    if more == 0 {
        return put(out, b"");
    }
    put_pieces(
        out,
        &[
            Piece::Plain(b" and "),
            Piece::Number(more),
            Piece::Plain(b" more"),
        ],
    )
}

// Writes the rows, and how many more there are.
fn put_told<W: Output>(out: &mut W, rows: &[MomentRow], more: u64) -> Result<(), WriteFault>
    ensures text { Writes (W.contents out.old) (W.contents out.new) result (told_text rows.now more) }
    ensures refused { OnErr result (W.has_refused out.new) }
{
    match put_rows(out, rows) {
        Ok(()) => put_more(out, more),
        Err(fault) => Err(fault),
    }
}

fn moments_word(count: u64) -> &'static [u8]
    ensures { result.now ≡ moments_word count }
{
    if count == 1 { b" moment" } else { b" moments" }
}

// Writes what was done to so many moments.
fn put_head<W: Output>(out: &mut W, did: &'static [u8], count: u64) -> Result<(), WriteFault>
    ensures text { Writes (W.contents out.old) (W.contents out.new) result (head_text did.now count) }
    ensures refused { OnErr result (W.has_refused out.new) }
{
    put_pieces(
        out,
        &[
            Piece::Plain(did),
            Piece::Plain(b" "),
            Piece::Number(count),
            Piece::Word(moments_word(count)),
        ],
    )
}

/// Writes what was done to moments, such as `took back`, how many there are, and the first 16 of them, without a line end.
pub fn put_turned<W: Output>(out: &mut W, did: &'static [u8], it: &Turned) -> Result<(), WriteFault>
    ensures text { Writes (W.contents out.old) (W.contents out.new) result (turned_text did.now it.now) }
    ensures refused { OnErr result (W.has_refused out.new) }
{
    let rows = it.rows.as_slice();
    let more = it.count.saturating_sub(rows.len() as u64);
    match put_head(out, did, it.count) {
        Ok(()) => put_told(out, rows, more),
        Err(fault) => Err(fault),
    }
}
