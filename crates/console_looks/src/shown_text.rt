//! A change that is shown, written.

ghost use Rattle.std.specs.Prelude.{◌≡◌, ◌++◌, OnErr};
ghost use Rattle.console_text.specs.Written.{Writes};
ghost use Rattle.console_text.specs.Text.{piece_text};
ghost use Rattle.console_looks.specs.LookText.{then_text, behind_text, found_change_text, older_text, shown_text};

use crate::place::{key_of, name_of, place_of};
use crate::shown::{ChangeShown, Showing};
use crate::stood::stood_of;
use console_answer::Fault;
use console_text::{Output, Piece, WriteFault, put_fault, put_made, put_pieces};
use host_state::AskReply;

/// A label, and what stood there after it; no byte if nothing was asked.
type Labelled<'a> = (Piece<'a>, Piece<'a>, Piece<'a>);

fn labelled<'a>(label: &'static [u8], key: &[u8], answer: &'a Option<AskReply>) -> Labelled<'a>
    ensures { piece_text result.0 ++ (piece_text result.1 ++ piece_text result.2) ≡ then_text label.now key.now answer.now }
{
    match answer {
        Some(answer) => {
            let (what, value) = stood_of(key, answer);
            (Piece::Plain(label), what, value)
        }
        None => (Piece::Plain(b""), Piece::Plain(b""), Piece::Plain(b"")),
    }
}

// Writes what comes after the row of a change that is shown, with its line end.
fn put_behind<W: Output>(out: &mut W, it: &ChangeShown) -> Result<(), WriteFault>
    ensures text { Writes (W.contents out.old) (W.contents out.new) result (behind_text it.now) }
    ensures refused { OnErr result (W.has_refused out.new) }
{
    let key = key_of(&it.change);
    let (naming, name) = name_of(&it.change);
    let (placing, place) = place_of(&it.change);
    let (before, was, was_value) = labelled(b" before: ", key, &it.before);
    let (after, is, is_value) = labelled(b" after: ", key, &it.after);
    put_pieces(
        out,
        &[
            naming,
            name,
            placing,
            place,
            before,
            was,
            was_value,
            after,
            is,
            is_value,
            Piece::Plain(b"\n"),
        ],
    )
}

// Writes a change that is shown, on a line.
fn put_change<W: Output>(out: &mut W, it: &ChangeShown) -> Result<(), WriteFault>
    ensures text { Writes (W.contents out.old) (W.contents out.new) result (found_change_text it.now) }
    ensures refused { OnErr result (W.has_refused out.new) }
{
    match put_made(out, &it.row) {
        Ok(()) => put_behind(out, it),
        Err(fault) => Err(fault),
    }
}

// Writes where the journal begins, after the serial that was asked for.
fn put_older<W: Output>(out: &mut W, oldest: u64) -> Result<(), WriteFault>
    ensures text { Writes (W.contents out.old) (W.contents out.new) result (older_text oldest) }
    ensures refused { OnErr result (W.has_refused out.new) }
{
    put_pieces(
        out,
        &[
            Piece::Plain(b"Error: joined the base, or was undone: the journal begins at "),
            Piece::Number(oldest),
            Piece::Plain(b"\n"),
        ],
    )
}

/// Writes what there is to show of a serial, on a line: who made the change, what it did, where, and what stood there before and
/// after it; or that no change in force has the serial.
pub fn put_shown<W: Output>(out: &mut W, it: &Showing) -> Result<(), WriteFault>
    ensures text { Writes (W.contents out.old) (W.contents out.new) result (shown_text it.now) }
    ensures refused { OnErr result (W.has_refused out.new) }
{
    match it {
        Showing::Found(it) => put_change(out, it),
        Showing::NotInForce => put_fault(out, Fault::NotInForce),
        Showing::Older(oldest) => put_older(out, *oldest),
    }
}
