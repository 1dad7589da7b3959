//! The text of an answer, written without memory. What a command lists, and why a line was refused, are in files of their own.

ghost use Rattle.std.specs.Prelude.{OnErr};
ghost use Rattle.host_state.specs.declared.reply.Reply.TheVariants.{Id};
ghost use Rattle.console_text.specs.Written.{Writes};
ghost use Rattle.console_text.specs.Text.{change_text, marked_text, forgot_text, next_text, undone_text, processed_text, text_of};

use crate::fault_text::put_fault;
use crate::frame_text::{put_accessed, put_end, put_started, put_stopped};
use crate::journal_text::put_journal;
use crate::listed::{put_dump, put_found, put_linked, put_rows, put_value};
use crate::net_text::put_devices;
use crate::output::{Output, WriteFault};
use crate::piece::{Piece, put, put_numbered, put_pieces};
use crate::prog_text::{put_code, put_progs};
use console_answer::{Answer, ShortAnswer, ShortForm};
use host_state::Reply;

// Writes the id of what a change made.
fn put_made<W: Output>(out: &mut W, serial: u64, id: u32) -> Result<(), WriteFault>
    ensures text { Writes (W.contents out.old) (W.contents out.new) result (change_text serial (Id id)) }
    ensures refused { OnErr result (W.has_refused out.new) }
{
    put_pieces(
        out,
        &[
            Piece::Plain(b"ok "),
            Piece::Number(serial),
            Piece::Plain(b" id "),
            Piece::Number(u64::from(id)),
            Piece::Plain(b"\n"),
        ],
    )
}

fn put_change<W: Output>(out: &mut W, serial: u64, reply: &Reply) -> Result<(), WriteFault>
    ensures text { Writes (W.contents out.old) (W.contents out.new) result (change_text serial reply.now) }
    ensures refused { OnErr result (W.has_refused out.new) }
{
    match reply {
        Reply::Done => put_pieces(
            out,
            &[
                Piece::Plain(b"ok "),
                Piece::Number(serial),
                Piece::Plain(b"\n"),
            ],
        ),
        Reply::Old(_) => put_pieces(
            out,
            &[
                Piece::Plain(b"ok "),
                Piece::Number(serial),
                Piece::Plain(b"\n"),
            ],
        ),
        Reply::Id(id) => put_made(out, serial, *id),
        Reply::Loaded(id) => put_made(out, serial, *id),
        Reply::Value(value) => put_pieces(
            out,
            &[
                Piece::Plain(b"ok "),
                Piece::Number(serial),
                Piece::Plain(b" value: "),
                Piece::Bytes(value.as_slice()),
                Piece::Plain(b"\n"),
            ],
        ),
    }
}

fn put_next<W: Output>(out: &mut W, key: &[u8]) -> Result<(), WriteFault>
    ensures text { Writes (W.contents out.old) (W.contents out.new) result (next_text key.now) }
    ensures refused { OnErr result (W.has_refused out.new) }
{
    put_pieces(
        out,
        &[
            Piece::Plain(b"next key: "),
            Piece::Bytes(key),
            Piece::Plain(b"\n"),
        ],
    )
}

fn put_marked<W: Output>(out: &mut W, name: &[u8]) -> Result<(), WriteFault>
    ensures text { Writes (W.contents out.old) (W.contents out.new) result (marked_text name.now) }
    ensures refused { OnErr result (W.has_refused out.new) }
{
    put_pieces(
        out,
        &[
            Piece::Plain(b"marked "),
            Piece::Word(name),
            Piece::Plain(b"\n"),
        ],
    )
}

fn put_forgot<W: Output>(out: &mut W, name: &[u8]) -> Result<(), WriteFault>
    ensures text { Writes (W.contents out.old) (W.contents out.new) result (forgot_text name.now) }
    ensures refused { OnErr result (W.has_refused out.new) }
{
    put_pieces(
        out,
        &[
            Piece::Plain(b"forgot "),
            Piece::Word(name),
            Piece::Plain(b"\n"),
        ],
    )
}

fn put_processed<W: Output>(out: &mut W, count: u64) -> Result<(), WriteFault>
    ensures text { Writes (W.contents out.old) (W.contents out.new) result (processed_text count) }
    ensures refused { OnErr result (W.has_refused out.new) }
{
    put_pieces(
        out,
        &[
            Piece::Plain(b"processed "),
            Piece::Number(count),
            Piece::Plain(b" commands\n"),
        ],
    )
}

fn put_undone<W: Output>(out: &mut W, count: u64) -> Result<(), WriteFault>
    ensures text { Writes (W.contents out.old) (W.contents out.new) result (undone_text count) }
    ensures refused { OnErr result (W.has_refused out.new) }
{
    put_pieces(
        out,
        &[
            Piece::Plain(b"undone "),
            Piece::Number(count),
            Piece::Plain(b"\n"),
        ],
    )
}

/// Writes what a change or a frame answered, one line with its LF. It takes no memory. If a write failed or took no byte, a front of
/// the text was written.
pub fn put_short_answer<W: Output>(out: &mut W, answer: &ShortAnswer) -> Result<(), WriteFault>
    ensures text { Writes (W.contents out.old) (W.contents out.new) result (text_of answer.now) }
    ensures refused { OnErr result (W.has_refused out.new) }
{
    match answer.form() {
        ShortForm::Recorded { serial, reply } => put_change(out, *serial, reply),
        ShortForm::Ended(end) => put_end(out, *end),
        ShortForm::Refused(fault) => put_fault(out, *fault),
    }
}

/// Writes the text of an answer, one line with its LF. It takes no memory. If a write failed or took no byte, a front
/// of the text was written.
pub fn put_answer<W: Output>(out: &mut W, answer: &Answer) -> Result<(), WriteFault>
    ensures text { Writes (W.contents out.old) (W.contents out.new) result (text_of answer.now) }
    ensures refused { OnErr result (W.has_refused out.new) }
{
    match answer {
        Answer::Changed { serial, reply } => put_change(out, *serial, reply),
        Answer::Found { key, value } => put_found(out, key.as_slice(), value.as_slice()),
        Answer::Linked { key, id } => put_linked(out, key.as_slice(), *id),
        Answer::Value(value) => put_value(out, value.as_slice()),
        Answer::NotFound => put(out, b"not found\n"),
        Answer::NextKey(key) => put_next(out, key.as_slice()),
        Answer::NoNextKey => put(out, b"no next key\n"),
        Answer::Shown(rows) => put_rows(out, rows.as_slice()),
        Answer::Dumped(elements) => put_dump(out, elements.as_slice()),
        Answer::Marked(name) => put_marked(out, name.as_slice()),
        Answer::Undone(count) => put_undone(out, *count),
        Answer::Redone => put(out, b"redone 1\n"),
        Answer::Forgot(name) => put_forgot(out, name.as_slice()),
        Answer::TakenOut(serial) => put_numbered(out, b"ok ", *serial),
        Answer::Listed(list) => put_journal(out, list),
        Answer::Progs(rows) => put_progs(out, rows.as_slice()),
        Answer::Code(insns) => put_code(out, insns.as_slice()),
        Answer::Devices(rows) => put_devices(out, rows.as_slice()),
        Answer::Ended(end) => put_end(out, *end),
        Answer::Started(run) => put_started(out, *run),
        Answer::Accessed(run) => put_accessed(out, *run),
        Answer::Stopped { run, end } => put_stopped(out, *run, *end),
        Answer::Processed(count) => put_processed(out, *count),
        Answer::Refused(fault) => put_fault(out, *fault),
    }
}
