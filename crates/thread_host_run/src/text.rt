//! What is written of frames, without memory.

ghost use Rattle.std.specs.Prelude.{OnErr};
ghost use Rattle.std.specs.List.{flat_map};
ghost use Rattle.console_text.specs.Written.{Writes};
ghost use Rattle.thread_host_run.specs.FrameTexts.{end_text, frame_text, naming_text, moments_text, ends_text};

use bt_workers::{FrameEnd, FrameResult};
use console_text::{Output, Piece, WriteFault, put, put_end, put_pieces};
use journal_model::StartFault;

fn put_frame_end<W: Output>(out: &mut W, end: FrameEnd) -> Result<(), WriteFault>
    ensures text { Writes (W.contents out.old) (W.contents out.new) result (end_text end) }
    ensures refused { OnErr result (W.has_refused out.new) }
{
    match end {
        FrameEnd::Ended(end) => put_end(out, end),
        FrameEnd::NotStarted(StartFault::NoDevice) => put(out, b"Error: ENOENT (-2)\n"),
        FrameEnd::NotStarted(StartFault::NoMemory) => put(out, b"Error: no memory\n"),
        FrameEnd::SeatSpent => put(out, b"Error: seat spent\n"),
    }
}

fn put_naming<W: Output>(out: &mut W, number: u64) -> Result<(), WriteFault>
    ensures text { Writes (W.contents out.old) (W.contents out.new) result (naming_text number) }
    ensures refused { OnErr result (W.has_refused out.new) }
{
    put_pieces(
        out,
        &[
            Piece::Plain(b"frame "),
            Piece::Number(number),
            Piece::Plain(b" "),
        ],
    )
}

fn put_frame<W: Output>(out: &mut W, ended: &FrameResult) -> Result<(), WriteFault>
    ensures text { Writes (W.contents out.old) (W.contents out.new) result (frame_text ended.now) }
    ensures refused { OnErr result (W.has_refused out.new) }
{
    match put_naming(out, ended.number) {
        Ok(()) => put_frame_end(out, ended.end),
        Err(fault) => Err(fault),
    }
}

fn put_frames<W: Output>(out: &mut W, ends: &[FrameResult]) -> Result<(), WriteFault>
    ensures text { Writes (W.contents out.old) (W.contents out.new) result (flat_map frame_text ends.now) }
    ensures refused { OnErr result (W.has_refused out.new) }
{
    for row in ends {
        match put_frame(out, row) {
            Ok(()) => {}
            Err(fault) => return Err(fault),
        }
    }
    Ok(())
}

fn put_moments<W: Output>(out: &mut W, moments: u64) -> Result<(), WriteFault>
    ensures text { Writes (W.contents out.old) (W.contents out.new) result (moments_text moments) }
    ensures refused { OnErr result (W.has_refused out.new) }
{
    put_pieces(
        out,
        &[
            Piece::Plain(b"moments "),
            Piece::Number(moments),
            Piece::Plain(b"\n"),
        ],
    )
}

/// Writes how each frame ended, one a line, and then how many moments the book has.
pub(crate) fn put_ends<W: Output>(
    out: &mut W,
    ends: &[FrameResult],
    moments: u64,
) -> Result<(), WriteFault>
    ensures text { Writes (W.contents out.old) (W.contents out.new) result (ends_text ends.now moments) }
    ensures refused { OnErr result (W.has_refused out.new) }
{
    match put_frames(out, ends) {
        Ok(()) => put_moments(out, moments),
        Err(fault) => Err(fault),
    }
}
