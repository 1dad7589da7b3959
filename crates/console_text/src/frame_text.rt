//! The texts of frames and of runs, written without memory.

ghost use Rattle.std.specs.Prelude.{◌≡◌, OnErr};
ghost use Rattle.console_text.specs.Written.{Writes};
ghost use Rattle.console_text.specs.Text.{action_name, reason_name, aborted_text, ended_text, started_text, accessed_text, naming_run_text, stopped_text};

use crate::output::{Output, WriteFault};
use crate::piece::{Piece, put, put_pieces};
use console_answer::End;
use program_machine::Reason;
use program_step::Action;

fn action_name(action: Action) -> &'static [u8]
    ensures { result.now ≡ action_name action }
{
    match action {
        Action::Aborted => b"XDP_ABORTED",
        Action::Drop => b"XDP_DROP",
        Action::Pass => b"XDP_PASS",
        Action::Tx => b"XDP_TX",
        Action::Redirect => b"XDP_REDIRECT",
    }
}

fn reason_name(reason: Reason) -> &'static [u8]
    ensures { result.now ≡ reason_name reason }
{
    match reason {
        Reason::Gone => b"Gone",
        Reason::OutOfRange => b"OutOfRange",
        Reason::WrongKind => b"WrongKind",
        Reason::Refused => b"Refused",
        Reason::WrongReply => b"WrongReply",
    }
}

/// Writes why a program was aborted.
pub fn put_aborted<W: Output>(out: &mut W, reason: Reason) -> Result<(), WriteFault>
    ensures text { Writes (W.contents out.old) (W.contents out.new) result (aborted_text reason) }
    ensures refused { OnErr result (W.has_refused out.new) }
{
    put_pieces(
        out,
        &[
            Piece::Plain(b"XDP_ABORTED 0 "),
            Piece::Plain(reason_name(reason)),
            Piece::Plain(b"\n"),
        ],
    )
}

/// Writes how a frame ended.
pub fn put_end<W: Output>(out: &mut W, end: End) -> Result<(), WriteFault>
    ensures text { Writes (W.contents out.old) (W.contents out.new) result (ended_text end) }
    ensures refused { OnErr result (W.has_refused out.new) }
{
    match end {
        End::Done(action) => put_pieces(
            out,
            &[
                Piece::Plain(action_name(action)),
                Piece::Plain(b" "),
                Piece::Number(u64::from(action.number())),
                Piece::Plain(b"\n"),
            ],
        ),
        End::Aborted(abort) => put_aborted(out, abort.reason),
        End::NoProgram => put(out, b"XDP_PASS 2 no program\n"),
    }
}

/// Writes that a run began.
pub fn put_started<W: Output>(out: &mut W, run: u64) -> Result<(), WriteFault>
    ensures text { Writes (W.contents out.old) (W.contents out.new) result (started_text run) }
    ensures refused { OnErr result (W.has_refused out.new) }
{
    put_pieces(
        out,
        &[
            Piece::Plain(b"run "),
            Piece::Number(run),
            Piece::Plain(b"\n"),
        ],
    )
}

/// Writes that a run did an access.
pub fn put_accessed<W: Output>(out: &mut W, run: u64) -> Result<(), WriteFault>
    ensures text { Writes (W.contents out.old) (W.contents out.new) result (accessed_text run) }
    ensures refused { OnErr result (W.has_refused out.new) }
{
    put_pieces(
        out,
        &[
            Piece::Plain(b"run "),
            Piece::Number(run),
            Piece::Plain(b" access\n"),
        ],
    )
}

fn put_naming<W: Output>(out: &mut W, run: u64) -> Result<(), WriteFault>
    ensures text { Writes (W.contents out.old) (W.contents out.new) result (naming_run_text run) }
    ensures refused { OnErr result (W.has_refused out.new) }
{
    put_pieces(
        out,
        &[
            Piece::Plain(b"run "),
            Piece::Number(run),
            Piece::Plain(b" "),
        ],
    )
}

/// Writes how a run ended.
pub fn put_stopped<W: Output>(out: &mut W, run: u64, end: End) -> Result<(), WriteFault>
    ensures text { Writes (W.contents out.old) (W.contents out.new) result (stopped_text run end) }
    ensures refused { OnErr result (W.has_refused out.new) }
{
    match put_naming(out, run) {
        Ok(()) => put_end(out, end),
        Err(fault) => Err(fault),
    }
}
