//! The text of why a line was refused, written without memory: all that can follow `Error: `.

ghost use Rattle.std.specs.Prelude.{◌≡◌, OnErr};
ghost use Rattle.console_answer.specs.declared.fault.Fault.TheVariants.{Errno as OfErrno};
ghost use Rattle.console_text.specs.Written.{Writes};
ghost use Rattle.console_text.specs.Text.{errno_name, fault_text};

use crate::output::{Output, WriteFault};
use crate::piece::{Piece, put, put_numbered, put_pieces};
use crate::prog_text::{put_decode, put_verify};
use bt_mapkind::Errno;
use console_answer::Fault;

fn errno_name(errno: Errno) -> &'static [u8]
    ensures { result.now ≡ errno_name errno }
{
    match errno {
        Errno::EPERM => b"EPERM",
        Errno::ENOENT => b"ENOENT",
        Errno::E2BIG => b"E2BIG",
        Errno::ENOMEM => b"ENOMEM",
        Errno::EBUSY => b"EBUSY",
        Errno::EEXIST => b"EEXIST",
        Errno::EINVAL => b"EINVAL",
        Errno::ENOSPC => b"ENOSPC",
    }
}

fn put_errno<W: Output>(out: &mut W, errno: Errno) -> Result<(), WriteFault>
    ensures text { Writes (W.contents out.old) (W.contents out.new) result (fault_text (OfErrno errno)) }
    ensures refused { OnErr result (W.has_refused out.new) }
{
    put_pieces(
        out,
        &[
            Piece::Plain(b"Error: "),
            Piece::Plain(errno_name(errno)),
            Piece::Plain(b" (-"),
            Piece::Number(u64::from(errno.number())),
            Piece::Plain(b")\n"),
        ],
    )
}

/// Writes why a line was refused.
pub fn put_fault<W: Output>(out: &mut W, fault: Fault) -> Result<(), WriteFault>
    ensures text { Writes (W.contents out.old) (W.contents out.new) result (fault_text fault) }
    ensures refused { OnErr result (W.has_refused out.new) }
{
    match fault {
        Fault::Errno(errno) => put_errno(out, errno),
        Fault::Syntax(word) => put_numbered(out, b"Error: syntax at word ", word as u64),
        Fault::TooLong => put(out, b"Error: line too long\n"),
        Fault::Ambiguous => put(out, b"Error: ambiguous\n"),
        Fault::JournalFull => put(out, b"Error: journal full\n"),
        Fault::BudgetFull => put(out, b"Error: budget full\n"),
        Fault::SerialsSpent => put(out, b"Error: serials spent\n"),
        Fault::IdsSpent => put(out, b"Error: ids spent\n"),
        Fault::WrongBlank => put(out, b"Error: wrong blank\n"),
        Fault::NoMemory => put(out, b"Error: no memory\n"),
        Fault::NoMark => put(out, b"Error: no mark\n"),
        Fault::MarkForgotten => put(out, b"Error: mark forgotten\n"),
        Fault::MarkTaken => put(out, b"Error: mark taken\n"),
        Fault::NothingToUndo => put(out, b"Error: nothing to undo\n"),
        Fault::NothingToRedo => put(out, b"Error: nothing to redo\n"),
        Fault::RedoLost(serial) => put_numbered(out, b"Error: redo lost ", serial),
        Fault::StillTakenOut(serial) => put_numbered(out, b"Error: still taken out ", serial),
        Fault::NotInForce => put(out, b"Error: not in force\n"),
        Fault::DependsOn(serial) => put_numbered(out, b"Error: depends on ", serial),
        Fault::NoRun => put(out, b"Error: no run\n"),
        Fault::RunsFull => put(out, b"Error: runs full\n"),
        Fault::NoFile => put(out, b"Error: no file\n"),
        Fault::NestedBatch => put(out, b"Error: nested batch\n"),
        Fault::Decode(fault) => put_decode(out, fault),
        Fault::Verify(fault) => put_verify(out, fault),
    }
}
