//! What an operator is told on standard error of a line that was refused, or whose program was aborted, and of a whole run.

ghost use Rattle.std.specs.Prelude.{◌≡◌, IfErr};
ghost use Rattle.std.specs.Io.KnownBytes.{Keeps};
ghost use Rattle.bpfcon.specs.Ends.{EndsLines};

use crate::fault::Fault;
use bt_journal::Book;
use bt_mapkind::MapKind;
use bt_syntax::FileText;
use console_answer::Mishap;
use console_hint::Place;
use console_input::FileReader;
use console_text::Output;
use thread_asides::tell_mishap;

/// Tells on standard error what went wrong in a line. What was written so far stands on the output before that. Nothing of
/// the host is changed.
///
/// # Errors
/// `CannotWrite`, and nothing was told.
#[inline(never)]
pub fn explain<R: FileReader + Eprint + AllocGlobal, K: MapKind, W: Output>(
    rt: &R,
    book: &mut Book<K>,
    files: &[FileText],
    place: Place<'_>,
    mishap: Mishap,
    out: &mut W,
) -> Result<(), Fault>
    ensures same { book.new.plain ≡ book.old.plain }
    ensures written { Keeps (W.contents out.old) (W.contents out.new) }
    ensures only { IfErr result (EndsLines (W.has_refused out.new)) }
{
    match out.flush_all() {
        Ok(()) => {
            tell_mishap(rt, book, files, place, mishap);
            Ok(())
        }
        Err(_) => Err(Fault::CannotWrite),
    }
}

/// Tells on standard error how many lines were refused, if any was.
pub fn tell_count<R: Eprint>(rt: &R, refused: u64) {
    let _ = match refused {
        0 => Ok(()),
        1 => eprintln!(rt; "bpfcon: 1 line refused"),
        count => eprintln!(rt; "bpfcon: {count} lines refused"),
    };
}
