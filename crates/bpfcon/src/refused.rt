//! A line for the book in a file that is refused before the file is opened.

ghost use Rattle.std.specs.Prelude.{◌≡◌, IfOk, IfErr};
ghost use Rattle.bpfcon.specs.Book.{Refuses};
ghost use Rattle.bpfcon.specs.Ends.{EndsLines};

use crate::fault::Fault;
use console_answer::{Fault as LineFault, Mishap};
use console_hint::{Hint, Place};
use console_script::Summary;
use console_text::{Output, put_fault};
use thread_asides::put_hint;

/// Answers the line of a command with a fault, and tells on standard error what to do about it.
///
/// # Errors
/// `CannotWrite`, and nothing was told.
pub(crate) fn refuse<R: Eprint, W: Output>(
    rt: &R,
    line: &[u8],
    fault: LineFault,
    advice: &'static str,
    out: &mut W,
) -> Result<Summary, Fault>
    ensures refuses { IfOk result (Refuses fault (W.contents out.old) (W.contents out.new)) }
    ensures only { IfErr result (EndsLines (W.has_refused out.new)) }
{
    match put_fault(out, fault) {
        Ok(()) => {}
        Err(_) => return Err(Fault::CannotWrite),
    }
    match out.flush_all() {
        Ok(()) => {}
        Err(_) => return Err(Fault::CannotWrite),
    }
    let place = Place {
        file: b"command",
        number: 1,
        line,
        beside: "",
    };
    put_hint(rt, place, Mishap::Refused(fault), &Hint::Plain(advice));
    Ok(Summary {
        accepted: 0,
        refused: 1,
    })
}
