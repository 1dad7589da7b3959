//! The log of a book in a file, for the line that asks for it.

ghost use Rattle.std.specs.Prelude.{IfOk, IfErr, string_bytes};
ghost use Rattle.bpfcon.specs.Book.{TellsLogOf, LogsOn};
ghost use Rattle.bpfcon.specs.Ends.{EndsBook};

use crate::fault::Fault;
use crate::refused::refuse;
use console_answer::Fault as LineFault;
use console_script::Summary;
use console_text::Output;
use kept_host::{Databases, LogLine, log_in_file};

// Writes the last so many events of the book in a file, or all. Of a file that is not there nothing is written, and none is made.
fn tell<R: Databases + AllocGlobal, W: Output>(
    rt: &R,
    file: String,
    wait: u32,
    most: Option<u64>,
    out: &mut W,
) -> Result<Summary, Fault>
    ensures ran { IfOk result (TellsLogOf (R.may_be_there rt.now (string_bytes file)) (R.may_open rt.now (string_bytes file) wait) most (W.contents out.old) (W.contents out.new)) }
    ensures only { IfErr result (EndsBook (W.has_refused out.new)) }
{
    if !rt.is_there(file.as_str()) {
        return Ok(Summary {
            accepted: 1,
            refused: 0,
        });
    }
    match log_in_file(rt, file.as_str(), wait, most, out) {
        Ok(()) => Ok(Summary {
            accepted: 1,
            refused: 0,
        }),
        Err(fault) => Err(Fault::OfLog { file, fault }),
    }
}

/// Does what a line asks that begins as one that asks for a log, on the book that a file keeps.
///
/// # Errors
/// `OfLog` if the file is not opened, or its log not read or not written; `CannotWrite` if it is not written that the line is wrong.
pub fn log_on_book<R: Eprint + Databases + AllocGlobal, W: Output>(
    rt: &R,
    file: String,
    wait: u32,
    line: &[u8],
    asked: LogLine,
    out: &mut W,
) -> Result<Summary, Fault>
    ensures ran { IfOk result (LogsOn (R.may_be_there rt.now (string_bytes file)) (R.may_open rt.now (string_bytes file) wait) asked (W.contents out.old) (W.contents out.new)) }
    ensures only { IfErr result (EndsBook (W.has_refused out.new)) }
{
    match asked {
        LogLine::Asks(most) => tell(rt, file, wait, most, out),
        LogLine::Wrong(word) => {
            let advice = "after `journal log` comes how many events, or nothing";
            refuse(rt, line, LineFault::Syntax(word), advice, out)
        }
    }
}
