//! A range of changes taken out of the book in a file, for the line that spells it.

ghost use Rattle.std.specs.Prelude.{IfOk, IfErr, string_bytes};
ghost use Rattle.kept_host.specs.Ranges.{TakesInFile};
ghost use Rattle.bpfcon.specs.Book.{TakesOn};
ghost use Rattle.bpfcon.specs.Ends.{EndsBook};

use crate::fault::Fault;
use crate::refused::refuse;
use console_answer::Fault as LineFault;
use console_hint::advice;
use console_input::FileReader;
use console_script::Summary;
use console_text::Output;
use kept_host::{Databases, InFileFault, SerialRange, Taken, Terms, host_terms, take_in_file};
use thread_asides::{Beside, LineOrigin};

// Takes the range that a line spells out of the book in the file of this path.
fn take_at<R: FileReader + Eprint + Databases + AllocGlobal, W: Output>(
    rt: &R,
    path: &str,
    wait: u32,
    terms: Terms,
    line: &[u8],
    range: SerialRange,
    out: &mut W,
) -> Result<Taken, InFileFault>
    ensures { TakesInFile (R.may_open rt.now path.now wait) (R.may_be_time rt.now) terms range (W.contents out.old) (W.contents out.new) result }
{
    let mut beside = Beside::new(rt, b"command", path, LineOrigin::Line);
    take_in_file(rt, path, wait, terms, line, range, &mut beside, out)
}

/// Takes the range of changes that a line spells out of the book that a file keeps, or none of them. If the file is not there no
/// change is in force, and no file is made.
///
/// # Errors
/// `OfFile` if the file is not opened, or if what is taken out is not kept or not answered; `CannotWrite` if it is not written that no
/// change is in force where there is no file; `NoMemory` before the file is opened.
pub fn take_on_book<R: FileReader + Eprint + Databases + AllocGlobal, W: Output>(
    rt: &R,
    file: String,
    wait: u32,
    line: &[u8],
    range: SerialRange,
    out: &mut W,
) -> Result<Summary, Fault>
    ensures ran { IfOk result (TakesOn (R.may_be_there rt.now (string_bytes file)) (R.may_open rt.now (string_bytes file) wait) (R.may_be_time rt.now) range (W.contents out.old) (W.contents out.new)) }
    ensures only { IfErr result (EndsBook (W.has_refused out.new)) }
{
    if !rt.is_there(file.as_str()) {
        let fault = LineFault::NotInForce;
        return refuse(rt, line, fault, advice(fault), out);
    }
    let terms = host_terms(rt.alloc())?;
    match take_at(rt, file.as_str(), wait, terms, line, range, out) {
        Ok(taken) => Ok(taken.counts()),
        Err(fault) => Err(Fault::OfFile { file, fault }),
    }
}
