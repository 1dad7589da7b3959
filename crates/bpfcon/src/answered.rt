//! A line that is answered, and what went wrong in it, told.

ghost use Rattle.std.specs.Prelude.{◌≡◌, ◌∷◌, ℕ, List, Option, None, IfOk, IfErr};
ghost use Rattle.console_answer.specs.declared.mishap.Mishap.{Mishap};
ghost use Rattle.bt_console.specs.Frames.{console_of};
ghost use Rattle.console_script.specs.Running.{LeadsOn};
ghost use Rattle.console_script.specs.Transcript.{session_of};
ghost use Rattle.bpfcon.specs.Ends.{EndsLines};

use crate::explain::explain;
use crate::fault::Fault;
use bt_console::Supply;
use bt_journal::Book;
use bt_mapkind::MapKind;
use bt_syntax::FileText;
use console_hint::Place;
use console_input::FileReader;
use console_script::Dialogue;
use console_text::Output;

/// Runs a line as a script that has come to it does, writes the text of each answer, and tells on standard error what went
/// wrong, if something did.
///
/// # Errors
/// `CannotWrite`. The line has been done, and of the texts a front was written.
#[inline(always)]
pub fn answer<R: FileReader + Eprint + AllocGlobal, K: MapKind, S: Supply<K>, W: Output>(
    rt: &R,
    book: &mut Book<K>,
    dialogue: &mut Dialogue,
    supply: &mut S,
    files: &[FileText],
    place: Place<'_>,
    out: &mut W,
) -> Result<(), Fault>
    ensures done { IfOk result (λ _. (left : List (List ℕ)) → (mishap : Option Mishap) × LeadsOn S.gives K.seen files.now supply.old
        (session_of (console_of book.old.plain dialogue.old.runs) dialogue.old.summary (place.entry.line.now ∷ left) None) (W.contents out.old)
        supply.new (session_of (console_of book.new.plain dialogue.new.runs) dialogue.new.summary left None) (W.contents out.new) mishap) }
    ensures only { IfErr result (EndsLines (W.has_refused out.new)) }
{
    let before = dialogue.summary().accepted;
    let tally = match dialogue.run(rt.alloc(), book, supply, files, place.line, out) {
        Ok(tally) => tally,
        Err(_) => return Err(Fault::CannotWrite),
    };
    match tally.mishap {
        None => Ok(()),
        Some(mishap) => {
            let accepted = tally.summary.accepted.saturating_sub(before);
            let wrong = place.refused_behind(files, accepted);
            explain(rt, book, files, wrong, mishap, out)
        }
    }
}
