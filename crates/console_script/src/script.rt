//! A script: its lines run against a book, in order, and the text of each answer written.

ghost use Rattle.std.specs.Prelude.{◌≡◌, IfOk, OnErr};
ghost use Rattle.console_script.specs.Lines.{line_text};
ghost use Rattle.console_script.specs.Supplied.{AreSupplied};
ghost use Rattle.console_script.specs.Tallies.{tallied};
ghost use Rattle.console_script.specs.Transcript.{Ran};
ghost use Rattle.console_text.specs.Written.{Writes};

use crate::dialogue::Dialogue;
use crate::summary::Summary;
use crate::tally::Tally;
use bt_console::{Book, Supply, put_line};
use bt_mapkind::MapKind;
use bt_syntax::{Script, first_line};
use console_answer::Answer;
use console_text::Output;
use std::alloc::Global;
use thiserror::Error;

/// Why a script was not run to its end.
#[derive(Clone, Copy, PartialEq, Eq, Debug, Error)]
pub enum ScriptFault {
    /// A write failed or took no byte.
    #[error("cannot write")]
    Write,
}

/// Tallies what a line answered, and writes its text.
pub fn tell<W: Output>(
    out: &mut W,
    tally: Tally,
    answer: Option<Answer>,
) -> Result<Tally, ScriptFault>
    ensures text { Writes (W.contents out.old) (W.contents out.new) result (line_text answer) }
    ensures counts { IfOk result (λ counts. counts ≡ tallied tally answer) }
    ensures refused { OnErr result (W.has_refused out.new) }
{
    match put_line(out, &answer) {
        Ok(()) => Ok(tally.with(&answer)),
        Err(_) => Err(ScriptFault::Write),
    }
}

/// Runs the lines of a script against a book, in order, and writes the text of each answer: how many lines were accepted
/// and refused. A script goes on after a refusal.
///
/// A `batch file` runs the lines of its file in place of its own, up to the first that is refused, and then tells how many
/// were accepted. It counts by its lines; if its file is not among those of the script it is refused.
///
/// The supplier is asked for a box at each `map create` of good attributes, when the line is read, and the line owns that
/// box, whether or not the book then takes it. If it has none for lack of memory, the line answers `no memory`; if
/// its stock is at its end, `wrong blank`, unless the book refuses the map for another reason. No run is open at the start,
/// and those that are open at the end are dropped.
///
/// Texts are written without memory. If memory runs out within a line, that line answers `no memory` and changes
/// nothing. On [`ScriptFault::Write`] the line whose text was being written has been done and no later one, and of the
/// texts a front was written.
pub fn run_script<K: MapKind, S: Supply<K>, W: Output>(
    alloc: Global,
    book: &mut Book<K>,
    script: &Script,
    supply: &mut S,
    out: &mut W,
) -> Result<Summary, ScriptFault>
    ensures ran { Ran (W.contents out.old) (W.contents out.new) book.old.plain
        (λ run. AreSupplied S.gives K.seen supply.old run supply.new) script.now.files.items script.now.text.items book.new.plain result }
    ensures refused { OnErr result (W.has_refused out.new) }
{
    let mut dialogue = Dialogue::new(alloc);
    let mut rest = script.text.as_slice();
    'lines: while !rest.is_empty() {
        let (line, after) = first_line(rest);
        rest = after;
        match dialogue.run(alloc, book, supply, script.files.as_slice(), line, out) {
            Ok(_) => {}
            Err(fault) => return Err(fault),
        }
    }
    Ok(dialogue.summary())
}
