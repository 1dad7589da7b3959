//! A dialogue: lines that are run one by one, as they are given.

ghost use Rattle.std.specs.Prelude.{◌≡◌, ◌∷◌, ℕ, true, List, None, Some, Ok, IfOk, OnErr};
ghost use Rattle.console_answer.specs.declared.answer.Answer.TheVariants.{Refused};
ghost use Rattle.console_answer.specs.declared.fault.Fault.TheVariants.{NoFile};
ghost use Rattle.console_script.specs.Lines.{line_text};
ghost use Rattle.console_script.specs.Tallies.{fresh, tallied};
ghost use Rattle.console_text.specs.Written.{Writes};
ghost use Rattle.bt_syntax.specs.Steps.{line_read};
ghost use Rattle.console_script.specs.Frames.{console_of};
ghost use Rattle.console_script.specs.Running.{LeadsTo};
ghost use Rattle.console_script.specs.Transcript.{session_of};

use crate::batch::run_batch;
use crate::script::{ScriptFault, tell};
use crate::summary::Summary;
use crate::tally::Tally;
use crate::telling::tell_line;
use bt_console::{Book, Runs, Supply};
use bt_mapkind::MapKind;
use bt_syntax::{FileText, LINE_MAX, batch_path, file_at};
use console_answer::{Answer, Fault};
use console_operand::first_word;
use console_text::Output;
use std::alloc::Global;
use std::marker::Model;

// Tells that the file of a batch is not at hand.
#[inline(never)]
fn tell_no_file<W: Output>(out: &mut W, summary: Summary) -> Result<Tally, ScriptFault>
    ensures text { Writes (W.contents out.old) (W.contents out.new) result (line_text (Some (Refused NoFile))) }
    ensures counts { IfOk result (λ tally. tally ≡ tallied (fresh summary) (Some (Refused NoFile))) }
    ensures refused { OnErr result (W.has_refused out.new) }
{
    tell(
        out,
        Tally::fresh(summary),
        Some(Answer::Refused(Fault::NoFile)),
    )
}

// Runs one line, or the batch that it names.
#[inline(never)]
fn run_line_or_batch<K: MapKind, S: Supply<K>, W: Output>(
    alloc: Global,
    book: &mut Book<K>,
    runs: &mut Runs,
    supply: &mut S,
    files: &[FileText],
    line: &[u8],
    summary: Summary,
    out: &mut W,
) -> Result<Tally, ScriptFault>
    ensures leads { (left : List (List ℕ)) → LeadsTo S.gives K.seen files.now supply.old
        (session_of (console_of book.old.plain runs.old) summary (line.now ∷ left) None) (W.contents out.old)
        supply.new (console_of book.new.plain runs.new) left (W.contents out.new) result }
    ensures refused { OnErr result (W.has_refused out.new) }
{
    let Some(path) = batch_path(line) else {
        return match tell_line(alloc, book, runs, supply, files, line, out) {
            Ok(told) => Ok(Tally::fresh(summary).with_told(told)),
            Err(_) => Err(ScriptFault::Write),
        };
    };
    match file_at(files, path) {
        Some(text) => run_batch(alloc, book, runs, supply, files, text, summary, out),
        None => tell_no_file(out, summary),
    }
}

// Whether a line is one without words, which does nothing and answers nothing.
#[inline(always)]
fn has_no_words(line: &[u8]) -> bool
    ensures { result ≡ true → line_read line.now ≡ Ok None }
{
    if line.len() > LINE_MAX {
        return false;
    }
    match first_word(line) {
        Some(_) => false,
        None => true,
    }
}

/// What stands between the lines of a dialogue: the open runs, and how many lines were accepted and refused.
#[derive(Drop)]
pub struct Dialogue {
    runs: Runs,
    summary: Summary,
}

impl Model for Dialogue {
    ghost use Rattle.console_script.specs.Dialogue.{DialogueView};

    ghost Value = { DialogueView };

    ghost view = { λ d. record { runs = d.runs; summary = d.summary } };
}

impl Dialogue {
    ghost use Rattle.std.specs.Prelude.{◌≡◌, ◌∷◌, ℕ, List, None, IfOk, OnErr};
    ghost use Rattle.console_script.specs.Dialogue.{unspoken};

    /// A dialogue before its first line: no run is open.
    pub fn new(alloc: Global) -> Dialogue
        ensures { result ≡ unspoken }
    {
        Dialogue {
            runs: Runs::new(alloc),
            summary: Summary {
                accepted: 0,
                refused: 0,
            },
        }
    }

    /// How many lines were accepted and refused so far.
    pub fn summary(&self) -> Summary
        ensures { result ≡ self.now.summary }
    {
        self.summary
    }

    /// The open runs.
    pub fn runs(&self) -> &Runs
        ensures { result.now ≡ self.now.runs }
    {
        &self.runs
    }

    /// Runs one line, without its line feed, as a script that has come to it does: it does what the line says, or the batch
    /// that the line names, writes the text of each answer, and hands over how many lines were accepted and refused so far,
    /// and what went wrong in this one, of a batch the last that did. `files` are those that the line names, and those that
    /// these name.
    ///
    /// On [`ScriptFault::Write`] the line whose text was being written has been done, and of the texts a front was written.
    #[inline(always)]
    pub fn run<K: MapKind, S: Supply<K>, W: Output>(
        &mut self,
        alloc: Global,
        book: &mut Book<K>,
        supply: &mut S,
        files: &[FileText],
        line: &[u8],
        out: &mut W,
    ) -> Result<Tally, ScriptFault>
        ensures leads { (left : List (List ℕ)) → LeadsTo S.gives K.seen files.now supply.old
            (session_of (console_of book.old.plain self.old.runs) self.old.summary (line.now ∷ left) None) (W.contents out.old)
            supply.new (console_of book.new.plain self.new.runs) left (W.contents out.new) result }
        ensures counts { IfOk result (λ tally. tally.summary ≡ self.new.summary) }
        ensures uncounted { OnErr result (self.new.summary ≡ self.old.summary) }
        ensures refused { OnErr result (W.has_refused out.new) }
    {
        if has_no_words(line) {
            return Ok(Tally::fresh(self.summary));
        }
        let runs = &mut self.runs;
        match run_line_or_batch(alloc, book, runs, supply, files, line, self.summary, out) {
            Ok(tally) => {
                self.summary = tally.summary;
                Ok(tally)
            }
            Err(fault) => Err(fault),
        }
    }
}
