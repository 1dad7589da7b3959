//! One line done, noted and answered.

ghost use Rattle.std.specs.Prelude.{◌≡◌, ◌∷◌, ℕ, List, None, Some, Ok, IfOk, OnOk};
ghost use Rattle.console_answer.specs.declared.answer.Answer.TheVariants.{Refused};
ghost use Rattle.console_answer.specs.declared.fault.Fault.TheVariants.{NoFile};
ghost use Rattle.console_script.specs.Frames.{console_of};
ghost use Rattle.console_script.specs.Supply.{LineRuns};
ghost use Rattle.console_script.specs.Lines.{line_text};
ghost use Rattle.console_script.specs.Telling.{TellsLine};
ghost use Rattle.std.specs.Io.KnownBytes.{Appends};
ghost use Rattle.console_script.specs.Running.{LeadsOn};
ghost use Rattle.console_script.specs.Tallies.{fresh, tallied};
ghost use Rattle.console_script.specs.Transcript.{session_of};
ghost use Rattle.kept_lines.specs.Noting.{LeadsFurther};

use crate::asked::asked;
use crate::batch::keep_batch;
use crate::group::Group;
use crate::note::note;
use bt_journal::Book;
use bt_mapkind::MapKind;
use bt_syntax::{FileText, batch_path, file_at};
use console_answer::{Answer, Fault, Told};
use console_script::{Runs, Summary, Supply, Tally, put_line, tell_line};
use kept_file::KeepFault;
use std::alloc::Global;

/// Does one line that runs no batch, and adds what it noted and answered to the group.
pub(crate) fn keep_line<K: MapKind, S: Supply<K>>(
    alloc: Global,
    book: &mut Book<K>,
    runs: &mut Runs,
    supply: &mut S,
    files: &[FileText],
    line: &[u8],
    group: &mut Group,
) -> Result<Told, KeepFault>
    ensures tells { IfOk result (λ told. TellsLine
        (λ answer. LineRuns S.gives K.seen files.now (console_of book.old.plain runs.old) supply.old line.now (console_of book.new.plain runs.new, answer) supply.new)
        (Some group.old.text.items) (Some group.new.text.items) (Ok told)) }
    ensures notes { OnOk result (LeadsFurther book.old.plain group.old.events.items book.new.plain group.new.events.items) }
{
    book.is_well();
    let since = book.last_serial();
    let asked = asked(alloc, line)?;
    match tell_line(alloc, book, runs, supply, files, line, &mut group.text) {
        Ok(told) => {
            note(alloc, book, since, asked, told, &mut group.events)?;
            Ok(told)
        }
        Err(_) => Err(KeepFault::NoMemory),
    }
}

/// Adds an answer to the group, and tallies it.
pub(crate) fn tell(
    group: &mut Group,
    tally: Tally,
    answer: Option<Answer>,
) -> Result<Tally, KeepFault>
    ensures text { OnOk result (Appends (Some group.old.text.items) (Some group.new.text.items) (line_text answer)) }
    ensures counts { IfOk result (λ counts. counts ≡ tallied tally answer) }
    ensures events { group.new.events ≡ group.old.events }
{
    match put_line(&mut group.text, &answer) {
        Ok(()) => Ok(tally.with(&answer)),
        Err(_) => Err(KeepFault::NoMemory),
    }
}

/// Does one line, or the batch that it names.
pub(crate) fn keep_line_or_batch<K: MapKind, S: Supply<K>>(
    alloc: Global,
    book: &mut Book<K>,
    runs: &mut Runs,
    supply: &mut S,
    files: &[FileText],
    line: &[u8],
    summary: Summary,
    group: &mut Group,
) -> Result<Tally, KeepFault>
    ensures leads { (left : List (List ℕ)) → IfOk result (λ tally. LeadsOn S.gives K.seen files.now supply.old
        (session_of (console_of book.old.plain runs.old) summary (line.now ∷ left) None) (Some group.old.text.items)
        supply.new (session_of (console_of book.new.plain runs.new) tally.summary left None) (Some group.new.text.items) tally.mishap) }
    ensures notes { OnOk result (LeadsFurther book.old.plain group.old.events.items book.new.plain group.new.events.items) }
{
    let Some(path) = batch_path(line) else {
        let told = keep_line(alloc, book, runs, supply, files, line, group)?;
        return Ok(Tally::fresh(summary).with_told(told));
    };
    match file_at(files, path) {
        Some(text) => keep_batch(alloc, book, runs, supply, files, text, summary, group),
        None => tell(
            group,
            Tally::fresh(summary),
            Some(Answer::Refused(Fault::NoFile)),
        ),
    }
}
