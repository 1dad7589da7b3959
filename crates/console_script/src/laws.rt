//! What holds of every script, each the contract of a function that does nothing.

ghost use Rattle.std.specs.Prelude.{ℕ, List};
ghost use Rattle.journal_model.specs.Book.{PlainBook};
ghost use Rattle.bt_syntax.specs.declared.files.FileText.{FileText};
ghost use Rattle.console_script.specs.Transcript.{Session, Step};
ghost use Rattle.console_script.specs.Laws.{AreOfEvents};
ghost use Rattle.console_script.specs.ByLines.{IsByLines};

/// The lines of a script and of its batches leave the book that some events leave, so what the laws of marks and undo say of
/// every list of events holds of every script.
pub fn a_script_is_a_list_of_events()
    ensures { (files : List FileText) (s : Session) (run : List Step) → AreOfEvents files s run }
{}

/// The transcript of a script that was run to its end is the texts of its lines, one after the other, in order; in place of a
/// line that runs a batch stand the texts of the batch's lines, all of them or up to one that was refused, and of its end.
pub fn a_transcript_is_its_lines_texts()
    ensures { (files : List FileText) (b : PlainBook) (script : List ℕ) (run : List Step) → IsByLines files b script run }
{}
