//! What holds of every line, each the contract of a function that does nothing.

ghost use Rattle.std.specs.Prelude.{ℕ, Bool, List, Option};
ghost use Rattle.journal_model.specs.Blank.{Blank};
ghost use Rattle.journal_model.specs.Book.{PlainBook};
ghost use Rattle.bt_syntax.specs.declared.command.Command.{Command};
ghost use Rattle.bt_syntax.specs.declared.files.FileText.{FileText};
ghost use Rattle.bt_syntax.specs.declared.frame.Frame.{Frame};
ghost use Rattle.bt_console.specs.Commands.{Course};
ghost use Rattle.bt_console.specs.Frames.{Console};
ghost use Rattle.bt_console.specs.Laws.{RefusedChangesNothing, IsOneEvent, IsStartAndAccesses, IsOneAccessAtMost};

/// A line that is refused leaves the book and the open runs as they were.
pub fn a_refused_line_changes_nothing()
    ensures { (files : List FileText) (c : Console) (course : Course) (blank : Option Blank) (line : List ℕ) → RefusedChangesNothing files c course blank line }
{}

/// A command that is no frame is one event of the book: a change, a call of the journal, or an access of a run; if it only
/// asks, a question.
pub fn a_command_is_one_event_unless_it_is_a_frame()
    ensures { (c : Console) (course : Course) (command : Command) (blank : Option Blank) → IsOneEvent c course command blank }
{}

/// A frame is an event that starts it, and then events that are the accesses of programs, which are journaled as any.
pub fn a_frame_is_a_start_and_its_accesses()
    ensures { (b : PlainBook) (wants : List Bool) (frame : Frame) → IsStartAndAccesses b wants frame }
{}

/// A step of a run is one access of a program at most.
pub fn a_step_is_one_access_at_most()
    ensures { (c : Console) (wants : List Bool) (number : ℕ) → IsOneAccessAtMost c wants number }
{}
