//! What holds of every line that takes a change out, the contract of a function that does nothing.

ghost use Rattle.std.specs.Prelude.{◌≡◌, ◌<◌, ◌^◌, ℕ, Ok, Some};
ghost use Rattle.bt_syntax.specs.Steps.{line_read};
ghost use Rattle.bt_syntax.specs.declared.command.Command.TheVariants as command;
ghost use Rattle.bt_syntax.specs.declared.journal.JournalCommand.TheVariants as journal;
ghost use Rattle.kept_host.specs.Taking.{taking_line};

/// The line of a serial is read as the command that takes its change out.
pub fn a_taking_line_is_read()
    ensures { (serial : ℕ) → serial < 2 ^ 64 → line_read (taking_line serial) ≡ Ok (Some (command.Journal (journal.Without serial))) }
{}
