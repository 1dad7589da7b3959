//! The commands that only a live host has.

ghost use Rattle.std.specs.Prelude.{◌≡◌};
ghost use Rattle.console_operand.specs.Word.{spelled_by};
ghost use Rattle.console_live_words.specs.LiveGrammar.{workers_word, workers_commands};

use host_words::Word;

/// A command that only a live host has.
#[derive(PartialEq, Eq, Debug, Drop)]
pub enum LiveCommand {
    Workers(WorkersCommand),
    /// Marks where the journal stands, under a name, and undoes to it after so many seconds, 1 to 86,400, unless it is
    /// confirmed before.
    Try { name: Word, seconds: u32 },
    /// Keeps what was tried under this name.
    Confirm(Word),
}

/// A command to the workers, the threads that serve frames.
#[derive(Clone, Copy, PartialEq, Eq, Debug)]
pub enum WorkersCommand {
    /// Asks for their counters.
    Show,
    /// Stops them.
    Stop,
    /// Lets them go on.
    Go,
    /// Waits until all passes over the frames are done.
    Wait,
}

impl WorkersCommand {
    /// The command that a word after `workers` spells.
    pub(crate) fn of(word: &[u8]) -> Option<WorkersCommand>
        ensures { result ≡ spelled_by workers_word workers_commands word.now }
    {
        if word == b"show".as_slice() {
            Some(WorkersCommand::Show)
        } else if word == b"stop".as_slice() {
            Some(WorkersCommand::Stop)
        } else if word == b"go".as_slice() {
            Some(WorkersCommand::Go)
        } else if word == b"wait".as_slice() {
            Some(WorkersCommand::Wait)
        } else {
            None
        }
    }
}
