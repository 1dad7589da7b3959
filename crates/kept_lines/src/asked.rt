//! The move of the journal that a line asks for.

ghost use Rattle.std.specs.Prelude.{◌≡◌, IfOk};
ghost use Rattle.bt_syntax.specs.Steps.{line_read};
ghost use Rattle.kept_lines.specs.Noting.{move_of, move_in, with_own};

use bt_syntax::{Command, JournalCommand, SyntaxFault, parse_line};
use host_words::NoMemory;
use kept_file::KeptEvent;
use std::alloc::Global;

// The move that a command on the journal asks for. A taking out gets its own serial when it is done.
fn move_of(command: JournalCommand) -> Option<KeptEvent>
    ensures { result ≡ move_of command }
{
    match command {
        JournalCommand::Mark(name) => Some(KeptEvent::Marked(name)),
        JournalCommand::Undo(Some(name)) => Some(KeptEvent::UndoneTo(name)),
        JournalCommand::Undo(None) => Some(KeptEvent::UndoneLast),
        JournalCommand::Redo => Some(KeptEvent::Redone),
        JournalCommand::List => None,
        JournalCommand::Forget(name) => Some(KeptEvent::Forgot(name)),
        JournalCommand::Without(serial) => Some(KeptEvent::TakenOut { serial, own: 0 }),
    }
}

/// The move of the journal that a line asks for, if it asks for one. Takes memory.
pub(crate) fn asked(alloc: Global, line: &[u8]) -> Result<Option<KeptEvent>, NoMemory>
    ensures { IfOk result (λ event. event ≡ move_in (line_read line.now)) }
{
    match parse_line(alloc, line) {
        Ok(Some(Command::Journal(command))) => Ok(move_of(command)),
        Ok(_) => Ok(None),
        Err(SyntaxFault::NoMemory) => Err(NoMemory),
        Err(_) => Ok(None),
    }
}

/// A move that was accepted, with its own serial if it is a taking out.
pub(crate) fn with_own(event: KeptEvent, own: u64) -> KeptEvent
    ensures { result ≡ with_own own event }
{
    match event {
        KeptEvent::TakenOut { serial, .. } => KeptEvent::TakenOut { serial, own },
        other => other,
    }
}
