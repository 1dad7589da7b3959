//! What is told of a line that turned moments: an undo, a redo or a taking out.

ghost use Rattle.std.specs.Prelude.{◌≡◌, Some, Ok, IfSome};
ghost use Rattle.bt_desk.specs.Seats.{IsSeatAt};
ghost use Rattle.bt_syntax.specs.Steps.{line_read};
ghost use Rattle.bt_syntax.specs.declared.command.Command.TheVariants as command;
ghost use Rattle.bt_syntax.specs.declared.journal.JournalCommand.TheVariants as journal;
ghost use Rattle.thread_asides.specs.Turnings.{back_of, out_of, TurnsBy, TurnsSo, Turns, TurnsAt};

use crate::looked::look_out_at;
use bt_desk::{Desk, Seat};
use bt_journal::Book;
use bt_mapkind::MapKind;
use bt_syntax::{Command, JournalCommand, SyntaxFault, parse_line};
use console_hint::Shown;
use console_looks::{Turned, last_moments, put_turned, taken_back, taken_out};
use console_operand::behind_word;
use console_text::put_made;
use host_words::NoMemory;
use journal_model::ChangeRow;
use std::alloc::Global;
use std::sync::Wait;

const NO_MEMORY_TURNED: &str = "no memory to tell what was turned";

pub(crate) const NO_MEMORY_OUT: &str = "no memory to tell what was taken out";

/// What a line would turn, looked at before it is done.
#[derive(Drop)]
pub enum Turning {
    /// No moment.
    Nothing,
    /// These are taken back.
    Back(Turned),
    /// An undone moment is brought back.
    Forth,
    /// A change is taken out.
    Out(ChangeRow),
    /// Memory is lacking to say.
    Unknown,
}

// What an undo turns that was looked at so.
fn back(looked: Result<Option<Turned>, NoMemory>) -> Turning
    ensures { result ≡ back_of looked }
{
    match looked {
        Ok(Some(it)) => Turning::Back(it),
        Ok(None) => Turning::Nothing,
        Err(_) => Turning::Unknown,
    }
}

// What a taking out turns that was looked at so.
fn out(looked: Result<Option<ChangeRow>, NoMemory>) -> Turning
    ensures { result ≡ out_of looked }
{
    match looked {
        Ok(Some(row)) => Turning::Out(row),
        Ok(None) => Turning::Nothing,
        Err(_) => Turning::Unknown,
    }
}

// The serial of the change that a command takes out.
fn taken_by(read: &Command) -> Option<u64>
    ensures { IfSome result (λ serial. read.now ≡ command.Journal (journal.Without serial)) }
{
    match read {
        Command::Journal(JournalCommand::Without(serial)) => Some(*serial),
        _ => None,
    }
}

// The serial of the change that a line is to take out. No other line is read: one that names a mark would take memory for the
// name, and the line itself may find none then.
fn serial_out(alloc: Global, line: &[u8]) -> Option<u64>
    ensures { IfSome result (λ serial. line_read line.now ≡ Ok (Some (command.Journal (journal.Without serial)))) }
{
    let behind = behind_word(line, b"journal")?;
    behind_word(behind, b"without")?;
    match parse_line(alloc, line) {
        Ok(Some(command)) => taken_by(&command),
        Ok(None) | Err(SyntaxFault::NoMemory | SyntaxFault::TooLong | SyntaxFault::At(_)) => None,
    }
}

// What a command on the journal would turn.
fn of_journal<K: MapKind>(book: &Book<K>, command: &JournalCommand) -> Turning
    ensures { TurnsBy command.now book.now.plain result }
{
    match command {
        JournalCommand::Undo(mark) => back(taken_back(book, mark)),
        JournalCommand::Redo => Turning::Forth,
        JournalCommand::Without(serial) => out(taken_out(book, *serial)),
        JournalCommand::Mark(_) | JournalCommand::List | JournalCommand::Forget(_) => {
            Turning::Nothing
        }
    }
}

// What a command would turn.
fn of_command<K: MapKind>(book: &Book<K>, command: &Command) -> Turning
    ensures { TurnsSo (Ok (Some command.now)) book.now.plain result }
{
    match command {
        Command::Journal(command) => of_journal(book, command),
        Command::Map(_)
        | Command::Prog(_)
        | Command::Net(_)
        | Command::Batch(_)
        | Command::Unpin(_)
        | Command::Frame(_)
        | Command::Run(_) => Turning::Nothing,
    }
}

/// The text of moments that were turned.
pub(crate) fn text_of(alloc: Global, did: &'static [u8], it: &Turned) -> Option<Vec<u8>> {
    let mut text = Vec::new(alloc);
    match put_turned(&mut text, did, it) {
        Ok(()) => Some(text),
        Err(_) => None,
    }
}

// The text of a change that was taken out.
fn text_of_out(alloc: Global, row: &ChangeRow) -> Option<Vec<u8>> {
    let mut text = Vec::new(alloc);
    match put_made(&mut text, row) {
        Ok(()) => Some(text),
        Err(_) => None,
    }
}

/// Tells a text after a name, or what is told in place of it if memory is lacking.
pub(crate) fn tell_text<R: Eprint>(
    rt: &R,
    name: &str,
    before: &str,
    text: Option<Vec<u8>>,
    lacking: &str,
) {
    let Some(text) = text else {
        let _ = eprintln!(rt; "{name}: {lacking}");
        return;
    };
    let bytes = text.as_slice();
    let _ = match str::from_utf8(bytes) {
        Ok(text) => eprintln!(rt; "{name}: {before}{text}"),
        Err(_) => eprintln!(rt; "{name}: {before}{}", Shown(bytes)),
    };
}

/// Tells on standard error, after a name, what was done to moments.
pub(crate) fn tell_turned<R: Eprint + AllocGlobal>(
    rt: &R,
    name: &str,
    did: &'static [u8],
    looked: Result<Turned, NoMemory>,
) {
    match looked {
        Ok(it) => {
            let text = text_of(rt.alloc(), did, &it);
            tell_text(rt, name, "", text, NO_MEMORY_TURNED);
        }
        Err(_) => tell_text(rt, name, "", None, NO_MEMORY_TURNED),
    }
}

// Tells which change was taken out.
fn tell_change<R: Eprint + AllocGlobal>(rt: &R, name: &str, row: &ChangeRow) {
    let text = text_of_out(rt.alloc(), row);
    tell_text(rt, name, "took out ", text, NO_MEMORY_OUT);
}

impl Turning {
    /// What a line would turn in a book as it is now.
    pub fn before<K: MapKind>(alloc: Global, book: &Book<K>, line: &[u8]) -> Turning
        ensures { Turns result (line_read line.now) book.now.plain }
    {
        match parse_line(alloc, line) {
            Ok(Some(command)) => of_command(book, &command),
            Ok(None) => Turning::Nothing,
            Err(SyntaxFault::NoMemory) => Turning::Unknown,
            Err(SyntaxFault::TooLong) => Turning::Nothing,
            Err(SyntaxFault::At(_)) => Turning::Nothing,
        }
    }

    /// What a line would take out at a desk. Of an undo and a redo it is nothing: frames may come before them, so what they turn is
    /// not known by a look.
    pub fn before_at<K: MapKind, R: AllocGlobal + Wait>(
        rt: &R,
        desk: &Desk<K>,
        seat: &mut Seat<K>,
        line: &[u8],
    ) -> Turning
        requires { IsSeatAt desk.now seat.old }
        ensures seat { IsSeatAt desk.now seat.new }
        ensures turns { TurnsAt desk.now (line_read line.now) result seat.old seat.new }
    {
        match serial_out(rt.alloc(), line) {
            Some(serial) => match look_out_at(rt, desk, seat, serial) {
                Ok(looked) => out(looked),
                Err(_) => Turning::Nothing,
            },
            None => Turning::Nothing,
        }
    }

    /// Tells what [`Turning::tell`] tells of a taking out, which needs no book.
    pub fn tell_out<R: Eprint + AllocGlobal>(self, rt: &R, name: &str) {
        match self {
            Turning::Out(row) => tell_change(rt, name, &row),
            Turning::Unknown => tell_text(rt, name, "", None, NO_MEMORY_OUT),
            Turning::Nothing | Turning::Back(_) | Turning::Forth => {}
        }
    }

    /// Tells on standard error what was turned, once the line was accepted and left the book so: after a name, such as `lab.db`,
    /// `took back 4 moments: 12 prog 1 atomic map 1, ..` of an undo, with at most 16 of them and how many more, `brought back ..` of a
    /// redo, and `took out ..` of a taking out.
    pub fn tell<R: Eprint + AllocGlobal, K: MapKind>(self, rt: &R, name: &str, book: &Book<K>) {
        match self {
            Turning::Nothing => {}
            Turning::Back(it) => tell_turned(rt, name, b"took back", Ok(it)),
            Turning::Forth => tell_turned(rt, name, b"brought back", last_moments(book, 1)),
            Turning::Out(row) => tell_change(rt, name, &row),
            Turning::Unknown => tell_text(rt, name, "", None, NO_MEMORY_TURNED),
        }
    }
}
