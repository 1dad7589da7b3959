//! A command done with a box of the supplier, and the text of an answer.

ghost use Rattle.std.specs.Prelude.{◌≡◌, ◌-◌, ◌<◌, true, Some, IfSome, OnErr};
ghost use Rattle.bt_mapkind.specs.Attributes.{good};
ghost use Rattle.journal_model.specs.Book.{charged};
ghost use Rattle.bt_syntax.specs.Needs.{made_by};
ghost use Rattle.bt_console.specs.Commands.{CommandGoes};
ghost use Rattle.bt_console.specs.Frames.{console_of};
ghost use Rattle.bt_console.specs.Lines.{line_text};
ghost use Rattle.bt_console.specs.Supply.{unmade, CommandRuns};
ghost use Rattle.console_text.specs.Written.{Writes};

use crate::command::{refuse_large, run_command};
use crate::runs::Runs;
use crate::supply::{NoBox, Supply};
use bt_mapkind::{MapAttr, MapKind};
use bt_syntax::{Command, MapCommand};
use bt_without::Book;
use console_answer::{Answer, Fault};
use console_text::{Output, WriteFault, put_answer};
use std::alloc::Global;

/// The attributes of the map that a command makes, if they are good.
fn made_by(command: &Command) -> Option<MapAttr>
    ensures made { result ≡ made_by command.now }
    ensures limits { IfSome result (λ attr. good attr ≡ true) }
{
    match command {
        Command::Map(MapCommand::Create { attr, .. }) if attr.good() => Some(*attr),
        _ => None,
    }
}

/// Refuses a command that makes a map of these attributes, whose box was not made since it would be charged more than the
/// budget leaves.
#[inline(never)]
fn refuse_unmade<K: MapKind>(
    book: &mut Book<K>,
    runs: &Runs,
    command: Command,
    attr: MapAttr,
    charge: u64,
) -> Answer
    requires large { book.old.plain.limits.budget - charged book.old.plain < charge }
    requires makes { made_by command ≡ Some attr }
    ensures { CommandGoes (console_of book.old.plain runs.now) command (Some (unmade attr charge)) (console_of book.new.plain runs.now, result) }
{
    let Command::Map(command) = command else {
        unreachable!()
    };
    match command {
        MapCommand::Create {
            path: _path,
            attr: _own,
            name,
            inner_map,
        } => refuse_large(book, attr, name, inner_map, charge),
        _other => unreachable!(),
    }
}

/// Does a command, with a box of the supplier for the map that it makes, and answers. If memory is refused to the making
/// of the box, or the budget leaves too little for it, the command is refused.
pub fn run_supplied<K: MapKind, S: Supply<K>>(
    alloc: Global,
    book: &mut Book<K>,
    runs: &mut Runs,
    supply: &mut S,
    command: Command,
) -> Answer
    ensures { CommandRuns S.gives K.seen (console_of book.old.plain runs.old) supply.old command (console_of book.new.plain runs.new, result) supply.new }
{
    let Some(attr) = made_by(&command) else {
        return run_command(alloc, book, runs, command, None);
    };
    match supply.supply(attr, book.room()) {
        Ok(kind) => run_command(alloc, book, runs, command, Some(kind)),
        Err(NoBox::AtEnd) => run_command(alloc, book, runs, command, None),
        Err(NoBox::NoMemory) => {
            drop(command);
            Answer::Refused(Fault::NoMemory)
        }
        Err(NoBox::TooLarge(charge)) => refuse_unmade(book, runs, command, attr, charge),
    }
}

/// Writes the text of what a line answered; nothing for a line without words. It takes no memory.
pub fn put_line<W: Output>(out: &mut W, answer: &Option<Answer>) -> Result<(), WriteFault>
    ensures text { Writes (W.contents out.old) (W.contents out.new) result (line_text answer.now) }
    ensures refused { OnErr result (W.has_refused out.new) }
{
    match answer {
        Some(answer) => put_answer(out, answer),
        None => Ok(()),
    }
}
