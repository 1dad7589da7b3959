//! The commands on devices done to a book.

ghost use Rattle.std.specs.Prelude.{◌≡◌, None};
ghost use Rattle.bt_syntax.specs.declared.net.command.NetCommand.TheVariants.{Show};
ghost use Rattle.console_reference.specs.References.{prog_named};
ghost use Rattle.bt_console.specs.Commands.{attaching, recorded_if, net_done, DoneUnlessRefused};

use crate::command::record_if;
use bt_mapkind::MapKind;
use bt_syntax::{NetCommand, Reference};
use bt_without::Book;
use console_answer::{Answer, Fault};
use console_reference::find_prog;
use host_state::{Ask, Change};
use host_words::Word;

/// Shows what is attached to a device; without one, to all.
fn show<K: MapKind>(book: &mut Book<K>, device: Option<Word>) -> Answer
    ensures { DoneUnlessRefused book.old.plain (net_done book.old.plain (Show device)) (book.new.plain, result) }
{
    match book.ask(&Ask::Devices { only: device }) {
        Ok(told) => Answer::of_devices(told),
        Err(_) => Answer::Refused(Fault::NoMemory),
    }
}

// The attaching of a program that was found.
fn attaching(device: Word, overwrite: bool, prog: Result<u32, Fault>) -> Result<Change, Fault>
    ensures { result ≡ attaching device overwrite prog }
{
    match prog {
        Ok(prog) => Ok(Change::Attach {
            prog,
            device,
            overwrite,
        }),
        Err(fault) => Err(fault),
    }
}

/// Attaches the program that a reference names.
fn attach<K: MapKind>(book: &mut Book<K>, prog: Reference, device: Word, overwrite: bool) -> Answer
    ensures { DoneUnlessRefused book.old.plain
        (recorded_if book.old.plain (attaching device overwrite (prog_named book.old.plain prog)) None) (book.new.plain, result) }
{
    let prog = find_prog(book, prog);
    record_if(book, attaching(device, overwrite, prog), None)
}

/// Does a command on devices, and answers.
#[inline(never)]
pub fn run_net<K: MapKind>(book: &mut Book<K>, command: NetCommand) -> Answer
    ensures { DoneUnlessRefused book.old.plain (net_done book.old.plain command) (book.new.plain, result) }
{
    match command {
        NetCommand::Show { device } => show(book, device),
        NetCommand::Attach {
            prog,
            device,
            overwrite,
        } => attach(book, prog, device, overwrite),
        NetCommand::Detach { device } => record_if(book, Ok(Change::Detach { device }), None),
    }
}
