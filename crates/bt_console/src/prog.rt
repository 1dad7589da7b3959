//! The commands on programs done to a book.

ghost use Rattle.std.specs.Prelude.{◌≡◌, ℕ, List, None};
ghost use Rattle.console_operand.specs.declared.object.Object.TheVariants.{Hex};
ghost use Rattle.bt_syntax.specs.declared.prog.command.ProgCommand.TheVariants.{Load};
ghost use Rattle.host_state.specs.declared.ask.Ask.TheVariants.{Progs};
ghost use Rattle.journal_model.specs.Book.{asked};
ghost use Rattle.console_answer.specs.Answers.{progs_answer};
ghost use Rattle.console_reference.specs.References.{prog_named, ToldUnlessRefused};
ghost use Rattle.bt_console.specs.Commands.{pinning, loading, recorded_if, shown_prog, shown_progs, dumped_prog, DoneUnlessRefused, ProgGoes};

use crate::command::record_if;
use bt_mapkind::MapKind;
use bt_roots::Target;
use bt_syntax::{Object, ProgCommand, Reference};
use bt_without::Book;
use console_answer::{Answer, Fault};
use console_reference::{find_code, find_prog, name_of};
use host_state::{Ask, Change, Code};
use host_words::Word;
use std::alloc::Global;

fn show_all<K: MapKind>(book: &mut Book<K>) -> Answer
    ensures { DoneUnlessRefused book.old.plain (book.old.plain, progs_answer (asked book.old.plain (Progs None))) (book.new.plain, result) }
{
    match book.ask(&Ask::Progs { only: None }) {
        Ok(told) => Answer::of_progs(told),
        Err(_) => Answer::Refused(Fault::NoMemory),
    }
}

/// Shows the program that a reference names.
fn show_one<K: MapKind>(book: &mut Book<K>, prog: Reference) -> Answer
    ensures { DoneUnlessRefused book.old.plain (book.old.plain, shown_prog book.old.plain (prog_named book.old.plain prog)) (book.new.plain, result) }
{
    let id = match find_prog(book, prog) {
        Ok(id) => id,
        Err(fault) => return Answer::Refused(fault),
    };
    match book.ask(&Ask::Progs { only: Some(id) }) {
        Ok(told) => Answer::of_progs(told),
        Err(_) => Answer::Refused(Fault::NoMemory),
    }
}

/// Shows a program; without one, all.
fn show<K: MapKind>(book: &mut Book<K>, prog: Option<Reference>) -> Answer
    ensures { DoneUnlessRefused book.old.plain (book.old.plain, shown_progs book.old.plain prog) (book.new.plain, result) }
{
    match prog {
        Some(prog) => show_one(book, prog),
        None => show_all(book),
    }
}

/// Tells the instructions of the program that a reference names.
fn dump<K: MapKind>(book: &mut Book<K>, prog: Reference) -> Answer
    ensures { DoneUnlessRefused book.old.plain (book.old.plain, dumped_prog book.old.plain (prog_named book.old.plain prog)) (book.new.plain, result) }
{
    let id = match find_prog(book, prog) {
        Ok(id) => id,
        Err(fault) => return Answer::Refused(fault),
    };
    match book.ask(&Ask::Code { id }) {
        Ok(told) => Answer::of_code(told),
        Err(_) => Answer::Refused(Fault::NoMemory),
    }
}

// The pinning of a program that was found.
fn pinning(path: Word, prog: Result<u32, Fault>) -> Result<Change, Fault>
    ensures { result ≡ pinning path prog }
{
    match prog {
        Ok(id) => Ok(Change::Pin {
            target: Target::Prog(id),
            path,
        }),
        Err(fault) => Err(fault),
    }
}

/// Pins the program that a reference names.
fn pin<K: MapKind>(book: &mut Book<K>, prog: Reference, path: Word) -> Answer
    ensures { DoneUnlessRefused book.old.plain
        (recorded_if book.old.plain (pinning path (prog_named book.old.plain prog)) None) (book.new.plain, result) }
{
    let prog = find_prog(book, prog);
    record_if(book, pinning(path, prog), None)
}

// The loading of a program that was let in: the book sets its id.
fn loading(alloc: Global, path: Word, verdict: Result<Code, Fault>) -> Result<Change, Fault>
    ensures { (bytes : List ℕ) → ToldUnlessRefused (loading path (Hex bytes) verdict) result }
{
    let code = match verdict {
        Ok(code) => code,
        Err(fault) => return Err(fault),
    };
    match name_of(alloc, &path) {
        Ok(name) => Ok(Change::Load {
            id: 0,
            code,
            name,
            path,
        }),
        Err(_) => Err(Fault::NoMemory),
    }
}

/// Loads a program, and pins it. No file is at hand.
fn load<K: MapKind>(alloc: Global, book: &mut Book<K>, object: Object, path: Word) -> Answer
    ensures { ProgGoes book.old.plain (Load object path) (book.new.plain, result) }
{
    let bytes = match object {
        Object::Hex(bytes) => bytes,
        Object::File(_) => return Answer::Refused(Fault::NoFile),
    };
    let verdict = find_code(alloc, book, bytes.as_slice());
    record_if(book, loading(alloc, path, verdict), None)
}

/// Does a command on programs, and answers.
#[inline(never)]
pub fn run_prog<K: MapKind>(alloc: Global, book: &mut Book<K>, command: ProgCommand) -> Answer
    ensures { ProgGoes book.old.plain command (book.new.plain, result) }
{
    match command {
        ProgCommand::Show { prog } => show(book, prog),
        ProgCommand::Dump { prog } => dump(book, prog),
        ProgCommand::Pin { prog, path } => pin(book, prog, path),
        ProgCommand::Load { object, path } => load(alloc, book, object, path),
    }
}
