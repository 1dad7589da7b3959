//! References to programs resolved.

ghost use Rattle.std.specs.Prelude.{◌≡◌, None};
ghost use Rattle.host_state.specs.declared.ask.Ask.TheVariants.{Pinned, Progs};
ghost use Rattle.journal_model.specs.Book.{asked};
ghost use Rattle.console_reference.specs.References.{known_prog, live_prog, pinned_prog, named_prog, prog_at, prog_named, ToldUnlessRefused};

use crate::reference::only;
use bt_journal::Book;
use bt_mapkind::{Errno, MapKind};
use bt_roots::Target;
use bt_syntax::Reference;
use console_answer::Fault;
use host_state::{Ask, AskReply};
use host_words::Word;

// The id, if the book shows the program.
fn known_prog(id: u32, told: &AskReply) -> Result<u32, Fault>
    ensures { result ≡ known_prog id told.now }
{
    match told {
        AskReply::Progs(_) => Ok(id),
        AskReply::Refused(errno) => Err(Fault::Errno(*errno)),
        _ => Err(Fault::Errno(Errno::EINVAL)),
    }
}

// The live program of an id; ENOENT if there is none.
fn live_prog<K: MapKind>(book: &mut Book<K>, id: u32) -> Result<u32, Fault>
    ensures same { book.new.plain ≡ book.old.plain }
    ensures found { ToldUnlessRefused (live_prog book.old.plain id) result }
{
    match book.ask(&Ask::Progs { only: Some(id) }) {
        Ok(told) => known_prog(id, &told),
        Err(_) => Err(Fault::NoMemory),
    }
}

// The id of the program that is pinned; a map is no program.
fn pinned_prog(told: &AskReply) -> Result<u32, Fault>
    ensures { result ≡ pinned_prog told.now }
{
    match told {
        AskReply::Pinned(Target::Prog(id)) => Ok(*id),
        AskReply::Pinned(Target::Map(_)) => Err(Fault::Errno(Errno::ENOENT)),
        AskReply::Refused(errno) => Err(Fault::Errno(*errno)),
        _ => Err(Fault::Errno(Errno::EINVAL)),
    }
}

// The live program of an id that was found.
fn prog_at<K: MapKind>(book: &mut Book<K>, id: Result<u32, Fault>) -> Result<u32, Fault>
    ensures same { book.new.plain ≡ book.old.plain }
    ensures found { ToldUnlessRefused (prog_at book.old.plain id) result }
{
    match id {
        Ok(id) => live_prog(book, id),
        Err(fault) => Err(fault),
    }
}

// The program that is pinned at a path; ENOENT if there is none.
fn prog_under<K: MapKind>(book: &mut Book<K>, path: Word) -> Result<u32, Fault>
    ensures same { book.new.plain ≡ book.old.plain }
    ensures found { ToldUnlessRefused (prog_at book.old.plain (pinned_prog (asked book.old.plain (Pinned path)))) result }
{
    match book.ask(&Ask::Pinned { path }) {
        Ok(told) => prog_at(book, pinned_prog(&told)),
        Err(_) => Err(Fault::NoMemory),
    }
}

// The live program of a name; ENOENT if there is none, and Ambiguous if there are several.
fn prog_of_name<K: MapKind>(book: &mut Book<K>, name: &Word) -> Result<u32, Fault>
    ensures same { book.new.plain ≡ book.old.plain }
    ensures found { ToldUnlessRefused (prog_at book.old.plain (named_prog name.now (asked book.old.plain (Progs None)))) result }
{
    let found = only(book.prog_of_name(name.as_slice()));
    prog_at(book, found)
}

/// The id of the live program that a reference names; ENOENT if there is none, or a map is pinned at its path, and
/// Ambiguous if several have its name.
pub fn find_prog<K: MapKind>(book: &mut Book<K>, prog: Reference) -> Result<u32, Fault>
    ensures same { book.new.plain ≡ book.old.plain }
    ensures found { ToldUnlessRefused (prog_named book.old.plain prog) result }
{
    match prog {
        Reference::Id(id) => live_prog(book, id),
        Reference::Pinned(path) => prog_under(book, path),
        Reference::Named(name) => prog_of_name(book, &name),
    }
}
