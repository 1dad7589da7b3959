//! Commands done to a book.

ghost use Rattle.std.specs.Prelude.{◌≡◌, ◌-◌, ◌<◌, ℕ, List, Option, Some, None};
ghost use Rattle.bt_mapkind.specs.Seen.{NeverWantsMemory};
ghost use Rattle.journal_model.specs.Blank.{Blank};
ghost use Rattle.journal_model.specs.Book.{charged, recorded};
ghost use Rattle.bt_without.specs.Recording.{AreBlanks};
ghost use Rattle.console_reference.specs.References.{map_named, IsByIdOrPath, ToldUnlessRefused};
ghost use Rattle.bt_console.specs.Frames.{console_of};
ghost use Rattle.bt_console.specs.Commands.{making, change_at, changed, recorded_if, changed_at, asked_at, map_done, DoneUnlessRefused, TakesNoMemory, IsOfOneKey, IsMapLookUp, LooksUp, Course, command_done, CommandGoes};
ghost use Rattle.bt_console.specs.Supply.{unmade};

use crate::edit::{Edit, edit_map};
use crate::inquiry::{Inquiry, inquiry_answer, question_of};
use crate::journal::run_journal;
use crate::net::run_net;
use crate::prog::run_prog;
use crate::run_command::run_runs;
use crate::runs::Runs;
use bt_mapkind::{MapAttr, MapKind};
use bt_syntax::{Command, MapCommand, Reference};
use bt_without::Book;
use console_answer::{Answer, Fault, ShortAnswer};
use console_reference::{find_map, find_template};
use host_state::{Ask, Change};
use host_words::Word;
use std::alloc::Global;

/// Records a change that comes with this box, or with none.
pub fn record<K: MapKind>(book: &mut Book<K>, change: Change, blank: Option<K>) -> Answer
    ensures { (plain : Option Blank) → AreBlanks K.seen blank plain →
        DoneUnlessRefused book.old.plain (changed (recorded book.old.plain change plain)) (book.new.plain, result) }
{
    Answer::of_change(book.record(change, blank))
}

/// Records the change if what it speaks of was found; else answers what was not.
pub fn record_if<K: MapKind>(
    book: &mut Book<K>,
    change: Result<Change, Fault>,
    blank: Option<K>,
) -> Answer
    ensures { (plain : Option Blank) → AreBlanks K.seen blank plain →
        DoneUnlessRefused book.old.plain (recorded_if book.old.plain change plain) (book.new.plain, result) }
{
    match change {
        Ok(change) => record(book, change, blank),
        Err(fault) => Answer::Refused(fault),
    }
}

/// Changes the live map that a reference names.
#[inline(never)]
pub fn change_map<K: MapKind>(
    alloc: Global,
    book: &mut Book<K>,
    map: Reference,
    edit: Edit,
) -> ShortAnswer
    ensures { DoneUnlessRefused book.old.plain
        (changed_at book.old.plain map edit) (book.new.plain, result) }
{
    match find_map(book, map) {
        Ok(map) => edit_map(alloc, book, map, edit),
        Err(fault) => ShortAnswer::refused(fault),
    }
}

/// Changes the live map that a reference names, and answers with one of all answers.
#[inline(never)]
fn answer_change<K: MapKind>(
    alloc: Global,
    book: &mut Book<K>,
    map: Reference,
    edit: Edit,
) -> Answer
    ensures { DoneUnlessRefused book.old.plain
        (changed_at book.old.plain map edit) (book.new.plain, result) }
{
    change_map(alloc, book, map, edit).into_answer()
}

/// Asks the live map that a reference names.
#[inline(never)]
fn ask_map<K: MapKind>(book: &mut Book<K>, map: Reference, inquiry: Inquiry) -> Answer
    ensures told { DoneUnlessRefused book.old.plain
        (asked_at book.old.plain map inquiry) (book.new.plain, result) }
    ensures sure { NeverWantsMemory K.seen → IsByIdOrPath map → IsOfOneKey inquiry →
        (book.new.plain, result) ≡ asked_at book.old.plain map inquiry }
{
    let id = match find_map(book, map) {
        Ok(map) => map.id,
        Err(fault) => return Answer::Refused(fault),
    };
    match book.ask(&question_of(id, &inquiry)) {
        Ok(told) => inquiry_answer(inquiry, told),
        Err(_) => Answer::Refused(Fault::NoMemory),
    }
}

/// Shows every live map.
#[inline(never)]
fn show_all<K: MapKind>(book: &mut Book<K>) -> Answer
    ensures { DoneUnlessRefused book.old.plain
        (map_done book.old.plain (MapCommand.Show None) None) (book.new.plain, result) }
{
    match book.ask(&Ask::Maps { only: None }) {
        Ok(told) => Answer::of_shown(told),
        Err(_) => Answer::Refused(Fault::NoMemory),
    }
}

/// The making of a map whose template was found: the book sets its id and its charge.
fn making(
    path: Word,
    attr: MapAttr,
    name: Word,
    template: Result<Option<u32>, Fault>,
) -> Result<Change, Fault>
    ensures { result ≡ making path attr name template }
{
    match template {
        Ok(template) => Ok(Change::Create {
            id: 0,
            attr,
            charge: 0,
            name,
            path,
            template,
        }),
        Err(fault) => Err(fault),
    }
}

/// Makes a map, with the box that was made for it.
#[inline(never)]
fn create<K: MapKind>(
    book: &mut Book<K>,
    path: Word,
    attr: MapAttr,
    name: Word,
    inner_map: Option<Reference>,
    blank: Option<K>,
) -> Answer
    ensures { (plain : Option Blank) → AreBlanks K.seen blank plain →
        DoneUnlessRefused book.old.plain
        (map_done book.old.plain (MapCommand.Create path attr name inner_map) plain) (book.new.plain, result) }
{
    let template = find_template(book, inner_map);
    record_if(book, making(path, attr, name, template), blank)
}

/// Refuses the making of a map whose box was not made, for it would be charged more than the budget leaves: as the book
/// would refuse that box.
pub fn refuse_large<K: MapKind>(
    book: &mut Book<K>,
    attr: MapAttr,
    name: Word,
    inner_map: Option<Reference>,
    charge: u64,
) -> Answer
    requires { book.old.plain.limits.budget - charged book.old.plain < charge }
    ensures { (path : List ℕ) → DoneUnlessRefused book.old.plain
        (map_done book.old.plain (MapCommand.Create path attr name inner_map) (Some (unmade attr charge))) (book.new.plain, result) }
{
    match find_template(book, inner_map) {
        Ok(_) => Answer::of_change(Err(book.refusal_of_large(&attr, &name, charge))),
        Err(fault) => Answer::Refused(fault),
    }
}

fn run_map<K: MapKind>(
    alloc: Global,
    book: &mut Book<K>,
    command: MapCommand,
    blank: Option<K>,
) -> Answer
    ensures done { (plain : Option Blank) → AreBlanks K.seen blank plain →
        DoneUnlessRefused book.old.plain (map_done book.old.plain command plain) (book.new.plain, result) }
    ensures looks_up { NeverWantsMemory K.seen → IsMapLookUp command →
        (book.new.plain, result) ≡ map_done book.old.plain command None }
{
    match command {
        MapCommand::Show { map: None } => show_all(book),
        MapCommand::Show { map: Some(map) } => ask_map(book, map, Inquiry::Show),
        MapCommand::Create {
            path,
            attr,
            name,
            inner_map,
        } => create(book, path, attr, name, inner_map, blank),
        MapCommand::Dump { map } => ask_map(book, map, Inquiry::Dump),
        MapCommand::Update {
            map,
            key,
            value,
            flag,
        } => answer_change(alloc, book, map, Edit::Write { key, value, flag }),
        MapCommand::Lookup { map, key } => ask_map(book, map, Inquiry::LookUp { key }),
        MapCommand::GetNext { map, key } => ask_map(book, map, Inquiry::Next { key }),
        MapCommand::Delete { map, key } => answer_change(alloc, book, map, Edit::Delete { key }),
        MapCommand::Peek { map } => ask_map(book, map, Inquiry::LookUp { key: None }),
        MapCommand::Push { map, value } => answer_change(alloc, book, map, Edit::push(value)),
        MapCommand::Pop { map } => answer_change(alloc, book, map, Edit::Pop),
        MapCommand::Freeze { map } => answer_change(alloc, book, map, Edit::Freeze),
        MapCommand::Pin { map, path } => answer_change(alloc, book, map, Edit::Pin { path }),
    }
}

/// Does a command, and answers. A box comes with a `map create` for which the supplier gave one, and with no other command;
/// it is dropped if the command is refused. An undo and a redo take no memory, nor does a look-up in a map that is named by
/// its id or its path, if the room of each box was reserved.
pub fn run_command<K: MapKind>(
    alloc: Global,
    book: &mut Book<K>,
    runs: &mut Runs,
    command: Command,
    blank: Option<K>,
) -> Answer
    ensures goes { (plain : Option Blank) → AreBlanks K.seen blank plain →
        CommandGoes (console_of book.old.plain runs.old) command plain (console_of book.new.plain runs.new, result) }
    ensures sure { TakesNoMemory command → (course : Course) →
        (console_of book.new.plain runs.new, result) ≡ command_done (console_of book.old.plain runs.old) course command None }
    ensures looks_up { NeverWantsMemory K.seen → LooksUp command → (course : Course) →
        (console_of book.new.plain runs.new, result) ≡ command_done (console_of book.old.plain runs.old) course command None }
{
    match command {
        Command::Map(command) => run_map(alloc, book, command, blank),
        Command::Prog(command) => run_prog(alloc, book, command),
        Command::Net(command) => run_net(book, command),
        Command::Batch(_) => Answer::Refused(Fault::NestedBatch),
        Command::Unpin(path) => record(book, Change::Unpin { path }, None),
        Command::Frame(frame) => runs.frame(book, frame).into_answer(),
        Command::Run(command) => run_runs(book, runs, command),
        Command::Journal(command) => run_journal(book, command),
    }
}
