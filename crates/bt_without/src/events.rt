//! Events, and whole lists of them.

ghost use Rattle.std.specs.Prelude.{◌≡◌, IfOk, OnErr};
ghost use Rattle.bt_mapkind.specs.Seen.{Seen};
ghost use Rattle.bt_without.specs.Calls.{CallsOfEvent};
ghost use Rattle.bt_without.specs.TakesOut.{serial_of};
ghost use Rattle.bt_without.specs.Events.{IsStep, IsRun, blank_with};
ghost use Rattle.bt_journal.specs.Recording.{AreBlanks};

use crate::without;
use bt_journal::{Book, TakenOut};
use bt_mapkind::MapKind;
use bt_verify::Program;
use host_state::{Ask, AskReply, Change, Refusal, Reply};
use host_words::{NoMemory, Word};
use journal_model::{
    ForgetFault, JournalList, MarkFault, NothingToUndo, RedoFault, StartFault, UndoFault,
    WithoutFault,
};
use program_access::{Access, AccessReply};

/// One call of a book, with what it is given.
#[derive(Drop)]
pub enum Event<K> {
    /// [`Book::record`]: a change with the box that comes with it, if one does.
    Record(Change, Option<K>),
    /// [`Book::mark`].
    Mark(Word),
    /// [`Book::undo_to`].
    UndoTo(Word),
    /// [`Book::undo_last`].
    UndoLast,
    /// [`Book::redo`].
    Redo,
    /// [`without`]: the change of this serial is taken out.
    Without(u64),
    /// [`Book::forget`].
    Forget(Word),
    /// [`Book::list`].
    List,
    /// [`Book::ask`].
    Ask(Ask),
    /// [`Book::start`]: a frame on a device.
    Start(Word),
    /// [`Book::serve`]: an access of the running program of this id.
    Serve(u32, Access),
}

/// What the call of an event answered.
#[derive(Debug, Drop)]
pub enum Answer {
    Recorded(Result<(u64, Reply), Refusal>),
    Marked(Result<(), MarkFault>),
    UndoneTo(Result<u64, UndoFault>),
    UndoneLast(Result<(), NothingToUndo>),
    Redone(Result<(), RedoFault>),
    /// The serial of the taking out.
    TakenOut(Result<u64, WithoutFault>),
    Forgot(Result<(), ForgetFault>),
    Listed(Result<JournalList, NoMemory>),
    Asked(Result<AskReply, NoMemory>),
    Started(Result<Option<(Program, u32)>, StartFault>),
    Served(AccessReply),
}

/// Does one event as the plain book does it, and gives its answer. An allocation that failed is told in the answer.
pub fn step<K: MapKind>(book: &mut Book<K>, event: Event<K>) -> Answer
    ensures stepped { IsStep K.seen book.old.plain event result book.new.plain }
    ensures work { CallsOfEvent K.seen book.old.plain event result book.old.work book.new.work }
{
    // A function clears the room of all its locals when it is entered, so the most frequent event has one of its own.
    match event {
        Event::Record(change, blank) => recorded(book, change, blank),
        event => step_any(book, event),
    }
}

// Does the event, of whichever form.
fn step_any<K: MapKind>(book: &mut Book<K>, event: Event<K>) -> Answer
    ensures stepped { IsStep K.seen book.old.plain event result book.new.plain }
    ensures work { CallsOfEvent K.seen book.old.plain event result book.old.work book.new.work }
{
    match event {
        Event::Record(change, blank) => recorded(book, change, blank),
        Event::Mark(name) => Answer::Marked(book.mark(name)),
        Event::UndoTo(name) => Answer::UndoneTo(book.undo_to(&name)),
        Event::UndoLast => Answer::UndoneLast(book.undo_last()),
        Event::Redo => Answer::Redone(book.redo()),
        Event::Without(serial) => taken_out(book, serial),
        Event::Forget(name) => Answer::Forgot(book.forget(&name)),
        Event::List => Answer::Listed(book.list()),
        Event::Ask(question) => Answer::Asked(book.ask(&question)),
        Event::Start(device) => Answer::Started(book.start(device)),
        Event::Serve(prog, access) => Answer::Served(book.serve(prog, &access)),
    }
}

/// Does the events in order as the plain book does them, and gives their answers. NoMemory if the list of answers has
/// no room; nothing is done then.
pub fn run<K: MapKind>(book: &mut Book<K>, events: Vec<Event<K>>) -> Result<Vec<Answer>, NoMemory>
    ensures ran { IfOk result (λ answers. IsRun K.seen book.old.plain events.items answers.items book.new.plain) }
    ensures refused { OnErr result (book.new.plain ≡ book.old.plain) }
{
    let alloc = *events.allocator();
    let mut answers = Vec::with_capacity(alloc, events.len())?;
    for event in events {
        answers.push_reserved(step(book, event));
    }
    Ok(answers)
}

// Takes a change out.
fn taken_out<K: MapKind>(book: &mut Book<K>, serial: u64) -> Answer
    ensures stepped { IsStep K.seen book.old.plain (Event.Without serial) result book.new.plain }
    ensures work { CallsOfEvent K.seen book.old.plain (Event.Without serial) result book.old.work book.new.work }
{
    Answer::TakenOut(serial_of(without(book, serial)))
}

/// The serial of a taking out, or why there is none. It is its own, not that of the change that was taken out.
pub fn serial_of(taken: Result<TakenOut, WithoutFault>) -> Result<u64, WithoutFault>
    ensures { result ≡ serial_of taken }
{
    match taken {
        Ok(taken) => Ok(taken.serial),
        Err(fault) => Err(fault),
    }
}

// Records a change.
fn recorded<K: MapKind>(book: &mut Book<K>, change: Change, blank: Option<K>) -> Answer
    ensures stepped { IsStep K.seen book.old.plain (Event.Record change blank) result book.new.plain }
    ensures work { CallsOfEvent K.seen book.old.plain (Event.Record change blank) result book.old.work book.new.work }
{
    let _fresh = is_fresh(&blank);
    Answer::Recorded(book.record(change, blank))
}

// Whether a box comes and is fresh.
fn is_fresh<K: MapKind>(blank: &Option<K>) -> bool
    ensures { AreBlanks K.seen blank.now (blank_with K.seen blank.now result) }
{
    match blank {
        Some(kind) => kind.is_fresh(),
        None => false,
    }
}
