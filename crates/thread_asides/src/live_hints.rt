//! What the operator of a live host is told of a line that was refused: by the host as it is right after the line, and by the
//! words that only a live host has.

ghost use Rattle.bt_desk.specs.Events.{IsOneEvent};
ghost use Rattle.bt_desk.specs.Seats.{IsSeatAt};

use crate::hints::{name_in, naming_of, put, tell_less, tell_plain, tell_show, tell_word};
use bt_desk::{Desk, Seat, Shared};
use bt_journal::Book;
use bt_mapkind::MapKind;
use bt_syntax::{Command, FileText, SyntaxFault, parse_line};
use console_answer::{Fault, Mishap};
use console_cause::{file_hint, hint_of};
use console_hint::{Hint, Place, Shown, word_at};
use console_input::FileReader;
use console_operand::behind_word;
use std::sync::Wait;

// What can stand as the word of this number, counted from 1, in a line that only a live host has. None for another line.
fn what_can(line: &[u8], number: usize) -> Option<&'static str> {
    if behind_word(line, b"workers").is_some() {
        return Some(match number {
            2 => "show, stop, go, wait",
            _ => "nothing more",
        });
    }
    let behind = behind_word(line, b"journal")?;
    if behind_word(behind, b"try").is_some() {
        return Some(match number {
            3 => "a name for its mark",
            4 => "a number of seconds, 1 to 86400",
            _ => "nothing more",
        });
    }
    match behind_word(behind, b"confirm") {
        Some(_) => Some(match number {
            3 => "the name of what is tried",
            _ => "nothing more",
        }),
        None => None,
    }
}

// What can come after `journal` on a live host alone, where a line goes wrong at that word.
fn journal_words(line: &[u8], number: usize) -> Option<&'static str> {
    match behind_word(line, b"journal") {
        Some(_) if number == 2 => Some("show, try, confirm"),
        _ => None,
    }
}

// Tells that a word of a line that only a live host has cannot stand there, and what can.
fn tell_live_word<R: Eprint>(rt: &R, place: Place<'_>, mishap: Mishap, number: usize, what: &str) {
    let naming = naming_of(mishap);
    let (file, line) = (Shown(place.file), place.number);
    let name = Shown(name_in(&naming));
    let _ = match word_at(place.line, number) {
        Some(word) => {
            let word = Shown(word);
            eprintln!(rt; "{file}:{line}: {name}: `{word}` cannot stand there; what can: {what}")
        }
        None => eprintln!(rt; "{file}:{line}: {name}: the line ends too early; what can: {what}"),
    };
}

// Tells that the second word of a line on the journal cannot stand there, and which can.
fn tell_journal<R: Eprint + AllocGlobal>(
    rt: &R,
    place: Place<'_>,
    mishap: Mishap,
    words: &'static str,
) {
    if !tell_show(rt, place, mishap) {
        tell_word(rt, place, mishap, 2, words);
    }
}

// Tells what went wrong in a line by the line alone.
fn tell_line<R: Eprint + AllocGlobal>(rt: &R, place: Place<'_>, mishap: Mishap) {
    let Mishap::Refused(Fault::Syntax(number)) = mishap else {
        return tell_plain(rt, place, mishap);
    };
    if let Some(what) = what_can(place.line, number) {
        return tell_live_word(rt, place, mishap, number, what);
    }
    match journal_words(place.line, number) {
        Some(words) => tell_journal(rt, place, mishap, words),
        None => tell_plain(rt, place, mishap),
    }
}

// A command that was refused, and what is known of that once the host was looked at.
#[derive(Drop)]
struct Looking<'a> {
    files: &'a [FileText],
    command: &'a Command,
    mishap: Mishap,
    hint: Option<Hint<'a>>,
}

impl Looking<'_> {
    // Looks at a book, which stays as it is.
    fn look<K: MapKind>(&mut self, book: &mut Book<K>)
        ensures { IsOneEvent book.old.plain book.new.plain }
    {
        self.hint = Some(hint_of(book, self.files, self.command, self.mishap));
    }
}

// The hint on a command that was refused, by the book as it is in one visit to the desk. None if the seat has no calls left.
fn hint_at<'a, K: MapKind, R: Wait>(
    rt: &R,
    desk: &Desk<K>,
    seat: &mut Seat<K>,
    files: &'a [FileText],
    command: &'a Command,
    mishap: Mishap,
) -> Option<Hint<'a>>
    requires { IsSeatAt desk.now seat.old }
    ensures { IsSeatAt desk.now seat.new }
{
    let mut looking = Looking {
        files,
        command,
        mishap,
        hint: None,
    };
    let _looked = desk.turns().visit(
        rt,
        seat,
        &mut looking,
        |shared: &mut Shared<K>, lent: &mut Looking<'_>| -> ()
            ensures { IsOneEvent shared.old shared.new }
        { lent.look(&mut shared.book) },
    );
    looking.hint
}

// Tells what went wrong in this command of a live host, by the files that it names, or by the host.
fn explain_command<K: MapKind, R: FileReader + Eprint + AllocGlobal + Wait>(
    rt: &R,
    desk: &Desk<K>,
    seat: &mut Seat<K>,
    files: &[FileText],
    command: &Command,
    place: Place<'_>,
    mishap: Mishap,
)
    requires { IsSeatAt desk.now seat.old }
    ensures { IsSeatAt desk.now seat.new }
{
    if let Some(hint) = file_hint(rt, files, command, mishap) {
        return put(rt, place, mishap, &hint);
    }
    match hint_at(rt, desk, seat, files, command, mishap) {
        Some(hint) => put(rt, place, mishap, &hint),
        None => tell_line(rt, place, mishap),
    }
}

/// Tells on standard error what went wrong in a line of a live host, by the files that it names, or by the host as it is in one
/// call of the desk after the line. Nothing of the host is changed.
pub fn explain_at<K: MapKind, R: FileReader + Eprint + AllocGlobal + Wait>(
    rt: &R,
    desk: &Desk<K>,
    seat: &mut Seat<K>,
    files: &[FileText],
    place: Place<'_>,
    mishap: Mishap,
)
    requires { IsSeatAt desk.now seat.old }
    ensures { IsSeatAt desk.now seat.new }
{
    match parse_line(rt.alloc(), place.line) {
        Ok(Some(command)) => explain_command(rt, desk, seat, files, &command, place, mishap),
        Err(SyntaxFault::NoMemory) => tell_less(rt, place, mishap),
        _ => tell_line(rt, place, mishap),
    }
}
