//! What an operator is told on standard error of a line that was refused, or whose program was aborted.

ghost use Rattle.std.specs.Prelude.{◌≡◌};

use bt_journal::Book;
use bt_mapkind::MapKind;
use bt_syntax::{Command, FileText, SyntaxFault, parse_line};
use console_answer::{End, Fault as LineFault, Mishap};
use console_cause::{NO_ACTION, NOTHING_CHANGED, file_hint, hint_of};
use console_hint::{Hint, Misstep, Place, Shown, advice, word_hint};
use console_input::FileReader;
use console_operand::behind_word;
use console_text::{put_aborted, put_end, put_fault};
use program_step::Action;
use std::io::Cursor;

/// A line with the name of a mishap, as a transcript has it.
pub(crate) type Naming = Cursor<[u8; 64]>;

/// What a mishap is called in a transcript. It takes no memory.
pub(crate) fn naming_of(mishap: Mishap) -> Naming {
    let mut line = Cursor::new([0u8; 64]);
    let _ = match mishap {
        Mishap::Refused(fault) => put_fault(&mut line, fault),
        Mishap::Aborted(abort) => put_aborted(&mut line, abort.reason),
        Mishap::NoAction => put_end(&mut line, End::Done(Action::Aborted)),
    };
    line
}

/// The name in such a line: what comes after `Error: `.
pub(crate) fn name_in(line: &Naming) -> &[u8] {
    let room = line.get_ref().as_slice();
    let len = room.len().min(line.position() as usize);
    let (text, _) = room.split_at(len);
    let text = text.strip_suffix(b"\n").unwrap_or(text);
    text.strip_prefix(b"Error: ").unwrap_or(text)
}

/// Tells a hint on a line; if standard error takes nothing, no one is told.
pub fn put<R: Eprint>(rt: &R, place: Place<'_>, mishap: Mishap, hint: &Hint<'_>) {
    let naming = naming_of(mishap);
    let (file, number) = (Shown(place.file), place.number);
    let name = Shown(name_in(&naming));
    let _ = eprintln!(rt; "{file}:{number}: {name}: {hint}");
}

// What to know of a mishap, if no fact of the host says more.
fn plain<'a>(mishap: Mishap) -> Hint<'a> {
    match mishap {
        Mishap::Refused(fault) => Hint::Plain(advice(fault)),
        Mishap::Aborted(abort) => Hint::Aborted(Misstep { abort, insn: None }),
        Mishap::NoAction => Hint::Plain(NO_ACTION),
    }
}

/// Tells on standard error that a word of a line cannot stand there, and which can: those of `beside` too, which no command has.
pub fn tell_word<R: Eprint + AllocGlobal>(
    rt: &R,
    place: Place<'_>,
    mishap: Mishap,
    number: usize,
    beside: &'static str,
) {
    match word_hint(rt.alloc(), place.line, number) {
        Ok(mut hint) => {
            hint.beside = beside;
            put(rt, place, mishap, &Hint::Word(hint));
        }
        Err(_) => put(rt, place, mishap, &plain(mishap)),
    }
}

// What comes after `journal` in a line of somebody who types, whom scripts are not.
fn behind_journal(place: Place<'_>) -> Option<&[u8]> {
    if place.beside.is_empty() {
        return None;
    }
    behind_word(place.line, b"journal")
}

// What can come after `journal` for somebody who types, beside what scripts have.
fn looks(place: Place<'_>) -> &'static str {
    match behind_journal(place) {
        Some(_) => "show",
        None => "",
    }
}

/// Tells somebody who types what comes after `journal show`, and whether the line begins so.
pub(crate) fn tell_show<R: Eprint>(rt: &R, place: Place<'_>, mishap: Mishap) -> bool {
    let Some(behind) = behind_journal(place) else {
        return false;
    };
    if behind_word(behind, b"show").is_none() {
        return false;
    }
    let naming = naming_of(mishap);
    let (file, number) = (Shown(place.file), place.number);
    let name = Shown(name_in(&naming));
    let _ = eprintln!(rt;
        "{file}:{number}: {name}: after `journal show` comes the serial of a change, and nothing more"
    );
    true
}

// Tells that the second word of a line cannot stand there, and which can.
fn tell_second<R: Eprint + AllocGlobal>(rt: &R, place: Place<'_>, mishap: Mishap) {
    if !tell_show(rt, place, mishap) {
        tell_word(rt, place, mishap, 2, looks(place));
    }
}

/// Tells on standard error what went wrong in a line, by the line alone.
pub fn tell_plain<R: Eprint + AllocGlobal>(rt: &R, place: Place<'_>, mishap: Mishap) {
    match mishap {
        Mishap::Refused(LineFault::Syntax(1)) => tell_word(rt, place, mishap, 1, place.beside),
        Mishap::Refused(LineFault::Syntax(2)) => tell_second(rt, place, mishap),
        Mishap::Refused(LineFault::Syntax(number)) => tell_word(rt, place, mishap, number, ""),
        _ => put(rt, place, mishap, &plain(mishap)),
    }
}

/// Tells on standard error of a line of which memory is lacking to say more.
pub fn tell_less<R: Eprint>(rt: &R, place: Place<'_>, mishap: Mishap) {
    let hint = match mishap {
        Mishap::Refused(_) => Hint::Plain(NOTHING_CHANGED),
        Mishap::Aborted(_) | Mishap::NoAction => plain(mishap),
    };
    put(rt, place, mishap, &hint);
}

// Tells what went wrong in a command, by the files that it names or by what stands in the host.
fn tell_command<R: FileReader + Eprint + AllocGlobal, K: MapKind>(
    rt: &R,
    book: &mut Book<K>,
    files: &[FileText],
    place: Place<'_>,
    command: &Command,
    mishap: Mishap,
)
    ensures { book.new.plain ≡ book.old.plain }
{
    if let Some(hint) = file_hint(rt, files, command, mishap) {
        put(rt, place, mishap, &hint);
        return;
    }
    let hint = hint_of(book, files, command, mishap);
    put(rt, place, mishap, &hint);
}

/// Tells on standard error what went wrong in a line, by what stands in the host. Nothing of it is changed.
pub fn tell_mishap<R: FileReader + Eprint + AllocGlobal, K: MapKind>(
    rt: &R,
    book: &mut Book<K>,
    files: &[FileText],
    place: Place<'_>,
    mishap: Mishap,
)
    ensures { book.new.plain ≡ book.old.plain }
{
    match parse_line(rt.alloc(), place.line) {
        Ok(Some(command)) => tell_command(rt, book, files, place, &command, mishap),
        Err(SyntaxFault::NoMemory) => tell_less(rt, place, mishap),
        _ => tell_plain(rt, place, mishap),
    }
}
