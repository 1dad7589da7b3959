//! Lines of an input, each answered when it is given.

ghost use Rattle.std.specs.Prelude.{◌≡◌, List, IfOk, IfErr, OnOk};
ghost use Rattle.bt_syntax.specs.declared.files.FileText.{FileText};
ghost use Rattle.bt_console.specs.Frames.{console_of};
ghost use Rattle.console_input.specs.Named.{AreFilesOf};
ghost use Rattle.console_script.specs.Supplied.{AreSupplied};
ghost use Rattle.console_looks.specs.Answered.{ShowsSerial};
ghost use Rattle.console_talk.specs.Talk.{standing, said, TellsLook, IsAnswered, Goes, Talked};
ghost use Rattle.bpfcon.specs.Ends.{EndsLines};

use crate::answered::answer;
use crate::fault::Fault;
use bt_console::Supply;
use bt_journal::Book;
use bt_mapkind::MapKind;
use bt_syntax::first_line;
use console_hint::Place;
use console_input::{FileReader, MOST_SCRIPT, read_named};
use console_looks::{Look, answer_show};
use console_script::{Dialogue, Summary};
use console_talk::{Manner, read_line};
use console_text::Output;
use std::io::BufRead;
use thread_asides::{Turning, show_help, tell_dry, tell_held, tell_step};

/// What standard input is called if it was not read.
pub(crate) const INPUT: &str = "standard input";

// Tells somebody who types of the journal above its list, and looks at what the line would turn in it.
fn look_before<R: Eprint + AllocGlobal, K: MapKind>(
    rt: &R,
    manner: Manner,
    book: &Book<K>,
    line: &[u8],
) -> Turning {
    match manner {
        Manner::Script => Turning::Nothing,
        Manner::Dialogue => {
            tell_held(rt, book, line);
            Turning::before(rt.alloc(), book, line)
        }
    }
}

// Tells somebody who types what a line turned, and which access a step of a run went through, if the line was accepted. `before`
// lines had been accepted before it.
fn told_after<R: Eprint + AllocGlobal, K: MapKind>(
    rt: &R,
    manner: Manner,
    turning: Turning,
    book: &Book<K>,
    dialogue: &Dialogue,
    before: u64,
    line: &[u8],
) {
    match manner {
        Manner::Script => {}
        Manner::Dialogue => {
            if dialogue.summary().accepted > before {
                turning.tell(rt, "bpfcon", book);
                tell_step(rt, dialogue.runs(), line);
            }
        }
    }
}

// Runs one line with the files that it names, and has its answer stand on the output when it returns.
fn answer_now<R: FileReader + Eprint + AllocGlobal, K: MapKind, S: Supply<K>, W: Output>(
    rt: &R,
    book: &mut Book<K>,
    dialogue: &mut Dialogue,
    supply: &mut S,
    place: Place<'_>,
    out: &mut W,
) -> Result<(), Fault>
    ensures answered { IfOk result (λ _. (files : List FileText) × IsAnswered (AreSupplied S.gives K.seen) (AreFilesOf (R.may_read rt.now)) (said place.entry.line.now files) supply.old
        (standing (console_of book.old.plain dialogue.old.runs) dialogue.old.summary) (W.contents out.old) supply.new (standing (console_of book.new.plain dialogue.new.runs) dialogue.new.summary) (W.contents out.new)) }
    ensures only { IfErr result (EndsLines (W.has_refused out.new)) }
{
    let files = read_named(rt, place.line)?;
    answer(rt, book, dialogue, supply, files.as_slice(), place, out)?;
    match out.flush_all() {
        Ok(()) => Ok(()),
        Err(_) => Err(Fault::CannotWrite),
    }
}

// Shows the change of a serial.
fn show_now<K: MapKind, W: Output>(
    book: &mut Book<K>,
    serial: u64,
    out: &mut W,
) -> Result<(), Fault>
    ensures shown { OnOk result (ShowsSerial serial book.old.plain (W.contents out.old) (W.contents out.new)) }
    ensures same { book.new.plain ≡ book.old.plain }
    ensures only { IfErr result (EndsLines (W.has_refused out.new)) }
{
    match answer_show(book, serial, out) {
        Ok(_looked) => Ok(()),
        Err(_) => Err(Fault::CannotWrite),
    }
}

// Does what a line asks that only looks into the journal.
fn look_now<R: Eprint + AllocGlobal, K: MapKind, W: Output>(
    rt: &R,
    book: &mut Book<K>,
    look: &Look<'_>,
    out: &mut W,
) -> Result<(), Fault>
    ensures told { OnOk result (TellsLook look.now book.old.plain (W.contents out.old) (W.contents out.new)) }
    ensures same { book.new.plain ≡ book.old.plain }
    ensures only { IfErr result (EndsLines (W.has_refused out.new)) }
{
    match look {
        Look::Show(serial) => show_now(book, *serial, out),
        Look::DryUndo(mark) => {
            tell_dry(rt, "bpfcon", book, mark);
            Ok(())
        }
    }
}

// Gives help on standard error if a line asks for it, looks into the journal if it asks for that, and else answers the line, and
// tells what there is to tell beside its answer.
fn hear<R: FileReader + Eprint + AllocGlobal, K: MapKind, S: Supply<K>, W: Output>(
    rt: &R,
    manner: Manner,
    book: &mut Book<K>,
    dialogue: &mut Dialogue,
    supply: &mut S,
    place: Place<'_>,
    out: &mut W,
) -> Result<(), Fault>
    ensures ran { IfOk result (λ _. (files : List FileText) × Goes (AreSupplied S.gives K.seen) (AreFilesOf (R.may_read rt.now)) manner (said place.entry.line.now files) supply.old
        (standing (console_of book.old.plain dialogue.old.runs) dialogue.old.summary) (W.contents out.old) supply.new (standing (console_of book.new.plain dialogue.new.runs) dialogue.new.summary) (W.contents out.new)) }
    ensures only { IfErr result (EndsLines (W.has_refused out.new)) }
{
    if manner.is_asked_by(place.line) {
        show_help(rt, place.line, false);
        return Ok(());
    }
    match manner.look_in(place.line) {
        Some(look) => look_now(rt, book, &look, out),
        None => {
            let turning = look_before(rt, manner, book, place.line);
            let before = dialogue.summary().accepted;
            let ran = answer_now(rt, book, dialogue, supply, place, out);
            told_after(rt, manner, turning, book, dialogue, before, place.line);
            ran
        }
    }
}

/// Answers the lines of an input one by one, up to its end, or in a dialogue to a `quit` or `exit`. The files that a line names
/// are read when it is given. What is wrong with a line that is refused is told on standard error, and so is the help for which
/// a line of a dialogue asks, and what a line of it turned in the journal.
///
/// # Errors
/// `Unread` if a read fails or more than 16,777,216 bytes come, `CannotWrite`, and `NoMemory` if there is none for a line
/// or a file. What was answered before stands on the output.
pub fn answer_lines<
    R: FileReader + Eprint + AllocGlobal,
    K: MapKind,
    S: Supply<K>,
    I: BufRead,
    W: Output,
>(
    rt: &R,
    manner: Manner,
    book: &mut Book<K>,
    supply: &mut S,
    input: &mut I,
    out: &mut W,
) -> Result<Summary, Fault>
    ensures ran { IfOk result (λ summary. Talked (AreSupplied S.gives K.seen) (AreFilesOf (R.may_read rt.now)) manner (I.remaining input.old) book.old.plain supply.old (W.contents out.old)
        book.new.plain supply.new (W.contents out.new) summary) }
    ensures only { IfErr result (EndsLines (W.has_refused out.new)) }
{
    let mut dialogue = Dialogue::new(rt.alloc());
    let mut given = Vec::new(rt.alloc());
    let mut left = MOST_SCRIPT;
    let mut number = 0u64;
    'lines: loop {
        manner.ask(rt);
        left = match read_line(input, &mut given, left) {
            Ok(left) => left,
            Err(fault) => return Err(Fault::of_read(rt.alloc(), INPUT, fault)),
        };
        let text = given.as_slice();
        if text.is_empty() {
            break;
        }
        let (line, _) = first_line(text);
        if manner.is_ended_by(line) {
            break;
        }
        number = number.saturating_add(1);
        let place = Place {
            file: b"stdin",
            number,
            line,
            beside: manner.beside(),
        };
        hear(rt, manner, book, &mut dialogue, supply, place, out)?;
    }
    Ok(dialogue.summary())
}
