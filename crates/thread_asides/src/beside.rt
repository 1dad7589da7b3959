//! What is told on standard error beside the answers of lines on a kept book.

use crate::forms::show_help;
use crate::heading::tell_held;
use crate::hints::tell_mishap;
use crate::looked::tell_dry;
use crate::range_turning::RangeTurning;
use crate::stepped::tell_step;
use crate::turning::Turning;
use bt_console::Runs;
use bt_journal::Book;
use bt_syntax::FileText;
use console_hint::Place;
use console_input::FileReader;
use console_operand::LineWord;
use console_script::HostKind;
use console_talk::Manner;
use console_text::Output;
use kept_lines::{Asides, Hints, Wrong};
use std::mem;

/// Where lines on a kept book come from.
#[derive(Clone, Copy)]
pub enum LineOrigin {
    /// A script: what goes wrong in it is told.
    Script,
    /// The arguments have one line: what it turned is told, too.
    Line,
    /// Somebody types: all is told.
    Dialogue,
}

impl LineOrigin {
    // What may stand in a line beside the words of commands. The first word of a line in the arguments is one of a command.
    fn beside(self) -> &'static str {
        match self {
            LineOrigin::Script => Manner::Script.beside(),
            LineOrigin::Line | LineOrigin::Dialogue => Manner::Dialogue.beside(),
        }
    }
}

/// Who is told on standard error what there is to tell of lines.
#[derive(Drop)]
pub struct Beside<'a, R> {
    rt: &'a R,
    script: &'a [u8],
    book: &'a str,
    origin: LineOrigin,
    turning: Turning,
    range: RangeTurning,
}

impl<'a, R> Beside<'a, R> {
    /// Who is told of lines that come from there. `script` is what a hint calls the script that has them, and `book` what comes
    /// before what they turned.
    pub fn new(rt: &'a R, script: &'a [u8], book: &'a str, origin: LineOrigin) -> Beside<'a, R> {
        Beside {
            rt,
            script,
            book,
            origin,
            turning: Turning::Nothing,
            range: RangeTurning::Nothing,
        }
    }
}

impl<R: FileReader + Eprint + AllocGlobal, W: Output> Hints<HostKind, W> for Beside<'_, R> {
    fn tell(
        &mut self,
        book: &mut Book<HostKind>,
        files: &[FileText],
        wrong: Wrong<'_>,
        out: &mut W,
    ) {
        let place = Place {
            file: self.script,
            number: wrong.number,
            line: wrong.line,
            beside: self.origin.beside(),
        };
        let place = place.refused_behind(files, wrong.accepted);
        match out.flush_all() {
            Ok(()) => tell_mishap(self.rt, book, files, place, wrong.mishap),
            Err(_) => {}
        }
    }
}

impl<R: FileReader + Eprint + AllocGlobal, W: Output> Asides<HostKind, W> for Beside<'_, R> {
    fn help(&mut self, line: &[u8]) {
        show_help(self.rt, line, false);
    }

    fn would_undo(&mut self, book: &Book<HostKind>, mark: &Option<LineWord<'_>>) {
        tell_dry(self.rt, self.book, book, mark);
    }

    fn before(&mut self, book: &Book<HostKind>, text: &[u8]) {
        match self.origin {
            LineOrigin::Script => return,
            LineOrigin::Line => {}
            LineOrigin::Dialogue => tell_held(self.rt, book, text),
        }
        self.turning = Turning::before(self.rt.alloc(), book, text);
        self.range = RangeTurning::before(self.rt.alloc(), book, text);
    }

    fn turned(&mut self, book: &Book<HostKind>) {
        let turning = mem::replace(&mut self.turning, Turning::Nothing);
        turning.tell(self.rt, self.book, book);
        let range = mem::replace(&mut self.range, RangeTurning::Nothing);
        range.tell(self.rt, self.book);
    }

    fn step(&mut self, runs: &Runs, line: &[u8]) {
        tell_step(self.rt, runs, line);
    }
}
