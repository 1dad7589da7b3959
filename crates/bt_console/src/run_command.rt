//! The commands on runs done to a console.

ghost use Rattle.std.specs.Prelude.{◌≡◌, ℕ};
ghost use Rattle.bt_console.specs.Frames.{console_of, run_start, run_step};
ghost use Rattle.bt_console.specs.Commands.{DoneUnlessRefused, RunGoes};
ghost use Rattle.bt_syntax.specs.declared.run.RunCommand.TheVariants as commands;

use crate::frame::begin_on;
use crate::runs::Runs;
use bt_mapkind::{Errno, MapKind};
use bt_syntax::{Frame, RunCommand};
use bt_without::Book;
use console_answer::{Answer, Fault};

/// Begins a run of the program at a frame's device.
fn start<K: MapKind>(book: &mut Book<K>, runs: &mut Runs, frame: Frame) -> Answer
    ensures { DoneUnlessRefused (console_of book.old.plain runs.old)
        (run_start (console_of book.old.plain runs.old) frame) (console_of book.new.plain runs.new, result) }
{
    if runs.are_full() {
        return Answer::Refused(Fault::RunsFull);
    }
    let run = match begin_on(book, frame) {
        Ok(Some(run)) => run,
        Ok(None) => return Answer::Refused(Fault::Errno(Errno::ENOENT)),
        Err(fault) => return Answer::Refused(fault),
    };
    match runs.add(run) {
        Ok(number) => Answer::Started(number),
        Err(_) => Answer::Refused(Fault::NoMemory),
    }
}

/// Takes the run of a number to its next access and through it, or to its end; a run that ended is gone.
fn step<K: MapKind>(book: &mut Book<K>, runs: &mut Runs, number: u64) -> Answer
    ensures { RunGoes (console_of book.old.plain runs.old) (commands.Step number) (console_of book.new.plain runs.new, result) }
{
    let Some(place) = runs.find(number) else {
        return Answer::Refused(Fault::NoRun);
    };
    match runs.step(book, place) {
        None => Answer::Accessed(number),
        Some(end) => Answer::Stopped { run: number, end },
    }
}

/// Does a command on runs, and answers.
#[inline(never)]
pub fn run_runs<K: MapKind>(book: &mut Book<K>, runs: &mut Runs, command: RunCommand) -> Answer
    ensures { RunGoes (console_of book.old.plain runs.old) command (console_of book.new.plain runs.new, result) }
{
    match command {
        RunCommand::Start(frame) => start(book, runs, frame),
        RunCommand::Step(number) => step(book, runs, number),
    }
}
