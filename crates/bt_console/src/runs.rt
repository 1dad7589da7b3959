//! The runs that are open, which `run step` takes on.

ghost use Rattle.std.specs.Prelude.{◌≡◌, ◌<◌, Bool, length};
ghost use Rattle.bt_console.specs.Frames.{place_of, StepsAt};

use crate::frame::{run_frame, step_in};
use bt_interp::Run;
use bt_mapkind::MapKind;
use bt_syntax::Frame;
use bt_without::Book;
use console_answer::{End, ShortAnswer};
use host_words::NoMemory;
use program_access::Access;
use program_machine::Reason;
use program_step::Outcome;
use std::alloc::Global;
use std::marker::Model;

/// How many runs may be open at once.
pub const MAX_RUNS: usize = 64;

/// The open runs, each with its number. Numbers rise from 1, and each is given once. Beside them it keeps the room in which
/// the programs of frames run.
#[derive(Drop)]
pub struct Runs {
    runs: Vec<(u64, Run)>,
    last: u64,
    /// The run of the frame before, if there was one: some 23 KB, which the next frame takes over.
    room: Option<Run>,
    /// Where the last step of a run came to: an access, or an end.
    stop: Outcome,
}

impl Model for Runs {
    ghost use Rattle.bt_console.specs.Frames.{OpenRuns};

    ghost Value = { OpenRuns };

    ghost view = { λ r. record { runs = r.runs.items; last = r.last } };
}

// Where the run of a number stands.
fn find_in(runs: &[(u64, Run)], number: u64) -> Option<usize>
    ensures { result ≡ place_of number runs.now }
{
    let mut place = 0;
    'runs: while place < runs.len() {
        if runs[place].0 == number {
            return Some(place);
        }
        place += 1;
    }
    None
}

// Takes the run at a position to its next access and through it, or to its end; a run that ended is taken away.
fn step_at<K: MapKind>(
    book: &mut Book<K>,
    runs: &mut Vec<(u64, Run)>,
    place: usize,
    stop: &mut Outcome,
) -> Option<End>
    requires { place < length runs.old.items }
    ensures { (refused : Bool) × StepsAt refused book.old.plain runs.old.items place (book.new.plain, runs.new.items, result) }
{
    let end = step_in(book, &mut runs[place].1, stop);
    if end.is_some() {
        runs.remove(place);
    }
    end
}

impl Runs {
    ghost use Rattle.std.specs.Prelude.{◌≡◌, ◌<◌, ◌+◌, IfOk, OnErr, OnOk, Bool, false, length};
    ghost use Rattle.bt_console.specs.Commands.{FrameGoes};
    ghost use Rattle.bt_console.specs.Frames.{no_runs, are_full, with_run, place_of, RunStepsAt};

    /// No run.
    pub fn new(alloc: Global) -> Runs
        ensures { result ≡ no_runs }
    {
        Runs {
            runs: Vec::new(alloc),
            last: 0,
            room: None,
            stop: Outcome::Abort(Reason::WrongKind),
        }
    }

    /// Whether no run can begin: 64 are open, or the last number was given.
    pub fn are_full(&self) -> bool
        ensures { result ≡ are_full self.now }
    {
        self.runs.len() >= MAX_RUNS || self.last == u64::MAX
    }

    /// Opens a run under the next number, and tells that.
    pub fn add(&mut self, run: Run) -> Result<u64, NoMemory>
        requires { are_full self.old ≡ false }
        ensures added { OnOk result (self.new ≡ with_run self.old run) }
        ensures number { IfOk result (λ number. number ≡ self.old.last + 1) }
        ensures refused { OnErr result (self.new ≡ self.old) }
    {
        let number = self.last + 1;
        self.runs.push((number, run))?;
        self.last = number;
        Ok(number)
    }

    /// Where the run of a number stands among the open ones.
    pub fn find(&self, number: u64) -> Option<usize>
        ensures { result ≡ place_of number self.now.runs }
    {
        find_in(&self.runs, number)
    }

    /// Takes the run at a position to its next access and through it, or to its end; a run that ended is gone.
    pub fn step<K: MapKind>(&mut self, book: &mut Book<K>, place: usize) -> Option<End>
        requires { place < length self.old.runs }
        ensures { (refused : Bool) × RunStepsAt refused book.old.plain self.old place (book.new.plain, self.new, result) }
    {
        step_at(book, &mut self.runs, place, &mut self.stop)
    }

    /// The access that the last step of a run went through, if it came to one. It is for people: no contract says which.
    pub fn asked(&self) -> Option<&Access> {
        match &self.stop {
            Outcome::Access(access) => Some(access),
            Outcome::Done(_) | Outcome::Abort(_) => None,
        }
    }

    /// Does a frame: its program is run to its end.
    pub fn frame<K: MapKind>(&mut self, book: &mut Book<K>, frame: Frame) -> ShortAnswer
        ensures same { self.new ≡ self.old }
        ensures goes { FrameGoes book.old.plain frame (book.new.plain, result) }
    {
        run_frame(book, &mut self.room, frame)
    }
}
