//! Frames on devices: a run of the attached program that the book answers, to its next access or to its end.

ghost use Rattle.std.specs.Prelude.{◌≡◌, ◌<◌, ◌≤◌, List, Bool, IfNone, Some};
ghost use Rattle.console_reference.specs.References.{ToldUnlessRefused};
ghost use Rattle.bt_interp.specs.Runs.{IsPending};
ghost use Rattle.bt_console.specs.Frames.{begun_with, run_on, told, taken, stepped, framed, RunsFrom};
ghost use Rattle.bt_console.specs.Commands.{FrameGoes};

use bt_interp::Run;
use bt_mapkind::MapKind;
use bt_syntax::{Frame, FrameBytes};
use bt_verify::Program;
use bt_without::Book;
use console_answer::{End, Fault, ShortAnswer};
use journal_model::StartFault;
use program_access::Access;
use program_machine::Reason;
use program_step::Outcome;

// The run of a program that was picked, on a frame of these bytes.
fn begin(
    bytes: FrameBytes,
    picked: Result<Option<(Program, u32)>, StartFault>,
) -> Result<Option<Run>, Fault>
    ensures { result ≡ begun_with bytes picked }
{
    match picked {
        Ok(Some((program, ifindex))) => Ok(Some(Run::start(program, ifindex, bytes.into_vec()))),
        Ok(None) => Ok(None),
        Err(fault) => Err(Fault::of_start(fault)),
    }
}

/// The run of the program at a frame's device; none if no program is attached.
pub fn begin_on<K: MapKind>(book: &mut Book<K>, frame: Frame) -> Result<Option<Run>, Fault>
    ensures same { book.new.plain ≡ book.old.plain }
    ensures begins { ToldUnlessRefused (run_on book.old.plain frame) result }
{
    let picked = book.start(frame.device);
    begin(frame.bytes, picked)
}

// Answers the access at which a run waits; how the run ended by that, if it did.
fn answer<K: MapKind>(book: &mut Book<K>, run: &mut Run, access: &Access) -> Option<End>
    requires { IsPending run.old.phase }
    ensures does { (refused : Bool) × ((book.new.plain, run.new, result) ≡ taken run.old (told refused book.old.plain run.old.program.id access.now)) }
    ensures few { run.new.machine.steps ≤ 139264 }
{
    let reply = book.serve(run.prog(), access);
    let end = run.take(reply);
    let _steps = run.steps();
    end
}

/// Takes a run to its next access and through it, or to its end, by a place for where it stops; how it ended, if it did.
pub fn step_in<K: MapKind>(book: &mut Book<K>, run: &mut Run, outcome: &mut Outcome) -> Option<End>
    ensures does { (refused : Bool) × ((book.new.plain, run.new, result) ≡ stepped refused book.old.plain run.old) }
    ensures more { IfNone result (run.old.machine.steps < run.new.machine.steps) }
    ensures few { IfNone result (run.new.machine.steps ≤ 139264) }
{
    match run.next_access(outcome) {
        Ok(access) => answer(book, run, access),
        Err(end) => Some(end),
    }
}

/// Takes a run to its next access and through it, or to its end; how it ended, if it did.
pub fn step<K: MapKind>(book: &mut Book<K>, run: &mut Run) -> Option<End>
    ensures does { (refused : Bool) × ((book.new.plain, run.new, result) ≡ stepped refused book.old.plain run.old) }
    ensures more { IfNone result (run.old.machine.steps < run.new.machine.steps) }
    ensures few { IfNone result (run.new.machine.steps ≤ 139264) }
{
    let mut outcome = Outcome::Abort(Reason::WrongKind);
    step_in(book, run, &mut outcome)
}

// Takes a run to its end.
fn finish<K: MapKind>(book: &mut Book<K>, run: &mut Run) -> End
    ensures { (wants : List Bool) × (framed wants book.old.plain run.old ≡ (book.new.plain, Some result)) }
{
    let mut outcome = Outcome::Abort(Reason::WrongKind);
    'steps: loop {
        if let Some(end) = step_in(book, run, &mut outcome) {
            return end;
        }
    }
}

// Runs the program that was picked for a frame of these bytes to its end.
fn run_picked<K: MapKind>(
    book: &mut Book<K>,
    room: &mut Option<Run>,
    bytes: FrameBytes,
    picked: Result<Option<(Program, u32)>, StartFault>,
) -> ShortAnswer
    ensures { RunsFrom book.old.plain (begun_with bytes picked) (book.new.plain, result) }
{
    match picked {
        Ok(Some((program, ifindex))) => {
            let run = Run::start_in(room, program, ifindex, bytes.into_vec());
            ShortAnswer::ended(finish(book, run))
        }
        Ok(None) => ShortAnswer::ended(End::NoProgram),
        Err(fault) => ShortAnswer::refused(Fault::of_start(fault)),
    }
}

/// Does a frame: its program is run to its end. The run takes over the room of the frame before it.
pub fn run_frame<K: MapKind>(
    book: &mut Book<K>,
    room: &mut Option<Run>,
    frame: Frame,
) -> ShortAnswer
    ensures { FrameGoes book.old.plain frame (book.new.plain, result) }
{
    let picked = book.start(frame.device);
    run_picked(book, room, frame.bytes, picked)
}
