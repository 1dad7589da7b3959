//! A frame at a desk.

ghost use Rattle.std.specs.Prelude.{◌≡◌, Bool, List, IfOk, OnErr};
ghost use Rattle.thread_lock.specs.Seats.{calls_left};
ghost use Rattle.bt_desk.specs.Events.{IsOneEvent};
ghost use Rattle.bt_desk.specs.Seats.{IsSeatAt};
ghost use Rattle.console_reference.specs.References.{ToldUnlessRefused};
ghost use Rattle.console_script.specs.Frames.{run_on, stepped};
ghost use Rattle.thread_at_desk.specs.Framed.{BegunAt, SteppedAt, RunsAt, GoesOn, FrameAt};

use bt_desk::{Desk, Seat, SeatSpent, Shared};
use bt_interp::Run;
use bt_journal::Book;
use bt_mapkind::MapKind;
use bt_syntax::Frame;
use console_answer::{Answer, End, Fault};
use console_script::frame::{begin_on, step};
use std::sync::Wait;

// Begins a frame on a book, which stays as it is.
fn begin<K: MapKind>(book: &mut Book<K>, frame: Frame) -> Result<Option<Run>, Fault>
    ensures same { book.new.plain ≡ book.old.plain }
    ensures begins { ToldUnlessRefused (run_on book.old.plain frame) result }
    ensures one { IsOneEvent book.old.plain book.new.plain }
{
    begin_on(book, frame)
}

// Begins a frame in one call.
fn begin_at<K: MapKind, R: Wait>(
    rt: &R,
    desk: &Desk<K>,
    seat: &mut Seat<K>,
    frame: Frame,
) -> Result<Result<Option<Run>, Fault>, SeatSpent>
    requires { IsSeatAt desk.now seat.old }
    ensures seat { IsSeatAt desk.now seat.new }
    ensures spent { OnErr result (calls_left seat.new ≡ 0) }
    ensures began { IfOk result (λ begun. BegunAt desk.now frame begun seat.old seat.new) }
{
    desk.turns().visit(
        rt,
        seat,
        &mut (),
        |shared: &mut Shared<K>, _nothing: &mut ()| -> Result<Option<Run>, Fault>
            ensures same { shared.new ≡ shared.old }
            ensures begins { ToldUnlessRefused (run_on shared.old frame) result }
            ensures one { IsOneEvent shared.old shared.new }
        { begin(&mut shared.book, frame) },
    )
}

// Takes a run on by one access on a book: one event of it.
fn step_on<K: MapKind>(book: &mut Book<K>, run: &mut Run) -> Option<End>
    ensures does { (refused : Bool) × ((book.new.plain, run.new, result) ≡ stepped refused book.old.plain run.old) }
    ensures one { IsOneEvent book.old.plain book.new.plain }
{
    step(book, run)
}

// Takes a run on in one call: to its next access and through it, or to its end.
fn step_at<K: MapKind, R: Wait>(
    rt: &R,
    desk: &Desk<K>,
    seat: &mut Seat<K>,
    run: &mut Run,
) -> Result<Option<End>, SeatSpent>
    requires { IsSeatAt desk.now seat.old }
    ensures seat { IsSeatAt desk.now seat.new }
    ensures spent { OnErr result (calls_left seat.new ≡ 0) }
    ensures stepped { IfOk result (λ end. SteppedAt desk.now run.old end run.new seat.old seat.new) }
{
    desk.turns().visit(
        rt,
        seat,
        run,
        |shared: &mut Shared<K>, lent: &mut Run| -> Option<End>
            ensures does { (refused : Bool) × ((shared.new, lent.new, result) ≡ stepped refused shared.old lent.old) }
            ensures one { IsOneEvent shared.old shared.new }
        { step_on(&mut shared.book, lent) },
    )
}

// Takes a run to its end, one call an access.
fn finish_at<K: MapKind, R: Wait>(
    rt: &R,
    desk: &Desk<K>,
    seat: &mut Seat<K>,
    run: &mut Run,
) -> Result<End, SeatSpent>
    requires { IsSeatAt desk.now seat.old }
    ensures seat { IsSeatAt desk.now seat.new }
    ensures spent { OnErr result (calls_left seat.new ≡ 0) }
    ensures ran { IfOk result (λ end. RunsAt desk.now run.old seat.old end seat.new) }
{
    'steps: loop {
        match step_at(rt, desk, seat, run) {
            Ok(Some(end)) => return Ok(end),
            Ok(None) => {}
            Err(spent) => return Err(spent),
        }
    }
}

// What comes of a frame that began so.
fn go_on<K: MapKind, R: Wait>(
    rt: &R,
    desk: &Desk<K>,
    seat: &mut Seat<K>,
    begun: Result<Option<Run>, Fault>,
) -> Result<Answer, SeatSpent>
    requires { IsSeatAt desk.now seat.old }
    ensures seat { IsSeatAt desk.now seat.new }
    ensures spent { OnErr result (calls_left seat.new ≡ 0) }
    ensures goes { IfOk result (λ answer. GoesOn desk.now begun answer seat.old seat.new) }
{
    match begun {
        Ok(Some(run)) => {
            let mut run = run;
            match finish_at(rt, desk, seat, &mut run) {
                Ok(end) => Ok(Answer::Ended(end)),
                Err(spent) => Err(spent),
            }
        }
        Ok(None) => Ok(Answer::Ended(End::NoProgram)),
        Err(fault) => Ok(Answer::Refused(fault)),
    }
}

/// Does a frame: its program is started in one call of the desk and taken to its end in one for each access, so that other
/// threads work between its accesses, as they do between those of a worker's frame. Each call does what it does in a script, on
/// the book as it is then.
///
/// # Errors
/// `SeatSpent` if the seat has no calls left for the next access. Those before it stand.
pub fn frame_at<K: MapKind, R: Wait>(
    rt: &R,
    desk: &Desk<K>,
    seat: &mut Seat<K>,
    frame: Frame,
) -> Result<Answer, SeatSpent>
    requires { IsSeatAt desk.now seat.old }
    ensures seat { IsSeatAt desk.now seat.new }
    ensures spent { OnErr result (calls_left seat.new ≡ 0) }
    ensures ran { IfOk result (λ answer. FrameAt desk.now frame answer seat.old seat.new) }
{
    match begin_at(rt, desk, seat, frame) {
        Ok(begun) => go_on(rt, desk, seat, begun),
        Err(spent) => Err(spent),
    }
}
