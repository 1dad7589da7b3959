//! Who takes a change back that was tried.

ghost use Rattle.std.specs.Prelude.{◌≡◌, IfSome, IfNone};
ghost use Rattle.bt_desk.specs.Seats.{IsSeatAt};
ghost use Rattle.thread_trial.specs.Kept.{Undoes, Keeps};

use crate::ended::{Ended, TrialEnd};
use crate::trial::Trial;
use crate::trials::Trials;
use bt_desk::{Answer, Desk, Event, Seat};
use bt_mapkind::MapKind;
use std::sync::Wait;
use std::time::Clock;

/// Undoes to the mark of a try. What is to be told of it, by whether its time was up.
pub(crate) fn undo<K: MapKind, R: Wait>(
    rt: &R,
    desk: &Desk<K>,
    seat: &mut Seat<K>,
    trial: Trial,
    is_due: bool,
) -> Ended
    requires { IsSeatAt desk.now seat.old }
    ensures seat { IsSeatAt desk.now seat.new }
    ensures undone { Undoes trial.name seat.old seat.new }
    ensures named { result.name ≡ trial.name }
{
    let Trial {
        name,
        spare,
        until: _,
    } = trial;
    let end = match desk.call(rt, seat, Event::UndoTo(spare)) {
        Ok(Answer::UndoneTo(Ok(count))) => {
            if is_due {
                TrialEnd::Undone(count)
            } else {
                TrialEnd::Crowded(count)
            }
        }
        Ok(_) => TrialEnd::Gone,
        Err(_) => TrialEnd::Spent,
    };
    Ended { name, end }
}

/// What the keeper's thread does: it waits for tries, and undoes to the mark of one when its time is up, or when half of the
/// moments that the journal keeps came after it, and says so on standard error. It comes back when [`give_back`] was called.
///
/// Each call that the seat gained is a look at the journal or an undo to a mark. Nothing is said of when they come.
pub fn keep<K: MapKind, R: Wait + Clock + Eprint>(
    rt: &R,
    desk: &Desk<K>,
    seat: &mut Seat<K>,
    trials: &Trials,
)
    requires { IsSeatAt desk.now seat.old }
    ensures seat { IsSeatAt desk.now seat.new }
    ensures kept { Keeps desk.now seat.old seat.new }
{
    'looks: for _ in rt.forever() {
        if !trials.await_look(rt) {
            break;
        }
        if let Some(ended) = trials.look(rt, desk, seat) {
            let _ = rt.eprintln(ended);
        }
    }
}

/// Undoes to the mark of the pending try at once, if there is one, and has the keeper come back: no change is tried any more.
/// What is to be told of the try.
pub fn give_back<K: MapKind, R: Wait>(
    rt: &R,
    desk: &Desk<K>,
    seat: &mut Seat<K>,
    trials: &Trials,
) -> Option<Ended>
    requires { IsSeatAt desk.now seat.old }
    ensures seat { IsSeatAt desk.now seat.new }
    ensures kept { Keeps desk.now seat.old seat.new }
    ensures undone { IfSome result (λ ended. Undoes ended.name seat.old seat.new) }
    ensures still { IfNone result (seat.new ≡ seat.old) }
{
    match trials.close(rt) {
        Some(trial) => Some(undo(rt, desk, seat, trial, true)),
        None => None,
    }
}
