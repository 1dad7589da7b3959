//! A command at a desk.

ghost use Rattle.std.specs.Prelude.{◌≡◌, ◌↔◌, IsErr, IfOk, OnErr};
ghost use Rattle.thread_lock.specs.Seats.{calls_left};
ghost use Rattle.bt_desk.specs.Events.{IsOneEvent};
ghost use Rattle.bt_desk.specs.Seats.{IsSeatAt};
ghost use Rattle.console_script.specs.Frames.{console_of};
ghost use Rattle.console_script.specs.CommandLaws.{IsSingle};
ghost use Rattle.console_script.specs.Supply.{CommandRuns};
ghost use Rattle.thread_at_desk.specs.Ran.{RanAt};

use crate::session::Session;
use bt_desk::{Desk, Seat, SeatSpent, Shared};
use bt_journal::Book;
use bt_mapkind::MapKind;
use bt_syntax::Command;
use console_answer::Answer;
use console_script::{Supply, run_supplied};
use std::alloc::Global;
use std::sync::Wait;

// Does a command on a book: one event of it.
fn run_single<K: MapKind, S: Supply<K>>(
    alloc: Global,
    book: &mut Book<K>,
    session: &mut Session<S>,
    command: Command,
) -> Answer
    requires { IsSingle command }
    ensures ran { CommandRuns S.gives K.seen (console_of book.old.plain session.old.runs) session.old.supply command (console_of book.new.plain session.new.runs, result) session.new.supply }
    ensures one { IsOneEvent book.old.plain book.new.plain }
{
    run_supplied(alloc, book, &mut session.runs, &mut session.supply, command)
}

/// Does a command that is no frame in one call of the desk, and answers what it answers on the book as it is then. In the
/// history it is one call of the seat: the change, the call of the journal or the access that it makes; if it only asks, a
/// question.
///
/// # Errors
/// `SeatSpent` exactly when the seat has no calls left. The command is dropped, and nothing has changed.
pub fn run_at<K: MapKind, S: Supply<K>, R: Wait>(
    rt: &R,
    alloc: Global,
    desk: &Desk<K>,
    seat: &mut Seat<K>,
    session: &mut Session<S>,
    command: Command,
) -> Result<Answer, SeatSpent>
    requires seat { IsSeatAt desk.now seat.old }
    requires single { IsSingle command }
    ensures seat { IsSeatAt desk.now seat.new }
    ensures spent { IsErr result ↔ (calls_left seat.old ≡ 0) }
    ensures unchanged { OnErr result ((seat.new ≡ seat.old) × (session.new ≡ session.old)) }
    ensures ran { IfOk result (λ answer. RanAt S.gives K.seen desk.now session.old command answer session.new seat.old seat.new) }
{
    desk.turns().visit(
        rt,
        seat,
        session,
        |shared: &mut Shared<K>, lent: &mut Session<S>| -> Answer
            requires { IsSingle command }
            ensures ran { CommandRuns S.gives K.seen (console_of shared.old lent.old.runs) lent.old.supply command (console_of shared.new lent.new.runs, result) lent.new.supply }
            ensures one { IsOneEvent shared.old shared.new }
        { run_single(alloc, &mut shared.book, lent, command) },
    )
}
