//! How far the journal of the book at a desk has come.

ghost use Rattle.std.specs.Prelude.{◌≡◌, IfOk, OnErr, length};
ghost use Rattle.thread_lock.specs.Seats.{calls_left};
ghost use Rattle.bt_desk.specs.Events.{IsOneEvent};
ghost use Rattle.bt_desk.specs.Seats.{IsSeatAt};
ghost use Rattle.thread_at_desk.specs.Ran.{CountedAt};

use bt_desk::{Desk, Seat, SeatSpent, Shared};
use bt_journal::Book;
use bt_mapkind::MapKind;
use std::sync::Wait;

// How many moments are in force in a book, which stays as it is.
fn count<K: MapKind>(book: &mut Book<K>) -> u64
    ensures same { book.new.plain ≡ book.old.plain }
    ensures count { result ≡ length book.old.plain.line.moments }
    ensures one { IsOneEvent book.old.plain book.new.plain }
{
    book.moments()
}

/// How many moments are in force at a desk, in one call of it.
///
/// # Errors
/// `SeatSpent` if the seat has no calls left.
pub fn moments_at<K: MapKind, R: Wait>(
    rt: &R,
    desk: &Desk<K>,
    seat: &mut Seat<K>,
) -> Result<u64, SeatSpent>
    requires { IsSeatAt desk.now seat.old }
    ensures seat { IsSeatAt desk.now seat.new }
    ensures spent { OnErr result (calls_left seat.new ≡ 0) }
    ensures counted { IfOk result (λ count. CountedAt desk.now count seat.old seat.new) }
{
    desk.turns().visit(
        rt,
        seat,
        &mut (),
        |shared: &mut Shared<K>, _nothing: &mut ()| -> u64
            ensures same { shared.new ≡ shared.old }
            ensures count { result ≡ length shared.old.line.moments }
            ensures one { IsOneEvent shared.old shared.new }
        { count(&mut shared.book) },
    )
}
