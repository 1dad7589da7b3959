//! How much of the journal comes after a mark.

ghost use Rattle.std.specs.Prelude.{◌≡◌, IfOk, OnErr};
ghost use Rattle.bt_desk.specs.Events.{IsOneEvent};
ghost use Rattle.bt_desk.specs.Seats.{IsSeatAt};
ghost use Rattle.thread_trial.specs.Kept.{moments_since, LooksAt};

use bt_desk::{Desk, Seat, SeatSpent, Shared};
use bt_journal::Book;
use bt_mapkind::MapKind;
use host_words::Word;
use std::sync::Wait;

// How many moments came after a mark of a book, which stays as it is.
fn count<K: MapKind>(book: &mut Book<K>, mark: &Word) -> Option<u64>
    ensures same { book.new.plain ≡ book.old.plain }
    ensures count { result ≡ moments_since mark.now book.old.plain }
    ensures one { IsOneEvent book.old.plain book.new.plain }
{
    book.moments_since(mark)
}

/// How many moments came after a mark of the book at a desk, in one call of it; none if no mark of this name stands.
///
/// # Errors
/// `SeatSpent` if the seat has no calls left. Nothing has changed then.
pub(crate) fn since_at<K: MapKind, R: Wait>(
    rt: &R,
    desk: &Desk<K>,
    seat: &mut Seat<K>,
    mark: &Word,
) -> Result<Option<u64>, SeatSpent>
    requires { IsSeatAt desk.now seat.old }
    ensures seat { IsSeatAt desk.now seat.new }
    ensures spent { OnErr result (seat.new ≡ seat.old) }
    ensures looked { IfOk result (λ since. LooksAt desk.now mark.now since seat.old seat.new) }
{
    desk.turns().visit(
        rt,
        seat,
        &mut (),
        |shared: &mut Shared<K>, _nothing: &mut ()| -> Option<u64>
            ensures same { shared.new ≡ shared.old }
            ensures count { result ≡ moments_since mark.entry.now shared.old }
            ensures one { IsOneEvent shared.old shared.new }
        { count(&mut shared.book, mark) },
    )
}
