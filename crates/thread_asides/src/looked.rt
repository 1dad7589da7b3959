//! The lines that only look at the journal: on a book, and at a desk.

ghost use Rattle.std.specs.Prelude.{◌≡◌, ◌↔◌, IfOk, IsErr};
ghost use Rattle.thread_lock.specs.Seats.{calls_left};
ghost use Rattle.bt_desk.specs.Events.{IsOneEvent};
ghost use Rattle.bt_desk.specs.Seats.{IsSeatAt};
ghost use Rattle.console_looks.specs.Shown.{shown_in};
ghost use Rattle.console_looks.specs.Turned.{undone_by, TakesBack};
ghost use Rattle.thread_asides.specs.Looked.{out_in, ShownAt, OutAt, BackAt};

use crate::turning::tell_turned;
use bt_desk::{Desk, Seat, SeatSpent, Shared};
use bt_journal::Book;
use bt_mapkind::MapKind;
use console_looks::{Showing, Turned, show, taken_back, taken_out};
use console_operand::LineWord;
use host_words::{NoMemory, Word};
use journal_model::ChangeRow;
use std::alloc::Global;
use std::sync::Wait;

// What there is to show of a serial in a book, which stays as it is.
fn look<K: MapKind>(book: &mut Book<K>, serial: u64) -> Result<Showing, NoMemory>
    ensures same { book.new.plain ≡ book.old.plain }
    ensures shown { IfOk result (λ it. it ≡ shown_in serial book.old.plain) }
    ensures one { IsOneEvent book.old.plain book.new.plain }
{
    show(book, serial)
}

/// What there is to show of a serial at a desk, in one call of it: no other thread comes between.
///
/// # Errors
/// `SeatSpent` if the seat has no calls left.
pub fn show_at<K: MapKind, R: Wait>(
    rt: &R,
    desk: &Desk<K>,
    seat: &mut Seat<K>,
    serial: u64,
) -> Result<Result<Showing, NoMemory>, SeatSpent>
    requires { IsSeatAt desk.now seat.old }
    ensures seat { IsSeatAt desk.now seat.new }
    ensures spent { IsErr result ↔ (calls_left seat.old ≡ 0) }
    ensures shown { IfOk result (λ looked. IfOk looked (λ it. ShownAt desk.now serial it seat.old seat.new)) }
{
    desk.turns().visit(
        rt,
        seat,
        &mut (),
        |shared: &mut Shared<K>, _nothing: &mut ()| -> Result<Showing, NoMemory>
            ensures same { shared.new ≡ shared.old }
            ensures shown { IfOk result (λ it. it ≡ shown_in serial shared.old) }
            ensures one { IsOneEvent shared.old shared.new }
        { look(&mut shared.book, serial) },
    )
}

// The change that a taking out would take out of a book, which stays as it is.
fn look_out<K: MapKind>(book: &mut Book<K>, serial: u64) -> Result<Option<ChangeRow>, NoMemory>
    ensures same { book.new.plain ≡ book.old.plain }
    ensures found { IfOk result (λ it. it ≡ out_in serial book.old.plain) }
    ensures one { IsOneEvent book.old.plain book.new.plain }
{
    taken_out(book, serial)
}

/// The change that a taking out of this serial would take out, looked at in one call of a desk.
///
/// # Errors
/// `SeatSpent` if the seat has no calls left.
pub(crate) fn look_out_at<K: MapKind, R: Wait>(
    rt: &R,
    desk: &Desk<K>,
    seat: &mut Seat<K>,
    serial: u64,
) -> Result<Result<Option<ChangeRow>, NoMemory>, SeatSpent>
    requires { IsSeatAt desk.now seat.old }
    ensures seat { IsSeatAt desk.now seat.new }
    ensures spent { IsErr result ↔ (calls_left seat.old ≡ 0) }
    ensures found { IfOk result (λ looked. IfOk looked (λ it. OutAt desk.now serial it seat.old seat.new)) }
{
    desk.turns().visit(
        rt,
        seat,
        &mut (),
        |shared: &mut Shared<K>, _nothing: &mut ()| -> Result<Option<ChangeRow>, NoMemory>
            ensures same { shared.new ≡ shared.old }
            ensures found { IfOk result (λ it. it ≡ out_in serial shared.old) }
            ensures one { IsOneEvent shared.old shared.new }
        { look_out(&mut shared.book, serial) },
    )
}

// The name of a mark, as a word that is owned.
fn owned(alloc: Global, name: &Option<LineWord<'_>>) -> Result<Option<Word>, NoMemory> {
    match name {
        Some(name) => Ok(Some(name.copy(alloc)?)),
        None => Ok(None),
    }
}

// Tells what an undo would take back, that was looked at so.
fn tell<R: Eprint + AllocGlobal>(rt: &R, about: &str, looked: Result<Option<Turned>, NoMemory>) {
    match looked {
        Ok(Some(it)) => tell_turned(rt, about, b"would take back", Ok(it)),
        Ok(None) => {
            let _ = eprintln!(rt; "{about}: would take back nothing: no mark has this name");
        }
        Err(no_memory) => tell_turned(rt, about, b"", Err(no_memory)),
    }
}

/// Tells on standard error, after a name, what an undo to a mark would take back, or without a mark an undo of the last
/// moment.
pub fn tell_dry<R: Eprint + AllocGlobal, K: MapKind>(
    rt: &R,
    about: &str,
    book: &Book<K>,
    mark: &Option<LineWord<'_>>,
) {
    match owned(rt.alloc(), mark) {
        Ok(mark) => tell(rt, about, taken_back(book, &mark)),
        Err(no_memory) => tell(rt, about, Err(no_memory)),
    }
}

// What an undo would take back in a book, which stays as it is.
fn look_back<K: MapKind>(
    book: &mut Book<K>,
    mark: &Option<Word>,
) -> Result<Option<Turned>, NoMemory>
    ensures same { book.new.plain ≡ book.old.plain }
    ensures found { IfOk result (TakesBack (undone_by mark.now book.old.plain) book.old.plain) }
    ensures one { IsOneEvent book.old.plain book.new.plain }
{
    taken_back(book, mark)
}

// What an undo would take back at a desk, in one call of it.
fn look_back_at<K: MapKind, R: Wait>(
    rt: &R,
    desk: &Desk<K>,
    seat: &mut Seat<K>,
    mark: Option<Word>,
) -> Result<Result<Option<Turned>, NoMemory>, SeatSpent>
    requires { IsSeatAt desk.now seat.old }
    ensures seat { IsSeatAt desk.now seat.new }
    ensures spent { IsErr result ↔ (calls_left seat.old ≡ 0) }
    ensures found { IfOk result (λ looked. IfOk looked (λ it. BackAt desk.now mark it seat.old seat.new)) }
{
    let mut mark = mark;
    desk.turns().visit(
        rt,
        seat,
        &mut mark,
        |shared: &mut Shared<K>, mark: &mut Option<Word>| -> Result<Option<Turned>, NoMemory>
            ensures same { shared.new ≡ shared.old }
            ensures found { IfOk result (TakesBack (undone_by mark.old shared.old) shared.old) }
            ensures one { IsOneEvent shared.old shared.new }
        { look_back(&mut shared.book, mark) },
    )
}

fn tell_looked<R: Eprint + AllocGlobal>(
    rt: &R,
    about: &str,
    looked: Result<Result<Option<Turned>, NoMemory>, SeatSpent>,
) {
    if let Ok(looked) = looked {
        tell(rt, about, looked);
    }
}

/// Tells what [`tell_dry`] tells, of the journal as it is in one call of a desk. If the seat has no calls left it tells nothing.
pub(crate) fn tell_dry_at<R: Eprint + AllocGlobal + Wait, K: MapKind>(
    rt: &R,
    about: &str,
    desk: &Desk<K>,
    seat: &mut Seat<K>,
    mark: &Option<LineWord<'_>>,
)
    requires { IsSeatAt desk.now seat.old }
    ensures { IsSeatAt desk.now seat.new }
{
    match owned(rt.alloc(), mark) {
        Ok(mark) => {
            let looked = look_back_at(rt, desk, seat, mark);
            tell_looked(rt, about, looked);
        }
        Err(no_memory) => tell(rt, about, Err(no_memory)),
    }
}
