//! What a dialogue tells above a list of the journal.

ghost use Rattle.std.specs.Prelude.{◌≡◌, ◌↔◌, IsErr};
ghost use Rattle.thread_lock.specs.Seats.{calls_left};
ghost use Rattle.bt_desk.specs.Events.{IsOneEvent};
ghost use Rattle.bt_desk.specs.Seats.{IsSeatAt};

use bt_desk::{Desk, Seat, SeatSpent, Shared};
use bt_journal::Book;
use bt_mapkind::MapKind;
use console_operand::behind_word;
use console_talk::is_alone;
use host_words::NoMemory;
use std::sync::Wait;

// What a journal holds that no line of its list says.
#[derive(Drop)]
struct Held {
    moments: u64,
    undone: u64,
    charged: u64,
    budget: u64,
    // Of each moment its serial, and that of the change that it took out.
    rows: Result<Vec<(u64, Option<u64>)>, NoMemory>,
}

impl Held {
    fn of<K: MapKind>(book: &Book<K>) -> Held {
        let charged = book.charged();
        Held {
            moments: book.moments(),
            undone: book.undone(),
            charged,
            budget: charged.saturating_add(book.room()),
            rows: book.moment_rows(),
        }
    }

    // Looks at a book, which stays as it is.
    fn look<K: MapKind>(book: &mut Book<K>) -> Held
        ensures { IsOneEvent book.old.plain book.new.plain }
    {
        Held::of(book)
    }

    fn tell<R: Eprint>(&self, rt: &R) {
        let (moments, undone, charged, budget) = (
            self.moments,
            self.undone,
            self.charged,
            self.budget,
        );
        let _ = eprintln!(rt;
            "bpfcon: {moments} moments in force, {undone} undone; the maps in them are charged {charged} of {budget} bytes"
        );
        match &self.rows {
            Ok(rows) => tell_takings(rt, rows.as_slice()),
            Err(_) => {
                let _ = rt.eprintln("bpfcon: no memory to tell what was taken out");
            }
        }
    }
}

// Tells each moment that took a change out: its serial, and that of the change.
fn tell_takings<R: Eprint>(rt: &R, rows: &[(u64, Option<u64>)]) {
    for row in rows {
        if let (serial, Some(out)) = *row {
            let _ = eprintln!(rt; "bpfcon: {serial} console without {out}");
        }
    }
}

// Whether a line lists the journal.
fn lists_journal(line: &[u8]) -> bool {
    match behind_word(line, b"journal") {
        Some(rest) => is_alone(rest, b"list"),
        None => false,
    }
}

/// Tells on standard error, above a list of the journal, what no line of the list says: how much the journal holds, and which
/// changes were taken out.
pub fn tell_held<R: Eprint, K: MapKind>(rt: &R, book: &Book<K>, line: &[u8]) {
    if lists_journal(line) {
        Held::of(book).tell(rt);
    }
}

// What a journal holds in one visit to the desk.
fn look_at<K: MapKind, R: Wait>(
    rt: &R,
    desk: &Desk<K>,
    seat: &mut Seat<K>,
) -> Result<Held, SeatSpent>
    requires { IsSeatAt desk.now seat.old }
    ensures seat { IsSeatAt desk.now seat.new }
    ensures spent { IsErr result ↔ (calls_left seat.old ≡ 0) }
{
    let held = desk.turns().visit(
        rt,
        seat,
        &mut (),
        |shared: &mut Shared<K>, _nothing: &mut ()| -> Held
            ensures { IsOneEvent shared.old shared.new }
        { Held::look(&mut shared.book) },
    );
    held
}

fn tell_looked<R: Eprint>(rt: &R, looked: Result<Held, SeatSpent>) {
    if let Ok(held) = looked {
        held.tell(rt);
    }
}

/// Tells on standard error what [`tell_held`] tells, of the journal as it is in one visit to the desk, which may be an earlier
/// one than that of the list. If the seat has no calls left it tells nothing.
pub fn tell_held_at<R: Eprint + Wait, K: MapKind>(
    rt: &R,
    desk: &Desk<K>,
    seat: &mut Seat<K>,
    line: &[u8],
)
    requires { IsSeatAt desk.now seat.old }
    ensures { IsSeatAt desk.now seat.new }
{
    if lists_journal(line) {
        let looked = look_at(rt, desk, seat);
        tell_looked(rt, looked);
    }
}
