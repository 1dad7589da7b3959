//! Taking one change out of a book, one record after the other.

ghost use Rattle.std.specs.Prelude.{◌≡◌, ◌+◌, ◌-◌, ◌<◌, ◌&&◌, ◌||◌, not, true, false, [], length};
ghost use Rattle.journal_model.specs.Book.{is_full, within_window};
ghost use Rattle.journal_model.specs.Window.{can_fold, is_first};
ghost use Rattle.journal_model.specs.Without.{with_taken_out};
ghost use Rattle.journal_keeping.specs.Alone.{is_alone};
ghost use Rattle.journal_keeping.specs.Staged.{TakesOutAlone, TurnsBack, GoesOn};
ghost use Rattle.journal_keeping.specs.StageCalls.{CallsToTurn, CallsToGoOn};
ghost use Rattle.host_state.specs.Work.{CallsAtMost};
ghost use Rattle.bt_journal.specs.Taking.{Begins};

use crate::book::Book;
use crate::recording::given_up_by;
use bt_mapkind::MapKind;
use host_state::Reply;
use journal_keeping::{AgainFault, Ids, LastIds, LineStage, Marks, note_moment};
use journal_model::{Limits, WithoutFault};
use std::marker::Model;

/// A change was taken out.
#[derive(Clone, Copy, PartialEq, Eq, Debug)]
pub struct TakenOut {
    /// The serial of the taking out.
    pub serial: u64,
    /// How many units of work it took.
    pub work: u64,
}

/// A book from which one change is being taken out. It cannot be dropped: [`Stage::keep`] or [`Stage::restore`] ends it.
/// Contracts see the book as it was, the changes in place, those turned back that are still to be done again, and how many
/// calls of boxes it takes to put all back.
pub struct Stage<K: MapKind> {
    line: LineStage<K>,
    marks: Marks,
    gave_up: Option<u64>,
    last_serial: u64,
    last_ids: LastIds,
    limits: Limits,
    ids: Ids,
    // How many moments were undone, and how much work was done, when it began.
    undone: u64,
    begun: u64,
}

impl<K: MapKind> Model for Stage<K> {
    ghost use Rattle.bt_journal.specs.Taking.{BookStage, stage_code};

    ghost Value = { BookStage };

    ghost coded = { stage_code };

    ghost view = { λ s. record {
      plain = record {
        line = s.line.line.pasts;
        gone = s.marks.gone;
        marks = s.marks.standing;
        forgotten_marks = s.marks.forgotten;
        gave_up = s.gave_up;
        last_serial = s.last_serial;
        last_map = s.last_ids.map_id;
        last_prog = s.last_ids.prog_id;
        limits = s.limits;
      };
      staged = s.line;
      begun = s.begun;
    } };

    ghost use Rattle.std.specs.Prelude.{◌≡◌, ◌<◌, length, vec_len, vec_capacity};
    ghost use Rattle.std.specs.VecDeque.{deque_len, deque_capacity};
    ghost use Rattle.std.specs.Prelude.{◌++◌, Ok};
    ghost use Rattle.journal_keeping.specs.Boxes.{KeepsBoxes, IsUpTo, states_of, lasts_of};
    ghost use Rattle.journal_model.specs.Plain.{now};
    ghost use Rattle.journal_model.specs.Replay.{replay};
    ghost use Rattle.journal_model.specs.Well.{Each, IsInOrder, IsWellBook};
    ghost use Rattle.bt_journal.specs.Taking.{IsPart, IsRest, HasRoomWithout};

    ghost invariant = { λ s.
        KeepsBoxes s.line.line.makes (states_of s.line.line.pasts) (lasts_of s.ids.base s.ids.lasts.items) s.ids.maps.items s.ids.progs.items
        × Each (IsUpTo s.last_ids) (lasts_of s.ids.base s.ids.lasts.items)
        × IsPart (now s.line.line.pasts) s.line.state s.line.left
        × (s.undone ≡ length s.line.line.pasts.undone)
        × (s.last_serial < s.limits.last_serial)
        × (vec_len s.ids.maps < vec_capacity s.ids.maps)
        × (vec_len s.ids.progs < vec_capacity s.ids.progs)
        × (deque_len s.ids.lasts < deque_capacity s.ids.lasts)
        × IsWellBook (record {
          line = s.line.line.pasts;
          gone = s.marks.gone;
          marks = s.marks.standing;
          forgotten_marks = s.marks.forgotten;
          gave_up = s.gave_up;
          last_serial = s.last_serial;
          last_map = s.last_ids.map_id;
          last_prog = s.last_ids.prog_id;
          limits = s.limits;
        })
        × IsInOrder s.last_serial (s.line.in_place ++ s.line.left)
        × IsRest s.line
        × HasRoomWithout (record {
          line = s.line.line.pasts;
          gone = s.marks.gone;
          marks = s.marks.standing;
          forgotten_marks = s.marks.forgotten;
          gave_up = s.gave_up;
          last_serial = s.last_serial;
          last_map = s.last_ids.map_id;
          last_prog = s.last_ids.prog_id;
          limits = s.limits;
        }) s.line.serial
        × (replay s.line.line.pasts.base s.line.in_place ≡ Ok s.line.state) };
}

impl<K: MapKind> Book<K> {
    /// Begins to take the change of a serial out; the book moves in. NotInForce, else SerialsSpent, else JournalFull, with
    /// the book as it was. Takes memory, and makes room for the moment of the taking out.
    pub fn stage(self, serial: u64) -> Result<Stage<K>, (Book<K>, WithoutFault)>
        ensures { Begins self serial result }
    {
        if !self.line.is_in_force(serial) {
            return Err((self, WithoutFault::NotInForce));
        }
        if self.last_serial >= self.limits.last_serial {
            return Err((self, WithoutFault::SerialsSpent));
        }
        if self.is_closed_to(serial) {
            return Err((self, WithoutFault::JournalFull));
        }
        let mut book = self;
        match book.ids.reserve() {
            Ok(()) => {}
            Err(_) => return Err((book, WithoutFault::NoMemory)),
        }
        let undone = book.line.undone_count();
        let begun = book.line.work();
        match LineStage::new(book.line, serial) {
            Ok(line) => Ok(Stage {
                line,
                marks: book.marks,
                gave_up: book.gave_up,
                last_serial: book.last_serial,
                last_ids: book.last_ids,
                limits: book.limits,
                ids: book.ids,
                undone,
                begun,
            }),
            Err(line) => Err((Book { line, ..book }, WithoutFault::NoMemory)),
        }
    }
}

impl<K: MapKind> Book<K> {
    // Whether as many moments are in force as may be, and the oldest has to stay: its change is that of the serial, or it
    // cannot join the base. It looks at no other moment.
    fn is_closed_to(&self, serial: u64) -> bool
        ensures { result ≡ is_full self.now.plain && (is_first serial self.now.plain.line || not (can_fold self.now.plain.line)) }
    {
        self.line.moment_count() >= self.limits.journal
            && match self.line.first_in_force() {
                Some(first) => first == serial,
                None => true,
            }
    }
}

impl<K: MapKind> Stage<K> {
    /// How many changes that were turned back are still to be done again.
    pub fn left(&self) -> u64
        ensures { result ≡ length self.now.staged.left }
    {
        self.line.left()
    }

    /// Whether the change is of one key of a map of bytes, and each later one in place is apart from it. It takes no memory.
    pub fn alone(&self) -> bool
        requires not_out { self.now.staged.out ≡ false }
        requires none_left { self.now.staged.left ≡ [] }
        ensures { result ≡ is_alone self.now.staged.serial self.now.staged.line.pasts.base self.now.staged.in_place }
    {
        self.line.alone()
    }

    /// Takes the change out by one exchange; nothing else moves. It takes no memory.
    pub fn exchange(&mut self)
        requires not_out { self.old.staged.out ≡ false }
        requires none_left { self.old.staged.left ≡ [] }
        requires alone { is_alone self.old.staged.serial self.old.staged.line.pasts.base self.old.staged.in_place ≡ true }
        ensures takes_out { TakesOutAlone self.old.staged self.new.staged }
        ensures work { CallsAtMost 1 self.old.staged.line.work self.new.staged.line.work }
        ensures book { self.new.plain ≡ self.old.plain }
        ensures begun { self.new.begun ≡ self.old.begun }
    {
        self.line.exchange()
    }

    /// Takes the last change in place back, and tells whether it is the one to take out, which drops out. It takes no
    /// memory.
    pub fn back(&mut self) -> bool
        requires any { 0 < length self.old.staged.in_place }
        requires not_out { self.old.staged.out ≡ false }
        ensures turns { TurnsBack self.old.staged result self.new.staged }
        ensures work { CallsToTurn self.old.staged self.new.staged }
        ensures book { self.new.plain ≡ self.old.plain }
        ensures begun { self.new.begun ≡ self.old.begun }
    {
        self.line.back()
    }

    /// Does the next of the changes that were turned back again. Refused, it moves nothing: Differs if the change
    /// answers otherwise than it did. Takes memory.
    pub fn again(&mut self) -> Result<(), AgainFault>
        requires any { 0 < length self.old.staged.left }
        requires out { self.old.staged.out ≡ true }
        ensures goes_on { GoesOn self.old.staged result self.new.staged }
        ensures work { CallsToGoOn self.old.staged result self.new.staged }
        ensures book { self.new.plain ≡ self.old.plain }
        ensures begun { self.new.begun ≡ self.old.begun }
    {
        self.line.again()
    }

    /// The book with the taking out as its newest moment; moments that were undone are given up, and if more are in force
    /// than may be, the oldest joins the base. It takes no memory.
    pub fn keep(self) -> (Book<K>, TakenOut)
        requires out { self.staged.out ≡ true }
        requires none_left { self.staged.left ≡ [] }
        ensures book { result.0.plain ≡ within_window (with_taken_out self.plain self.staged.serial self.staged.in_place self.staged.state) }
        ensures serial { result.1.serial ≡ self.plain.last_serial + 1 }
        ensures work { result.1.work ≡ result.0.work - self.begun }
        ensures no_call { result.0.work ≡ self.staged.line.work }
    {
        let Stage {
            line,
            marks,
            gave_up,
            last_serial,
            last_ids,
            limits,
            mut ids,
            undone,
            begun,
        } = self;
        let serial = last_serial + 1;
        let mut line = line.keep(serial);
        note_moment(&mut line, &mut ids, last_ids, &Reply::Done);
        let work = line.work().saturating_sub(begun);
        let mut book = Book {
            line,
            marks,
            gave_up: given_up_by(serial, undone, gave_up),
            last_serial: serial,
            last_ids,
            limits,
            ids,
        };
        book.keep_window();
        (book, TakenOut { serial, work })
    }

    /// The book as it was. It takes no memory.
    pub fn restore(self) -> Book<K>
        ensures plain { result.plain ≡ self.plain }
        ensures work { CallsAtMost self.staged.to_restore self.staged.line.work result.work }
    {
        let Stage {
            line,
            marks,
            gave_up,
            last_serial,
            last_ids,
            limits,
            ids,
            undone: _,
            begun: _,
        } = self;
        Book {
            line: line.restore(),
            marks,
            gave_up,
            last_serial,
            last_ids,
            limits,
            ids,
        }
    }
}
