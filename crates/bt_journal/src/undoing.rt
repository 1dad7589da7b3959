//! Marks, and moments undone and brought back.

ghost use Rattle.std.specs.Prelude.{◌≡◌, ◌-◌, length};
ghost use Rattle.journal_model.specs.Book.{marked, undo_fault, undone_to, undone_last, redone, back_to, OrNoMemory};
ghost use Rattle.journal_model.specs.Plain.{newest_force};
ghost use Rattle.bt_journal.specs.Returning.{LeadsBack};
ghost use Rattle.bt_journal.specs.Undone.{CallsToUndo};
ghost use Rattle.journal_keeping.specs.Calls.{calls_back, calls_forth};
ghost use Rattle.host_state.specs.Work.{CallsAtMost};

use crate::book::Book;
use bt_mapkind::MapKind;
use host_words::{Word, is_name};
use journal_keeping::go_back;
use journal_model::{MarkFault, NothingToUndo, RedoFault, UndoFault};

impl<K: MapKind> Book<K> {
    /// Names the newest moment. BadName for a name that is none, else MarkTaken if a mark of it stands; the name of a
    /// forgotten mark is free. Takes memory.
    pub fn mark(&mut self, name: Word) -> Result<(), MarkFault>
        ensures plain { OrNoMemory self.old.plain MarkFault.NoMemory (marked self.old.plain name) (self.new.plain, result) }
        ensures work { self.new.work ≡ self.old.work }
    {
        if !is_name(name.as_slice()) {
            return Err(MarkFault::BadName);
        }
        if self.marks.find(&name).is_some() {
            return Err(MarkFault::MarkTaken);
        }
        let moments = self.line.moment_count();
        match self.marks.insert(name, moments) {
            Ok(()) => {}
            Err(_) => return Err(MarkFault::NoMemory),
        }
        Ok(())
    }

    /// Undoes the moments after a mark, and tells how many; the marks after it are gone. NoMark if none has the name, or
    /// MarkForgotten if the mark of the name was forgotten, as the moment after it joined the base. If
    /// the mark stood through all events since it was made, the state, the changes in force and the moments are those of
    /// then, less what was given up since. It takes no memory.
    pub fn undo_to(&mut self, name: &Word) -> Result<u64, UndoFault>
        ensures plain { (self.new.plain, result) ≡ undone_to self.old.plain name.now }
        ensures mark { LeadsBack self.old.plain name.now (self.new.plain, result) }
        ensures work { CallsToUndo self.old.plain.line.moments result self.old.work self.new.work }
    {
        self.undo_to_mark(name)
    }

    // Undoes the moments after a mark.
    fn undo_to_mark(&mut self, name: &Word) -> Result<u64, UndoFault>
        ensures plain { (self.new.plain, result) ≡ undone_to self.old.plain name.now }
        ensures work { CallsToUndo self.old.plain.line.moments result self.old.work self.new.work }
    {
        match self.marks.find(name) {
            Some(count) => Ok(self.back_to(count)),
            None => Err(self.undo_fault(name)),
        }
    }

    // Why there is no undo to a mark of the name.
    fn undo_fault(&self, name: &Word) -> UndoFault
        ensures { result ≡ undo_fault self.now.plain name.now }
    {
        if self.marks.is_forgotten(name) {
            UndoFault::MarkForgotten
        } else {
            UndoFault::NoMark
        }
    }

    /// Undoes the last moment. It takes no memory.
    pub fn undo_last(&mut self) -> Result<(), NothingToUndo>
        ensures plain { (self.new.plain, result) ≡ undone_last self.old.plain }
        ensures work { CallsAtMost (calls_back 1 self.old.plain.line.moments) self.old.work self.new.work }
    {
        let count = self.line.moment_count();
        if count < 1 {
            return Err(NothingToUndo);
        }
        let _ = self.back_to(count - 1);
        Ok(())
    }

    /// Brings the first undone moment back; RedoLost tells the serial that gave the undone moments up. It takes no memory.
    pub fn redo(&mut self) -> Result<(), RedoFault>
        ensures plain { (self.new.plain, result) ≡ redone self.old.plain }
        ensures work { CallsAtMost (calls_forth 1 (newest_force self.old.plain.line.moments) self.old.plain.line.undone) self.old.work self.new.work }
    {
        if self.line.undone_count() < 1 {
            return match self.gave_up {
                Some(serial) => Err(RedoFault::RedoLost(serial)),
                None => Err(RedoFault::NothingToRedo),
            };
        }
        self.line.forth();
        Ok(())
    }

    // Undoes the moments past this number, and tells how many.
    fn back_to(&mut self, count: u64) -> u64
        ensures book { self.new.plain ≡ back_to self.old.plain count }
        ensures cut { result ≡ length self.old.plain.line.moments - count }
        ensures work { CallsAtMost (calls_back result self.old.plain.line.moments) self.old.work self.new.work }
    {
        let undone = self.line.moment_count().saturating_sub(count);
        go_back(&mut self.line, count);
        self.marks.keep_up_to(count);
        if undone > 0 {
            self.gave_up = None;
        }
        undone
    }
}
