//! Giving up the past before a mark.

ghost use Rattle.std.specs.Prelude.{◌≡◌, ◌≤◌, length};
ghost use Rattle.journal_model.specs.Forget.{forget_fault, forgotten, forgotten_unless};
ghost use Rattle.journal_model.specs.Rebase.{still_taken_out};

use crate::book::Book;
use bt_mapkind::MapKind;
use host_words::Word;
use journal_keeping::advance;
use journal_model::ForgetFault;

impl<K: MapKind> Book<K> {
    /// Gives up the past before a mark: the mark's state becomes the base, the moments up to it and the marks before it are
    /// gone, and what has retired in it is dropped with its boxes. NoMark if no mark has the name, or MarkForgotten if
    /// it was forgotten; else StillTakenOut with the serial of the first later moment, in force or undone, that took out a
    /// change from before the mark. It takes no memory and calls no box: the later moments stay where they are.
    pub fn forget(&mut self, name: &Word) -> Result<(), ForgetFault>
        ensures plain { (self.new.plain, result) ≡ forgotten self.old.plain name.now }
        ensures work { self.new.work ≡ self.old.work }
    {
        match self.marks.find(name) {
            Some(count) => self.forget_first(count as usize),
            None => Err(self.forget_fault(name)),
        }
    }

    // Why the past before a mark of the name is not given up, if none stands.
    fn forget_fault(&self, name: &Word) -> ForgetFault
        ensures { result ≡ forget_fault self.now.plain name.now }
    {
        if self.marks.is_forgotten(name) {
            ForgetFault::MarkForgotten
        } else {
            ForgetFault::NoMark
        }
    }

    // Gives up the first so many moments.
    fn forget_first(&mut self, count: usize) -> Result<(), ForgetFault>
        requires { count ≤ length self.old.plain.line.moments }
        ensures plain { (self.new.plain, result) ≡ forgotten_unless (still_taken_out count self.old.plain.line) self.old.plain count }
        ensures work { self.new.work ≡ self.old.work }
    {
        match self.line.first_taking_out(count) {
            Some(serial) => Err(ForgetFault::StillTakenOut(serial)),
            None => {
                advance(&mut self.line, &mut self.ids, count);
                self.marks.count_from(count as u64);
                Ok(())
            }
        }
    }
}
