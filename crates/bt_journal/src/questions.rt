//! Questions to a book: how much it holds, and what its state is.

ghost use Rattle.std.specs.Prelude.{◌≡◌, ◌-◌, ◌<◌, Option, Some, IfOk, IsOk, length, map as each, reverse};
ghost use Rattle.std.specs.Option.{option_map};
ghost use Rattle.bt_mapkind.specs.Seen.{NeverWantsMemory};
ghost use Rattle.host_state.specs.Act.{attr_if_live, live_map};
ghost use Rattle.host_state.specs.Ask.{IsLookUp, rows_of, prog_rows};
ghost use Rattle.journal_keeping.specs.Named.{of_ids, maps_of_name, progs_of_name};
ghost use Rattle.host_state.specs.Work.{CallsAtMost, calls_of};
ghost use Rattle.journal_model.specs.Book.{asked, back_to, charged};
ghost use Rattle.journal_model.specs.Marks.{moments_at};
ghost use Rattle.journal_model.specs.Plain.{now};

use crate::book::Book;
use bt_mapkind::{MapAttr, MapKind};
use host_state::{Ask, AskReply};
use host_words::{NoMemory, Word};
use journal_keeping::{OfName, go_back, go_forth};

impl<K: MapKind> Book<K> {
    /// How many moments are in force.
    pub fn moments(&self) -> u64
        ensures { result ≡ length self.now.plain.line.moments }
    {
        self.line.moment_count()
    }

    /// How many undone moments there are, which a redo brings back.
    pub fn undone(&self) -> u64
        ensures { result ≡ length self.now.plain.line.undone }
    {
        self.line.undone_count()
    }

    /// Of each moment in force, the oldest first, its serial, and the serial of the change that it took out, if it took one out.
    /// Takes memory.
    pub fn moment_rows(&self) -> Result<Vec<(u64, Option<u64>)>, NoMemory>
        ensures { IfOk result (λ rows. rows.items ≡ reverse (each (λ m. (m.serial, m.out)) self.now.plain.line.moments)) }
    {
        self.line.moment_rows()
    }

    /// The sum of the charges of the maps in the base, in a moment or in an undone one, in bytes.
    pub fn charged(&self) -> u64
        ensures { result ≡ charged self.now.plain }
    {
        self.line.charged()
    }

    /// How many units of work were done on boxes; at the greatest u64 the count stays.
    pub fn work(&self) -> u64
        ensures { result ≡ self.now.work }
    {
        self.line.work()
    }

    /// The answer to a question about the state as it is now. Takes memory, but for a question about one map or path if
    /// the room of each box was reserved.
    pub fn ask(&mut self, question: &Ask) -> Result<AskReply, NoMemory>
        ensures answer { IfOk result (λ reply. reply ≡ asked self.old.plain question.now) }
        ensures room { NeverWantsMemory K.seen → IsLookUp question.now → IsOk result }
        ensures same { self.new.plain ≡ self.old.plain }
        ensures work { CallsAtMost (calls_of (now self.old.plain.line) question.now) self.old.work self.new.work }
    {
        self.line.ask(question)
    }

    /// The answer to a question about the state after the first so many moments, which is that after an undo to them; if no
    /// more are in force, that is the state as it is now. The later moments are turned back and forth again: the book is as it
    /// was, with its marks, its undone moments and what gave others up. Takes memory for the answer alone.
    pub fn ask_after(&mut self, count: u64, question: &Ask) -> Result<AskReply, NoMemory>
        ensures answer { IfOk result (λ reply. reply ≡ asked (back_to self.old.plain count) question.now) }
        ensures same { self.new.plain ≡ self.old.plain }
    {
        let later = self.line.moment_count().saturating_sub(count);
        go_back(&mut self.line, count);
        let answer = self.line.ask(question);
        go_forth(&mut self.line, later);
        answer
    }

    /// The attributes of the live map of this id as it is now, if there is one. It takes no memory.
    pub fn attr(&self, id: u32) -> Option<MapAttr>
        ensures { result ≡ attr_if_live (live_map (now self.now.plain.line) id) }
    {
        self.line.world().attr(id)
    }

    /// The live map of a name. It takes no memory.
    pub fn map_of_name(&self, name: &[u8]) -> OfName
        ensures { result ≡ of_ids (maps_of_name name.now (rows_of (now self.now.plain.line).maps)) }
    {
        self.line.world().map_of_name(name)
    }

    /// The live program of a name. It takes no memory.
    pub fn prog_of_name(&self, name: &[u8]) -> OfName
        ensures { result ≡ of_ids (progs_of_name name.now (prog_rows (now self.now.plain.line).progs)) }
    {
        self.line.world().prog_of_name(name)
    }

    /// How many moments in force came after the mark of this name, which an undo to it takes back; none if no mark of
    /// it stands. It takes no memory.
    pub fn moments_since(&self, mark: &Word) -> Option<u64>
        ensures { result ≡ option_map (λ at. length self.now.plain.line.moments - at) (moments_at mark.now self.now.plain.marks) }
    {
        match self.marks.find(mark) {
            Some(at) => Some(self.line.moment_count().saturating_sub(at)),
            None => None,
        }
    }

    /// How many bytes the budget leaves for new maps. It takes no memory.
    pub fn room(&self) -> u64
        ensures { result ≡ self.now.plain.limits.budget - charged self.now.plain }
    {
        self.limits.budget.saturating_sub(self.charged())
    }
}
