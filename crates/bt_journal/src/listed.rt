//! What a book lists: the changes in force and the marks.

ghost use Rattle.std.specs.Prelude.{◌≡◌, IfOk};
ghost use Rattle.journal_model.specs.Listed.{listed};

use crate::book::Book;
use bt_mapkind::MapKind;
use host_state::Listing;
use host_words::NoMemory;
use journal_model::JournalList;

impl<K: MapKind> Book<K> {
    /// The changes in force, the oldest first, each with its serial, who made it and what it was; and the marks in order of
    /// making, each with its number of moments. What is undone or taken out is not among them. Takes memory.
    pub fn list(&self) -> Result<JournalList, NoMemory>
        ensures { IfOk result (λ list. list ≡ listed self.now.plain) }
    {
        let changes = self.line.change_rows()?;
        let marks = self.marks.rows()?;
        Ok(JournalList {
            changes: Listing::of(changes),
            marks: Listing::of(marks),
        })
    }
}
