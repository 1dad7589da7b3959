//! The serials of a book: the last one, and the change in force of one.

ghost use Rattle.std.specs.Prelude.{◌≡◌, IfOk};
ghost use Rattle.journal_model.specs.Book.{force_of};
ghost use Rattle.bt_journal.specs.Serials.{change_in};

use crate::book::Book;
use bt_mapkind::MapKind;
use host_state::Change;
use host_words::NoMemory;

impl<K: MapKind> Book<K> {
    /// The last serial that was given, to a change or to a taking out; 0 before the first.
    pub fn last_serial(&self) -> u64
        ensures { result ≡ self.now.plain.last_serial }
    {
        self.last_serial
    }

    /// The change in force of this serial, as it was recorded: a create with the id and the charge that its map got, a load
    /// with the id of its program. None if no change in force has the serial: a change that is undone, was taken out or
    /// has joined the base is not in force, and the serial of a taking out is no change's. By binary search; takes memory for
    /// the change.
    pub fn change_of(&self, serial: u64) -> Result<Option<Change>, NoMemory>
        ensures { IfOk result (λ change. change ≡ change_in serial (force_of self.now.plain)) }
    {
        self.line.change_of(serial)
    }
}
