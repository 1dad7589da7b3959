//! What holds of every connection that keeps a book, each the contract of a function that does nothing.

ghost use Rattle.std.specs.Prelude.{IsTrue};
ghost use Rattle.sqlite.specs.Files.{file_state, IsOpened};
ghost use Rattle.sqlite.specs.Held.{Held, state};
ghost use Rattle.sqlite.specs.Start.{FindsIn};
ghost use Rattle.sqlite_store.specs.FileStore.{state as store_state, view, recovers};
ghost use Rattle.sqlite_store.specs.declared.store.FileStore.{FileStore};
ghost use Rattle.sqlite_trees.specs.Tree.{Trees};
ghost use Rattle.sqlite_wal.specs.Recovery.{Image};
ghost use Rattle.journal_model.specs.Book.{PlainBook};
ghost use Rattle.kept_ledger.specs.TermsView.{PlainTerms};
ghost use Rattle.kept_ledger.specs.Ledger.{LeavesOnly};
ghost use Rattle.kept_file.specs.Keeps.{Keeps, HoldsBook};

use sqlite::Alter;
use sqlite_disk::Disk;

/// What an open connection keeps is on the disk: between two calls each crash leaves a database of the book that it keeps, one
/// that was opened again, too.
pub fn what_is_kept_is_on_the_disk<S: Alter>()
    ensures { (conn : Held S) (t : PlainTerms) (b : PlainBook) → IsTrue (state S.Store conn).is_open → Keeps t (state S.Store conn) b
        → LeavesOnly (HoldsBook t b) (state S.Store conn) }
{}

/// From one run to the next: if each crash of a store leaves a database of one book, then a connection that is opened over files
/// with what such a crash left keeps this book.
pub fn a_kept_book_is_found_again<D: Disk, E: Disk>()
    ensures { (it : FileStore D D.Disk) (t : PlainTerms) (b : PlainBook) → IsTrue (view it).is_numbered → ((db : Trees) → recovers it db → HoldsBook t b db)
        → (left : Image) → (store_state it).may_leave left → (opened : Held (FileStore E E.Disk)) → IsOpened opened → FindsIn left (file_state opened)
        → ∥ Keeps t (file_state opened) b ∥₁ }
{}
