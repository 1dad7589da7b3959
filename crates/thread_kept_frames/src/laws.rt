//! What holds of all frames on a kept book, each the contract of a function that does nothing.

ghost use Rattle.std.specs.Prelude.{IsTrue, List, ℕ, Option};
ghost use Rattle.sqlite.specs.Files.{file_state, IsOpened};
ghost use Rattle.sqlite.specs.Held.{Held};
ghost use Rattle.sqlite.specs.Start.{FindsIn};
ghost use Rattle.sqlite_store.specs.FileStore.{state as store_state, view, recovers};
ghost use Rattle.sqlite_store.specs.declared.store.FileStore.{FileStore};
ghost use Rattle.sqlite_trees.specs.Tree.{Trees};
ghost use Rattle.sqlite_wal.specs.Recovery.{Image};
ghost use Rattle.journal_model.specs.Book.{PlainBook};
ghost use Rattle.thread_frames.specs.declared.frame.FrameIn.{FrameIn};
ghost use Rattle.bt_workers.specs.declared.result.FrameResult.{FrameResult};
ghost use Rattle.kept_ledger.specs.TermsView.{PlainTerms};
ghost use Rattle.kept_file.specs.Keeps.{KeepsOne, HoldsOne};
ghost use Rattle.thread_kept_frames.specs.Serving.{ServedLead, BeforeOrAfter};

use sqlite_disk::Disk;

/// What two workers changed leads from the book before their frames to the one after them, however their calls came between
/// each other: the changes in force above the last serial before the frames, if they are as many as the serials that were given
/// since. So no access of a program, no frame and no order of the workers' calls has to be stored.
pub fn what_frames_changed_leads()
    ensures { (b : PlainBook) (all : List FrameIn) (ends : List FrameResult) (c : PlainBook) → ServedLead b all ends c }
{}

/// From one run to the next: after frames on a kept book, however they ended, each crash leaves a database of the book before
/// them, or of one after all of them, and of this one if anything of their ends was written
/// ([`keep_frames`](crate::keep_frames)). A connection that is opened over files with what such a crash left keeps one of these
/// books, and an open gives it.
pub fn a_book_survives_frames<D: Disk, E: Disk>()
    ensures { (it : FileStore D D.Disk) (t : PlainTerms) (all : List FrameIn) (b : PlainBook) (out_old out_new : Option (List ℕ)) → IsTrue (view it).is_numbered
        → ((db : Trees) → recovers it db → HoldsOne t (BeforeOrAfter all b out_old out_new) db)
        → (left : Image) → (store_state it).may_leave left → (opened : Held (FileStore E E.Disk)) → IsOpened opened → FindsIn left (file_state opened)
        → ∥ KeepsOne t (BeforeOrAfter all b out_old out_new) (file_state opened) ∥₁ }
{}
