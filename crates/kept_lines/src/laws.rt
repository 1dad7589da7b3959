//! What holds of every script on a kept book, and of every line that asks for a range, each the contract of a function that does
//! nothing.

ghost use Rattle.std.specs.Prelude.{◌≡◌, ℕ, IsTrue, IsSome, List, Option, Err};
ghost use Rattle.sqlite.specs.Files.{file_state, IsOpened};
ghost use Rattle.sqlite.specs.Held.{Held};
ghost use Rattle.sqlite.specs.Start.{FindsIn};
ghost use Rattle.sqlite_store.specs.FileStore.{state as store_state, view, recovers};
ghost use Rattle.sqlite_store.specs.declared.store.FileStore.{FileStore};
ghost use Rattle.sqlite_trees.specs.Tree.{Trees};
ghost use Rattle.sqlite_wal.specs.Recovery.{Image};
ghost use Rattle.journal_model.specs.Book.{PlainBook};
ghost use Rattle.bt_syntax.specs.Steps.{words_read};
ghost use Rattle.bt_syntax.specs.declared.fault.SyntaxFault.TheVariants as syntax;
ghost use Rattle.bt_syntax.specs.declared.files.FileText.{FileText};
ghost use Rattle.kept_ledger.specs.TermsView.{PlainTerms};
ghost use Rattle.kept_file.specs.Keeps.{KeepsOne, HoldsOne};
ghost use Rattle.kept_lines.specs.Kept.{IsFront, script_on};
ghost use Rattle.kept_lines.specs.RangeGrammar.{range_in};

use sqlite_disk::Disk;

/// From one run to the next: after a script, however it ended, each crash leaves a database of the book after its first lines,
/// with each line whose answer was written ([`keep_lines`](crate::keep_lines)). A connection that is opened over files with what
/// such a crash left keeps one of these books, and an open gives it.
pub fn a_book_survives<D: Disk, E: Disk>()
    ensures { (it : FileStore D D.Disk) (t : PlainTerms) (files : List FileText) (b : PlainBook) (script : List ℕ) (out_old out_new : Option (List ℕ)) → IsTrue (view it).is_numbered
        → ((db : Trees) → recovers it db → HoldsOne t (IsFront files (script_on b script) out_old out_new) db)
        → (left : Image) → (store_state it).may_leave left → (opened : Held (FileStore E E.Disk)) → IsOpened opened → FindsIn left (file_state opened)
        → ∥ KeepsOne t (IsFront files (script_on b script) out_old out_new) (file_state opened) ∥₁ }
{}

/// Words that spell a range are no command of a script, which ends before the last of them.
pub fn a_range_is_no_command()
    ensures { (words : List (List ℕ)) → IsSome (range_in words) → words_read words ≡ Err (syntax.At 4) }
{}
