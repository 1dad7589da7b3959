//! A dialogue on a kept book: lines that are kept one by one, as they are given.

use crate::fault::LinesFault;
use crate::group::Group;
use crate::line::keep_line_or_batch;
use crate::script::flush;
use bt_journal::Book;
use bt_mapkind::MapKind;
use bt_syntax::FileText;
use console_script::{Runs, Summary, Supply, Tally};
use console_text::Output;
use sqlite::{Alter, Connection};
use std::alloc::Global;
use std::marker::Model;

/// What stands between the lines of a dialogue on a kept book: the open runs, and how many lines were accepted and refused.
#[derive(Drop)]
pub struct KeptDialogue {
    runs: Runs,
    summary: Summary,
}

impl Model for KeptDialogue {
    ghost use Rattle.console_script.specs.Dialogue.{DialogueView};

    ghost Value = { DialogueView };

    ghost view = { λ d. record { runs = d.runs; summary = d.summary } };
}

impl KeptDialogue {
    ghost use Rattle.std.specs.Prelude.{◌≡◌, ◌∷◌, [], ℕ, List, None, IfOk, IfErr, OnOk};
    ghost use Rattle.sqlite.specs.State.{HasCleanDisk};
    ghost use Rattle.sqlite.specs.Held.{state};
    ghost use Rattle.console_script.specs.Frames.{console_of};
    ghost use Rattle.console_script.specs.Dialogue.{unspoken};
    ghost use Rattle.console_script.specs.Running.{LeadsOn};
    ghost use Rattle.console_script.specs.Tallies.{both_counts};
    ghost use Rattle.console_script.specs.Transcript.{session_of};
    ghost use Rattle.kept_ledger.specs.TermsView.{PlainTerms};
    ghost use Rattle.kept_lines.specs.Kept.{IsOnDisk, AddsAt, Stops};

    /// A dialogue before its first line: no run is open.
    pub fn new(alloc: Global) -> KeptDialogue
        ensures { result ≡ unspoken }
    {
        KeptDialogue {
            runs: Runs::new(alloc),
            summary: Summary {
                accepted: 0,
                refused: 0,
            },
        }
    }

    /// How many lines were accepted and refused so far.
    pub fn summary(&self) -> Summary
        ensures { result ≡ self.now.summary }
    {
        self.summary
    }

    /// The open runs.
    pub fn runs(&self) -> &Runs
        ensures { result.now ≡ self.now.runs }
    {
        &self.runs
    }

    /// Counts lines that were answered besides, as those that a range comes to.
    pub fn count(&mut self, lines: Summary)
        ensures summary { self.new.summary ≡ both_counts self.old.summary lines }
        ensures runs { self.new.runs ≡ self.old.runs }
    {
        self.summary = self.summary.plus(lines);
    }

    /// Runs one line, without its line feed, on a kept book, as a script that has come to it does: it is done, what it did is on
    /// the disk, at this time in milliseconds since 1970, and then the text of each answer is written. It hands over how many
    /// lines were accepted and refused so far, and what went wrong in this one, of a batch the last that did. `files` are those
    /// that the line names, and those that these name.
    ///
    /// # Errors
    /// CannotKeep if what the line did is not kept, and nothing of its answers was written. The book is then ahead of its
    /// database, and of no use; if a fault of the disk shut the connection, it is to be closed. Write if it is kept, and its
    /// answers were not written to their end.
    pub fn keep<D: Alter, K: MapKind, S: Supply<K>, W: Output>(
        &mut self,
        alloc: Global,
        conn: &mut Connection<D>,
        time: u64,
        book: &mut Book<K>,
        supply: &mut S,
        files: &[FileText],
        line: &[u8],
        out: &mut W,
    ) -> Result<Tally, LinesFault>
        ensures leads { (left : List (List ℕ)) → IfOk result (λ tally. LeadsOn S.gives K.seen files.now supply.old
            (session_of (console_of book.old.plain self.old.runs) self.old.summary (line.now ∷ left) None) (W.contents out.old)
            supply.new (session_of (console_of book.new.plain self.new.runs) self.new.summary left None) (W.contents out.new) tally.mishap) }
        ensures clean { HasCleanDisk (state D.Store conn.new) → HasCleanDisk (state D.Store conn.old) }
        ensures kept { HasCleanDisk (state D.Store conn.new) → (t : PlainTerms) → IsOnDisk t (state D.Store conn.old) book.old.plain
            → OnOk result (IsOnDisk t (state D.Store conn.new) book.new.plain) }
        ensures times { OnOk result (AddsAt time (state D.Store conn.old) (state D.Store conn.new)) }
        ensures stops { IfErr result (Stops files.now (session_of (console_of book.old.plain self.old.runs) self.old.summary (line.now ∷ []) None)
            (λ t. IsOnDisk t (state D.Store conn.old) book.old.plain) (state D.Store conn.new) (W.contents out.old) (W.contents out.new)) }
    {
        let mut group = Group::new(alloc);
        let runs = &mut self.runs;
        let summary = self.summary;
        match keep_line_or_batch(alloc, book, runs, supply, files, line, summary, &mut group) {
            Ok(tally) => match flush(alloc, conn, time, &mut group, out) {
                Ok(()) => {
                    self.summary = tally.summary;
                    Ok(tally)
                }
                Err(fault) => Err(fault),
            },
            Err(fault) => Err(LinesFault::CannotKeep(fault)),
        }
    }
}
