//! A batch on a kept book: its lines, up to the first one that is refused.

ghost use Rattle.std.specs.Prelude.{◌≡◌, ◌≤◌, ℕ, List, None, Some, IfOk, OnOk, length};
ghost use Rattle.console_operand.specs.Line.{lines_of};
ghost use Rattle.console_script.specs.Frames.{console_of};
ghost use Rattle.console_script.specs.Running.{LeadsOn};
ghost use Rattle.console_script.specs.Tallies.{lines_told, accepted_told};
ghost use Rattle.console_script.specs.Transcript.{batch_of, session_of};
ghost use Rattle.kept_lines.specs.Noting.{LeadsFurther};

use crate::group::Group;
use crate::line::{keep_line, tell};
use bt_journal::Book;
use bt_mapkind::MapKind;
use bt_syntax::FileText;
use console_answer::{Answer, Told};
use console_operand::first_line;
use console_script::{Runs, Summary, Supply, Tally};
use kept_file::KeepFault;
use std::alloc::Global;

// The lines of a batch that are left after one of which this was told, and how many were accepted.
fn rest_after(after: &[u8], accepted: u64, told: Told) -> (&[u8], u64)
    ensures lines { lines_of result.0.now ≡ lines_told (lines_of after.now) told }
    ensures shorter { length result.0.now ≤ length after.now }
    ensures accepted { result.1 ≡ accepted_told accepted told }
{
    match told {
        Told::Refused(_) => (&[], accepted),
        Told::Empty => (after, accepted),
        Told::Accepted | Told::Aborted(_) | Told::NoAction | Told::Processed => {
            (after, accepted.saturating_add(1))
        }
    }
}

/// Does the lines of a batch, and adds what they noted and answered to the group.
pub(crate) fn keep_batch<K: MapKind, S: Supply<K>>(
    alloc: Global,
    book: &mut Book<K>,
    runs: &mut Runs,
    supply: &mut S,
    files: &[FileText],
    text: &[u8],
    summary: Summary,
    group: &mut Group,
) -> Result<Tally, KeepFault>
    ensures leads { (left : List (List ℕ)) → IfOk result (λ tally. LeadsOn S.gives K.seen files.now supply.old
        (session_of (console_of book.old.plain runs.old) summary left (Some (batch_of (lines_of text.now)))) (Some group.old.text.items)
        supply.new (session_of (console_of book.new.plain runs.new) tally.summary left None) (Some group.new.text.items) tally.mishap) }
    ensures notes { OnOk result (LeadsFurther book.old.plain group.old.events.items book.new.plain group.new.events.items) }
{
    let mut tally = Tally::fresh(summary);
    let mut accepted = 0;
    let mut rest = text;
    'lines: while !rest.is_empty() {
        let (line, after) = first_line(rest);
        let told = keep_line(alloc, book, runs, supply, files, line, group)?;
        (rest, accepted) = rest_after(after, accepted, told);
        tally = tally.with_told(told);
    }
    tell(group, tally, Some(Answer::Processed(accepted)))
}
