//! A batch: the lines of a file run as lines of a script, up to the first one that is refused.

ghost use Rattle.std.specs.Prelude.{◌≡◌, ◌≤◌, ℕ, List, Some, length, OnErr};
ghost use Rattle.console_operand.specs.Line.{lines_of};
ghost use Rattle.console_script.specs.Frames.{console_of};
ghost use Rattle.console_script.specs.Running.{LeadsTo};
ghost use Rattle.console_script.specs.Tallies.{lines_told, accepted_told};
ghost use Rattle.console_script.specs.Transcript.{batch_of, session_of};

use crate::script::{ScriptFault, tell};
use crate::summary::Summary;
use crate::tally::Tally;
use crate::telling::tell_line;
use bt_console::{Book, Runs, Supply};
use bt_mapkind::MapKind;
use bt_syntax::{FileText, first_line};
use console_answer::{Answer, Told};
use console_text::Output;
use std::alloc::Global;

// What is left of a batch after a line of which this was told: nothing if it was refused.
fn rest_behind(after: &[u8], told: Told) -> &[u8]
    ensures lines { lines_of result.now ≡ lines_told (lines_of after.now) told }
    ensures shorter { length result.now ≤ length after.now }
{
    match told {
        Told::Refused(_) => &[],
        Told::Empty | Told::Accepted | Told::Aborted(_) | Told::NoAction | Told::Processed => after,
    }
}

// How many lines of a batch were accepted up to a line of which this was told. At the greatest u64 the count stays.
fn accepted_behind(accepted: u64, told: Told) -> u64
    ensures { result ≡ accepted_told accepted told }
{
    match told {
        Told::Empty | Told::Refused(_) => accepted,
        Told::Accepted | Told::Aborted(_) | Told::NoAction | Told::Processed =>
            accepted.saturating_add(1),
    }
}

/// Runs the lines of a batch, tells how many were accepted, and hands over what they came to.
#[inline(never)]
pub fn run_batch<K: MapKind, S: Supply<K>, W: Output>(
    alloc: Global,
    book: &mut Book<K>,
    runs: &mut Runs,
    supply: &mut S,
    files: &[FileText],
    text: &[u8],
    summary: Summary,
    out: &mut W,
) -> Result<Tally, ScriptFault>
    ensures leads { (left : List (List ℕ)) → LeadsTo S.gives K.seen files.now supply.old
        (session_of (console_of book.old.plain runs.old) summary left (Some (batch_of (lines_of text.now)))) (W.contents out.old)
        supply.new (console_of book.new.plain runs.new) left (W.contents out.new) result }
    ensures refused { OnErr result (W.has_refused out.new) }
{
    let mut tally = Tally::fresh(summary);
    let mut accepted = 0;
    let mut rest = text;
    'lines: while !rest.is_empty() {
        let (line, after) = first_line(rest);
        let told = match tell_line(alloc, book, runs, supply, files, line, out) {
            Ok(told) => told,
            Err(_) => return Err(ScriptFault::Write),
        };
        rest = rest_behind(after, told);
        accepted = accepted_behind(accepted, told);
        tally = tally.with_told(told);
    }
    tell(out, tally, Some(Answer::Processed(accepted)))
}
