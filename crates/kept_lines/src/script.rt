//! A script on a kept book.

ghost use Rattle.std.specs.Prelude.{◌≡◌, [], ⊤, List, IfOk, IfErr, OnOk, OnErr, MatchResult, ◌⊎◌};
ghost use Rattle.sqlite.specs.State.{HasCleanDisk, Survives};
ghost use Rattle.sqlite.specs.Held.{state};
ghost use Rattle.journal_model.specs.Book.{PlainBook};
ghost use Rattle.console_script.specs.Supplied.{AreSupplied};
ghost use Rattle.console_script.specs.Transcript.{RanAll};
ghost use Rattle.kept_book.specs.Leading.{LeadTo};
ghost use Rattle.kept_ledger.specs.TermsView.{PlainTerms};
ghost use Rattle.kept_ledger.specs.Ledger.{Entry, IsLedgerOf};
ghost use Rattle.kept_lines.specs.Kept.{IsOnDisk, IsKept, IsUnkept, IsNotTaken, AddsAt, IsFlushed, IsHeld, IsLost, Stops, LeavesFront, script_on};

use crate::fault::LinesFault;
use crate::group::Group;
use crate::hints::{Hints, Wrong, wrong_in};
use crate::line::keep_line_or_batch;
use bt_journal::Book;
use bt_mapkind::MapKind;
use bt_syntax::{FileText, Script};
use console_operand::first_line;
use console_script::{Runs, Summary, Supply};
use console_text::{Output, put};
use kept_file::{KeepFault, KeptEvent, keep};
use sqlite::{Alter, Connection};
use std::alloc::Global;

/// How many bytes of answers are held back before what was noted is kept.
const GROUP: usize = 65_536;

/// Adds events to the log of the database in one transaction, at this time in milliseconds since 1970, if there are any.
///
/// # Errors
/// `Sql` if the database did not take them; then a crash leaves it with all of them or as it was, and the connection is to be closed.
pub fn keep_events<D: Alter>(
    alloc: Global,
    conn: &mut Connection<D>,
    time: u64,
    events: &[KeptEvent],
) -> Result<(), KeepFault>
    ensures clean { HasCleanDisk (state D.Store conn.new) → HasCleanDisk (state D.Store conn.old) }
    ensures kept { OnOk result (IsKept (state D.Store conn.old) (state D.Store conn.new) events.now) }
    ensures unkept { OnErr result (IsUnkept (state D.Store conn.old) (state D.Store conn.new) events.now) }
    ensures times { OnOk result (AddsAt time (state D.Store conn.old) (state D.Store conn.new)) }
    ensures reason { HasCleanDisk (state D.Store conn.new) → (t : PlainTerms) (es : List Entry) → IsLedgerOf t es (state D.Store conn.old) → IfErr result (IsNotTaken D.Store conn.old conn.new) }
{
    if events.is_empty() {
        return Ok(());
    }
    match keep(alloc, conn, time, events) {
        Ok(()) => Ok(()),
        Err(error) => Err(KeepFault::Sql(error)),
    }
}

/// Keeps what the group noted, and then writes what it answered.
pub(crate) fn flush<D: Alter, W: Output>(
    alloc: Global,
    conn: &mut Connection<D>,
    time: u64,
    group: &mut Group,
    out: &mut W,
) -> Result<(), LinesFault>
    ensures flushed { OnOk result (IsFlushed (state D.Store conn.old) (state D.Store conn.new) (W.contents out.old) (W.contents out.new)
        group.old.events.items group.new.events.items group.old.text.items group.new.text.items) }
    ensures lost { IfErr result (IsLost (state D.Store conn.old) (state D.Store conn.new) (W.contents out.old) (W.contents out.new) group.old.events.items group.old.text.items) }
    ensures times { OnOk result (AddsAt time (state D.Store conn.old) (state D.Store conn.new)) }
{
    match keep_events(alloc, conn, time, group.events.as_slice()) {
        Ok(()) => {}
        Err(fault) => return Err(LinesFault::CannotKeep(fault)),
    }
    match put(out, group.text.as_slice()) {
        Ok(()) => {
            group.events.clear();
            group.text.clear();
            Ok(())
        }
        Err(_) => Err(LinesFault::Write),
    }
}

// As [`flush`], if so many bytes are held back.
fn flush_large<D: Alter, W: Output>(
    alloc: Global,
    conn: &mut Connection<D>,
    time: u64,
    group: &mut Group,
    out: &mut W,
) -> Result<(), LinesFault>
    ensures flushed { OnOk result (IsHeld (state D.Store conn.old) (state D.Store conn.new) (W.contents out.old) (W.contents out.new)
        group.old.events.items group.new.events.items group.old.text.items group.new.text.items
        ⊎ IsFlushed (state D.Store conn.old) (state D.Store conn.new) (W.contents out.old) (W.contents out.new)
        group.old.events.items group.new.events.items group.old.text.items group.new.text.items) }
    ensures lost { IfErr result (IsLost (state D.Store conn.old) (state D.Store conn.new) (W.contents out.old) (W.contents out.new) group.old.events.items group.old.text.items) }
    ensures times { OnOk result (AddsAt time (state D.Store conn.old) (state D.Store conn.new)) }
{
    if group.text.len() < GROUP {
        return Ok(());
    }
    flush(alloc, conn, time, group, out)
}

// As [`flush`], if something went wrong in the last line, of which is told then, and else as [`flush_large`].
fn settle<D: Alter, K: MapKind, H: Hints<K, W>, W: Output>(
    alloc: Global,
    conn: &mut Connection<D>,
    time: u64,
    book: &mut Book<K>,
    files: &[FileText],
    group: &mut Group,
    wrong: Option<Wrong<'_>>,
    hints: &mut H,
    out: &mut W,
) -> Result<(), LinesFault>
    ensures same { book.new.plain ≡ book.old.plain }
    ensures flushed { OnOk result (IsHeld (state D.Store conn.old) (state D.Store conn.new) (W.contents out.old) (W.contents out.new)
        group.old.events.items group.new.events.items group.old.text.items group.new.text.items
        ⊎ IsFlushed (state D.Store conn.old) (state D.Store conn.new) (W.contents out.old) (W.contents out.new)
        group.old.events.items group.new.events.items group.old.text.items group.new.text.items) }
    ensures lost { IfErr result (IsLost (state D.Store conn.old) (state D.Store conn.new) (W.contents out.old) (W.contents out.new) group.old.events.items group.old.text.items) }
    ensures times { OnOk result (AddsAt time (state D.Store conn.old) (state D.Store conn.new)) }
{
    let Some(wrong) = wrong else {
        return flush_large(alloc, conn, time, group, out);
    };
    match flush(alloc, conn, time, group, out) {
        Ok(()) => {
            hints.tell(book, files, wrong, out);
            Ok(())
        }
        Err(fault) => Err(fault),
    }
}

/// Runs the lines of a script on a kept book, as [`run_script`](console_script::run_script) does on any: what a line did is
/// noted, and its answer is written after that is on the disk. Some lines are kept at once, at this time in milliseconds
/// since 1970; if they change nothing, nothing is kept. If something goes wrong in a line, it is told of as soon as this
/// line and those before it are kept and answered.
///
/// # Errors
/// CannotKeep if what some lines did is not kept: what was written before are the answers of the lines that are on the disk. The
/// book is then ahead of its database, and of no use; if a fault of the disk shut the connection, it is to be closed. Write
/// if the answers of lines that are on the disk were not written to their end. No later line is run in either case.
pub fn keep_lines<D: Alter, K: MapKind, S: Supply<K>, H: Hints<K, W>, W: Output>(
    alloc: Global,
    conn: &mut Connection<D>,
    time: u64,
    book: &mut Book<K>,
    script: &Script,
    supply: &mut S,
    hints: &mut H,
    out: &mut W,
) -> Result<Summary, LinesFault>
    ensures ran { IfOk result (RanAll (W.contents out.old) (W.contents out.new) book.old.plain
        (λ run. AreSupplied S.gives K.seen supply.old run supply.new) script.now.files.items script.now.text.items book.new.plain) }
    ensures clean { HasCleanDisk (state D.Store conn.new) → HasCleanDisk (state D.Store conn.old) }
    ensures kept { HasCleanDisk (state D.Store conn.new) → (t : PlainTerms) → IsOnDisk t (state D.Store conn.old) book.old.plain
        → OnOk result (IsOnDisk t (state D.Store conn.new) book.new.plain) }
    ensures times { OnOk result (AddsAt time (state D.Store conn.old) (state D.Store conn.new)) }
    ensures left { LeavesFront script.now.files.items (script_on book.old.plain script.now.text.items) (λ t. IsOnDisk t (state D.Store conn.old) book.old.plain) (state D.Store conn.new) (W.contents out.old) (W.contents out.new) }
    ensures stops { IfErr result (Stops script.now.files.items (script_on book.old.plain script.now.text.items) (λ t. IsOnDisk t (state D.Store conn.old) book.old.plain) (state D.Store conn.new) (W.contents out.old) (W.contents out.new)) }
{
    let mut runs = Runs::new(alloc);
    let mut summary = Summary {
        accepted: 0,
        refused: 0,
    };
    let mut group = Group::new(alloc);
    let files = script.files.as_slice();
    let mut rest = script.text.as_slice();
    let mut number = 0u64;
    'lines: while !rest.is_empty() {
        let (line, after) = first_line(rest);
        rest = after;
        number = number.saturating_add(1);
        let runs = &mut runs;
        let tally = match keep_line_or_batch(
            alloc, book, runs, supply, files, line, summary, &mut group,
        ) {
            Ok(tally) => tally,
            Err(fault) => return Err(LinesFault::CannotKeep(fault)),
        };
        let wrong = wrong_in(number, line, summary, tally);
        summary = tally.summary;
        match settle(
            alloc, conn, time, book, files, &mut group, wrong, hints, out,
        ) {
            Ok(()) => {}
            Err(fault) => return Err(fault),
        }
    }
    match flush(alloc, conn, time, &mut group, out) {
        Ok(()) => Ok(summary),
        Err(fault) => Err(fault),
    }
}
