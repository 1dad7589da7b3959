//! A live host on a kept book, from its first line to its last: lines are answered while frames are served between them.
//!
//! One thread has the book and the connection, and no other thread has either. While no line has come it has two workers serve
//! the next few frames, a portion, and keeps what they changed in one transaction. When a line has come it is done, kept and
//! answered as each line of a dialogue on a kept book is. So a line waits for one portion at most, and each portion is on the disk
//! whole or not at all.
//!
//! [`keep_live`] does so, with the frames of a [`Flow`] and the lines of an input that a trait stands for, [`Lines`]. A [`Course`]
//! says how far the frames have come, and how they ended. What a portion is stands in `specs/Portions`, and what a live host comes
//! to in `specs/Living`.

ghost use Rattle.std.specs.Prelude.{◌≡◌, ◌+◌, ◌^◌, ◌<◌, length, List, None, Err, IfOk, IfSome, OnErr};
ghost use Rattle.sqlite.specs.State.{HasCleanDisk};
ghost use Rattle.sqlite.specs.Held.{state};
ghost use Rattle.bt_syntax.specs.declared.files.FileText.{FileText as Named};
ghost use Rattle.console_input.specs.Named.{AreFilesOf};
ghost use Rattle.console_script.specs.Frames.{console_of};
ghost use Rattle.console_script.specs.Supplied.{AreSupplied};
ghost use Rattle.console_script.specs.Dialogue.{unspoken};
ghost use Rattle.console_talk.specs.Talk.{standing, said, place, silent};
ghost use Rattle.thread_frames.specs.Faults.{frames_fault};
ghost use Rattle.kept_file.specs.Keeps.{HoldsOne};
ghost use Rattle.kept_ledger.specs.TermsView.{PlainTerms};
ghost use Rattle.kept_ledger.specs.Ledger.{LeavesOnly};
ghost use Rattle.kept_lines.specs.Kept.{IsOnDisk};
ghost use Rattle.kept_host.specs.Talks.{StaysOnDisk, GoesKept, IsPart};
ghost use Rattle.thread_kept_frames.specs.Courses.{start, AreDue};
ghost use Rattle.thread_kept_frames.specs.Portions.{flowing, Flowed, BeforeOrBehind};
ghost use Rattle.thread_kept_frames.specs.Living.{beside, LivedThrough, IsLiveFront};

mod counted;
pub(crate) mod course;
pub(crate) mod fault;
pub(crate) mod flow;
pub(crate) mod in_file;
pub(crate) mod kept;
pub(crate) mod lines;
pub(crate) mod listener;
mod pace;
mod portion;
mod spoken;

use crate::fault::ServeFault;
use crate::live::course::Course;
use crate::live::fault::LiveFault;
use crate::live::flow::Flow;
use crate::live::lines::{Heard, Lines};
use crate::live::pace::Pace;
use crate::live::portion::keep_next;
use bt_journal::Book;
use bt_mapkind::MapKind;
use bt_syntax::first_line;
use console_input::{FileReader, MOST_SCRIPT, ReadFault};
use console_script::{Summary, Supply};
use console_talk::Manner;
use console_text::Output;
use kept_file::MakeBox;
use kept_host::{Broken, hear};
use kept_lines::{Asides, Databases, KeptDialogue};
use sqlite::{Alter, Connection};
use std::alloc::Global;
use std::mem::ManuallyDrop;
use std::sync::Wait;
use std::thread::Threads;
use std::time::Clock;

/// What a live host came to.
#[derive(Drop)]
pub struct Lived<K: MapKind> {
    /// The book that it left.
    pub book: Book<K>,
    /// How many lines were accepted and refused.
    pub summary: Summary,
    /// How far its frames came, and how they ended.
    pub course: Course,
}

// A live host between two turns: its book, what stands between its lines, the number of the last one, and how far its frames have
// come.
#[derive(Drop)]
struct Host<K: MapKind> {
    book: Book<K>,
    dialogue: KeptDialogue,
    number: u64,
    course: Course,
}

// A live host before its first line and its first frame.
fn begun<K: MapKind>(alloc: Global, book: Book<K>) -> Host<K>
    ensures book { result.book.plain ≡ book.plain }
    ensures dialogue { result.dialogue ≡ unspoken }
    ensures course { result.course ≡ start }
{
    Host {
        book,
        dialogue: KeptDialogue::new(alloc),
        number: 0,
        course: Course::start(),
    }
}

// What a host came to that is at its end.
fn ended<K: MapKind>(host: Host<K>) -> Lived<K>
    ensures book { result.book.plain ≡ host.book.plain }
    ensures summary { result.summary ≡ host.dialogue.summary }
    ensures course { result.course ≡ host.course }
{
    let Host {
        book,
        dialogue,
        number: _,
        course,
    } = host;
    let summary = dialogue.summary();
    Lived {
        book,
        summary,
        course,
    }
}

// Why a host came to no further line. Its book is given up.
fn unread<K: MapKind>(host: Host<K>, fault: ReadFault) -> LiveFault
    ensures { result ≡ LiveFault.Line (Broken.Unread fault) }
{
    let _host = ManuallyDrop::new(host);
    LiveFault::Line(Broken::Unread(fault))
}

// Answers a line, and asks for the next one. The book is given up if it is not answered.
fn answer<
    D: Alter,
    R: FileReader + Eprint + Databases + AllocGlobal,
    K: MapKind,
    S: Supply<K>,
    B: MakeBox<K>,
    A: Asides<K, W>,
    W: Output,
>(
    rt: &R,
    conn: &mut Connection<D>,
    host: Host<K>,
    supply: &mut S,
    boxes: &mut B,
    asides: &mut A,
    line: &[u8],
    out: &mut W,
) -> Result<Host<K>, Broken>
    ensures goes { IfOk result (λ to. (files : List Named) × GoesKept (AreSupplied S.gives K.seen) (AreFilesOf (R.may_read rt.now)) (StaysOnDisk (state D.Store conn.old) (state D.Store conn.new) host.book.plain) (said line.now files)
        (place supply.old (standing (console_of host.book.plain host.dialogue.runs) host.dialogue.summary) (W.contents out.old))
        (place supply.new (standing (console_of to.book.plain to.dialogue.runs) to.dialogue.summary) (W.contents out.new))) }
    ensures course { IfOk result (λ to. to.course ≡ host.course) }
    ensures clean { HasCleanDisk (state D.Store conn.new) → HasCleanDisk (state D.Store conn.old) }
    ensures kept { HasCleanDisk (state D.Store conn.new) → (t : PlainTerms) → IsOnDisk t (state D.Store conn.old) host.book.plain
        → IfOk result (λ to. IsOnDisk t (state D.Store conn.new) to.book.plain) }
    ensures part { OnErr result (HasCleanDisk (state D.Store conn.new) → (t : PlainTerms) → IsOnDisk t (state D.Store conn.old) host.book.plain
        → LeavesOnly (HoldsOne t (IsPart (AreFilesOf (R.may_read rt.now)) (standing (console_of host.book.plain host.dialogue.runs) host.dialogue.summary) line.now (W.contents out.old) (W.contents out.new)))
        (state D.Store conn.new)) }
{
    let Host {
        mut book,
        mut dialogue,
        number,
        course,
    } = host;
    let number = number.saturating_add(1);
    match hear(
        rt,
        conn,
        &mut book,
        &mut dialogue,
        supply,
        boxes,
        asides,
        number,
        line,
        out,
    ) {
        Ok(()) => {
            Manner::Dialogue.ask(rt);
            Ok(Host {
                book,
                dialogue,
                number,
                course,
            })
        }
        Err(fault) => {
            let _book = ManuallyDrop::new(book);
            Err(fault)
        }
    }
}

// Has the next portion of frames served and kept, if there is one. The book is given up if it is not kept.
fn flow_on<D: Alter, K: MapKind + Send, R: Databases + AllocGlobal + Threads + Wait + Sync>(
    rt: &R,
    conn: &mut Connection<D>,
    host: Host<K>,
    flow: &Flow,
    portion: Option<usize>,
) -> Result<Host<K>, ServeFault>
    requires due { IfSome portion (λ count. AreDue (length flow.now.frames.items) flow.now.passes host.course count) }
    requires bound { IfSome portion (λ _. host.course.pass + 1 < 2 ^ 64) }
    ensures flowed { IfOk result (λ to. Flowed flow.now.frames.items flow.now.passes (flowing host.book.plain host.course) (flowing to.book.plain to.course)) }
    ensures dialogue { IfOk result (λ to. to.dialogue ≡ host.dialogue) }
    ensures clean { HasCleanDisk (state D.Store conn.new) → HasCleanDisk (state D.Store conn.old) }
    ensures kept { HasCleanDisk (state D.Store conn.new) → (t : PlainTerms) → IsOnDisk t (state D.Store conn.old) host.book.plain
        → IfOk result (λ to. IsOnDisk t (state D.Store conn.new) to.book.plain) }
    ensures left { OnErr result (HasCleanDisk (state D.Store conn.new) → (t : PlainTerms) → IsOnDisk t (state D.Store conn.old) host.book.plain
        → LeavesOnly (HoldsOne t (BeforeOrBehind flow.now.frames.items flow.now.passes (flowing host.book.plain host.course))) (state D.Store conn.new)) }
    ensures good { frames_fault flow.now.frames.items ≡ None → result ≡ Err ServeFault.BadFrames → ⊥ }
{
    let Some(count) = portion else {
        return Ok(host);
    };
    let Host {
        book,
        dialogue,
        number,
        course,
    } = host;
    match keep_next(rt, conn, book, flow, course, count) {
        Ok((book, course)) => Ok(Host {
            book,
            dialogue,
            number,
            course,
        }),
        Err(fault) => Err(fault),
    }
}

/// Answers the lines of an input on a kept book, up to its end or to a `quit` or `exit`, each as a dialogue on a kept book does, and
/// serves frames while none has come: portions of the frames of one pass after the other, each by two workers, and kept in one
/// transaction before the next line is heard. Nothing is written of frames. Lines are asked for on standard error. After a range that
/// is refused the book is opened again if it was ahead of its database, with maps from `boxes`. Of the time that goes by nothing is
/// said here, nor how many portions come between two lines.
///
/// # Errors
/// `Line`: Unread if a line is not read or more than 16,777,216 bytes come, and if there is no memory for a line or a file; Lines, as
/// a script has them; and Open if the book is not opened again. `Frames` with a fault of
/// [`keep_portion`](crate::keep_portion), which is `BadFrames` only if there are too many frames or too long a one. What
/// was answered before stands on the output, and is on the disk with the frames before it; the book is given up.
pub fn keep_live<
    D: Alter,
    R: FileReader + Eprint + Databases + AllocGlobal + Threads + Wait + Clock + Sync,
    K: MapKind + Send,
    S: Supply<K>,
    B: MakeBox<K>,
    A: Asides<K, W>,
    L: Lines,
    W: Output,
>(
    rt: &R,
    conn: &mut Connection<D>,
    book: Book<K>,
    supply: &mut S,
    boxes: &mut B,
    asides: &mut A,
    lines: &mut L,
    flow: &Flow,
    out: &mut W,
) -> Result<Lived<K>, LiveFault>
    ensures lived { IfOk result (λ it. LivedThrough flow.now.frames.items flow.now.passes (AreSupplied S.gives K.seen) (AreFilesOf (R.may_read rt.now)) (StaysOnDisk (state D.Store conn.old) (state D.Store conn.new) book.plain) (L.remaining lines.old)
        (beside (place supply.old (silent book.plain) (W.contents out.old)) start) it.book.plain supply.new (W.contents out.new) it.summary it.course) }
    ensures clean { HasCleanDisk (state D.Store conn.new) → HasCleanDisk (state D.Store conn.old) }
    ensures kept { HasCleanDisk (state D.Store conn.new) → (t : PlainTerms) → IsOnDisk t (state D.Store conn.old) book.plain
        → IfOk result (λ it. IsOnDisk t (state D.Store conn.new) it.book.plain) }
    ensures left { OnErr result (HasCleanDisk (state D.Store conn.new) → (t : PlainTerms) → IsOnDisk t (state D.Store conn.old) book.plain
        → LeavesOnly (HoldsOne t (IsLiveFront flow.now.frames.items flow.now.passes (AreSupplied S.gives K.seen) (AreFilesOf (R.may_read rt.now)) (L.remaining lines.old)
        (beside (place supply.old (silent book.plain) (W.contents out.old)) start) (W.contents out.new)))
        (state D.Store conn.new)) }
    ensures good { frames_fault flow.now.frames.items ≡ None → result ≡ Err (LiveFault.Frames ServeFault.BadFrames) → ⊥ }
{
    let mut host = begun(rt.alloc(), book);
    let mut pace = Pace::new(flow.rate);
    let mut given = Vec::new(rt.alloc());
    let mut left = MOST_SCRIPT;
    Manner::Dialogue.ask(rt);
    'turns: for _ in rt.forever() {
        let portion = host.course.due(flow.frames.len(), flow.passes, pace.most());
        match lines.hear(&mut given, left, pace.patience(rt, portion)) {
            Ok(Heard::Line(still)) => {
                left = still;
                let (line, _) = first_line(given.as_slice());
                if Manner::Dialogue.is_ended_by(line) {
                    return Ok(ended(host));
                }
                host = match answer(rt, conn, host, supply, boxes, asides, line, out) {
                    Ok(host) => host,
                    Err(fault) => return Err(LiveFault::Line(fault)),
                };
            }
            Ok(Heard::NotYet) => {
                pace = pace.after(rt, portion);
                host = match flow_on(rt, conn, host, flow, portion) {
                    Ok(host) => host,
                    Err(fault) => return Err(LiveFault::Frames(fault)),
                };
            }
            Ok(Heard::End) => return Ok(ended(host)),
            Err(fault) => return Err(unread(host, fault)),
        }
    }
    unreachable!()
}
