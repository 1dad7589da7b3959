//! A batch at a desk: the lines of a file, one by one, up to the first that is refused. Other threads come between them.

ghost use Rattle.std.specs.Prelude.{◌≡◌, Err, ◌≤◌, IfOk, length};
ghost use Rattle.console_operand.specs.Line.{lines_of};
ghost use Rattle.thread_lock.specs.Seats.{calls_left};
ghost use Rattle.bt_desk.specs.Seats.{IsSeatAt};
ghost use Rattle.thread_live.specs.declared.fault.LineFault.TheVariants.{SeatSpent, Write};
ghost use Rattle.console_script.specs.Tallies.{lines_told, accepted_told};
ghost use Rattle.thread_live.specs.Footings.{footing};
ghost use Rattle.thread_live.specs.Lines.{Does, BatchGoes};

use crate::fault::LineFault;
use crate::traffic::Traffic;
use bt_console::Supply;
use bt_desk::{Desk, Seat};
use bt_mapkind::MapKind;
use bt_syntax::{FileText, first_line};
use console_answer::{Answer, Told};
use console_script::{Summary, Tally, tell_answer};
use console_text::Output;
use std::alloc::Global;
use std::sync::Wait;
use thread_at_desk::{Session, line_at};

// What is left of a batch after a line of which this was told: nothing if it was refused.
fn rest_behind(after: &[u8], told: Told) -> &[u8]
    ensures lines { lines_of result.now ≡ lines_told (lines_of after.now) told }
    ensures shorter { length result.now ≤ length after.now }
{
    match told {
        Told::Refused(_) => &[],
        Told::Empty | Told::Accepted | Told::Aborted(_) | Told::NoAction | Told::Processed => after,
    }
}

// How many lines of a batch were accepted up to a line of which this was told. At the greatest u64 the count stays.
fn accepted_behind(accepted: u64, told: Told) -> u64
    ensures { result ≡ accepted_told accepted told }
{
    match told {
        Told::Empty | Told::Refused(_) => accepted,
        Told::Accepted | Told::Aborted(_) | Told::NoAction | Told::Processed =>
            accepted.saturating_add(1),
    }
}

// Has a try end, if a line that was accepted ends it.
fn heed<R: Wait>(rt: &R, traffic: &Traffic, line: &[u8], told: Told) {
    if told == Told::Accepted {
        traffic.trials.heed(rt, line);
    }
}

/// Does one line of a console at a desk, and tells what it came to.
pub(crate) fn told_at<K: MapKind, S: Supply<K>, R: Wait, W: Output>(
    rt: &R,
    alloc: Global,
    desk: &Desk<K>,
    seat: &mut Seat<K>,
    traffic: &Traffic,
    session: &mut Session<S>,
    files: &[FileText],
    line: &[u8],
    out: &mut W,
) -> Result<Told, LineFault>
    requires { IsSeatAt desk.now seat.old }
    ensures seat { IsSeatAt desk.now seat.new }
    ensures does { IfOk result (λ told. Does S.gives K.seen files.now desk.now line.now told
        (footing session.old seat.old (W.contents out.old)) (footing session.new seat.new (W.contents out.new))) }
    ensures refused { result ≡ Err Write → W.has_refused out.new }
    ensures spent { result ≡ Err SeatSpent → calls_left seat.new ≡ 0 }
{
    match line_at(rt, alloc, desk, seat, session, files, line, out) {
        Ok(Ok(told)) => {
            heed(rt, traffic, line, told);
            Ok(told)
        }
        Ok(Err(_)) => Err(LineFault::Write),
        Err(_) => Err(LineFault::SeatSpent),
    }
}

/// Does the lines of a batch, tells how many were accepted, and hands over what they came to.
pub(crate) fn batch_at<K: MapKind, S: Supply<K>, R: Wait, W: Output>(
    rt: &R,
    alloc: Global,
    desk: &Desk<K>,
    seat: &mut Seat<K>,
    traffic: &Traffic,
    session: &mut Session<S>,
    files: &[FileText],
    text: &[u8],
    summary: Summary,
    out: &mut W,
) -> Result<Tally, LineFault>
    requires { IsSeatAt desk.now seat.old }
    ensures seat { IsSeatAt desk.now seat.new }
    ensures goes { IfOk result (λ tally. BatchGoes S.gives K.seen files.now desk.now (lines_of text.now) summary
        (footing session.old seat.old (W.contents out.old)) (footing session.new seat.new (W.contents out.new)) tally) }
    ensures refused { result ≡ Err Write → W.has_refused out.new }
    ensures spent { result ≡ Err SeatSpent → calls_left seat.new ≡ 0 }
{
    let mut tally = Tally::fresh(summary);
    let mut accepted = 0;
    let mut rest = text;
    'lines: while !rest.is_empty() {
        let (line, after) = first_line(rest);
        let told = told_at(rt, alloc, desk, seat, traffic, session, files, line, out)?;
        rest = rest_behind(after, told);
        accepted = accepted_behind(accepted, told);
        tally = tally.with_told(told);
    }
    match tell_answer(out, Answer::Processed(accepted)) {
        Ok(told) => Ok(tally.with_told(told)),
        Err(_) => Err(LineFault::Write),
    }
}
