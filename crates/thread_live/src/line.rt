//! One line of the console of a live host.

ghost use Rattle.std.specs.Prelude.{◌≡◌, Err, IfOk};
ghost use Rattle.thread_lock.specs.Seats.{calls_left};
ghost use Rattle.bt_desk.specs.Seats.{IsSeatAt};
ghost use Rattle.thread_live.specs.declared.fault.LineFault.TheVariants.{SeatSpent, Write};
ghost use Rattle.thread_live.specs.Footings.{footing, RefusesBy};
ghost use Rattle.thread_live.specs.Lines.{OrdersWorkers, Does, ScriptGoes, HeedsCommand, LineGoes};
ghost use Rattle.thread_live.specs.Standings.{heeded};
ghost use Rattle.console_answer.specs.declared.told.Told.{Told};
ghost use Rattle.console_script.specs.Tallies.{fresh, tallied_told};

use crate::batch::{batch_at, told_at};
use crate::fault::LineFault;
use crate::operator::Operator;
use crate::traffic::Traffic;
use crate::trying::{answer_confirm, answer_try};
use crate::workers::{Heeded, heed};
use bt_console::Supply;
use bt_desk::{Desk, Seat};
use bt_mapkind::MapKind;
use bt_syntax::{FileText, SyntaxFault, batch_path, file_at};
use console_answer::Fault;
use console_live_words::{LiveCommand, WorkersCommand, parse_live_line};
use console_script::{Summary, Tally, tell_refused};
use console_text::Output;
use std::alloc::Global;
use std::sync::Wait;
use std::time::Clock;

/// Writes that a line was refused.
pub(crate) fn refuse<W: Output>(
    out: &mut W,
    summary: Summary,
    fault: Fault,
) -> Result<Tally, LineFault>
    ensures refuses { IfOk result (λ tally. RefusesBy (W.contents out.old) (W.contents out.new) fault summary tally) }
    ensures refused { result ≡ Err Write → W.has_refused out.new }
    ensures spends { ¬ (result ≡ Err SeatSpent) }
{
    match tell_refused(out, fault) {
        Ok(told) => Ok(Tally::fresh(summary).with_told(told)),
        Err(_) => Err(LineFault::Write),
    }
}

/// What the lines come to with a command that only a live host has.
pub(crate) fn heeded(summary: Summary, it: Heeded) -> Tally
    ensures { result ≡ heeded summary it }
{
    let summary = match it {
        Heeded::Done => Summary {
            accepted: summary.accepted.saturating_add(1),
            refused: summary.refused,
        },
        Heeded::Refused => Summary {
            accepted: summary.accepted,
            refused: summary.refused.saturating_add(1),
        },
    };
    Tally::fresh(summary)
}

// Answers a command to the workers.
fn answer_workers<K: MapKind, S, R: Wait + Clock, W: Output>(
    rt: &R,
    desk: &Desk<K>,
    seat: &mut Seat<K>,
    traffic: &Traffic,
    operator: &mut Operator<S>,
    command: WorkersCommand,
    out: &mut W,
) -> Result<Tally, LineFault>
    requires { IsSeatAt desk.now seat.old }
    ensures seat { IsSeatAt desk.now seat.new }
    ensures most { operator.new.most_moments ≡ operator.old.most_moments }
    ensures ordered { IfOk result (λ tally. OrdersWorkers desk.now traffic.now operator.old.most_moments command operator.old.summary
        (footing operator.old.session seat.old (W.contents out.old)) (footing operator.new.session seat.new (W.contents out.new)) tally) }
    ensures refused { result ≡ Err Write → W.has_refused out.new }
    ensures spent { result ≡ Err SeatSpent → calls_left seat.new ≡ 0 }
{
    match heed(rt, desk, seat, traffic, operator, command, out) {
        Ok(it) => Ok(heeded(operator.summary, it)),
        Err(fault) => Err(fault),
    }
}

// Does one line of a script.
fn answer_single<K: MapKind, S: Supply<K>, R: Wait, W: Output>(
    rt: &R,
    alloc: Global,
    desk: &Desk<K>,
    seat: &mut Seat<K>,
    traffic: &Traffic,
    operator: &mut Operator<S>,
    files: &[FileText],
    line: &[u8],
    out: &mut W,
) -> Result<Tally, LineFault>
    requires { IsSeatAt desk.now seat.old }
    ensures seat { IsSeatAt desk.now seat.new }
    ensures most { operator.new.most_moments ≡ operator.old.most_moments }
    ensures does { IfOk result (λ tally. (it : Told) × Does S.gives K.seen files.now desk.now line.now it
        (footing operator.old.session seat.old (W.contents out.old)) (footing operator.new.session seat.new (W.contents out.new)) × (tally ≡ tallied_told (fresh operator.old.summary) it)) }
    ensures refused { result ≡ Err Write → W.has_refused out.new }
    ensures spent { result ≡ Err SeatSpent → calls_left seat.new ≡ 0 }
{
    let summary = operator.summary;
    match told_at(
        rt,
        alloc,
        desk,
        seat,
        traffic,
        &mut operator.session,
        files,
        line,
        out,
    ) {
        Ok(told) => Ok(Tally::fresh(summary).with_told(told)),
        Err(fault) => Err(fault),
    }
}

// Does a line of a script, or the batch that it names.
fn answer_script<K: MapKind, S: Supply<K>, R: Wait, W: Output>(
    rt: &R,
    alloc: Global,
    desk: &Desk<K>,
    seat: &mut Seat<K>,
    traffic: &Traffic,
    operator: &mut Operator<S>,
    files: &[FileText],
    line: &[u8],
    out: &mut W,
) -> Result<Tally, LineFault>
    requires { IsSeatAt desk.now seat.old }
    ensures seat { IsSeatAt desk.now seat.new }
    ensures most { operator.new.most_moments ≡ operator.old.most_moments }
    ensures goes { IfOk result (λ tally. ScriptGoes S.gives K.seen files.now desk.now line.now operator.old.summary
        (footing operator.old.session seat.old (W.contents out.old)) (footing operator.new.session seat.new (W.contents out.new)) tally) }
    ensures refused { result ≡ Err Write → W.has_refused out.new }
    ensures spent { result ≡ Err SeatSpent → calls_left seat.new ≡ 0 }
{
    let summary = operator.summary;
    match batch_path(line) {
        None => answer_single(rt, alloc, desk, seat, traffic, operator, files, line, out),
        Some(path) => match file_at(files, path) {
            Some(text) => {
                let session = &mut operator.session;
                batch_at(
                    rt, alloc, desk, seat, traffic, session, files, text, summary, out,
                )
            }
            None => refuse(out, summary, Fault::NoFile),
        },
    }
}

// Answers a command that only a live host has.
fn answer_command<K: MapKind, S, R: Wait + Clock, W: Output>(
    rt: &R,
    desk: &Desk<K>,
    seat: &mut Seat<K>,
    traffic: &Traffic,
    operator: &mut Operator<S>,
    command: LiveCommand,
    out: &mut W,
) -> Result<Tally, LineFault>
    requires { IsSeatAt desk.now seat.old }
    ensures seat { IsSeatAt desk.now seat.new }
    ensures most { operator.new.most_moments ≡ operator.old.most_moments }
    ensures heeds { IfOk result (λ tally. HeedsCommand desk.now traffic.now operator.old.most_moments command operator.old.summary
        (footing operator.old.session seat.old (W.contents out.old)) (footing operator.new.session seat.new (W.contents out.new)) tally) }
    ensures refused { result ≡ Err Write → W.has_refused out.new }
    ensures spent { result ≡ Err SeatSpent → calls_left seat.new ≡ 0 }
{
    match command {
        LiveCommand::Workers(order) => {
            answer_workers(rt, desk, seat, traffic, operator, order, out)
        }
        LiveCommand::Try { name, seconds } => {
            answer_try(rt, desk, seat, traffic, operator, &name, seconds, out)
        }
        LiveCommand::Confirm(name) => { answer_confirm(rt, traffic, &name, operator.summary, out) }
    }
}

// Answers a line, and tells what the lines so far came to with it.
fn answer<K: MapKind, S: Supply<K>, R: Wait + Clock, W: Output>(
    rt: &R,
    alloc: Global,
    desk: &Desk<K>,
    seat: &mut Seat<K>,
    traffic: &Traffic,
    operator: &mut Operator<S>,
    files: &[FileText],
    line: &[u8],
    out: &mut W,
) -> Result<Tally, LineFault>
    requires { IsSeatAt desk.now seat.old }
    ensures seat { IsSeatAt desk.now seat.new }
    ensures most { operator.new.most_moments ≡ operator.old.most_moments }
    ensures goes { IfOk result (λ tally. LineGoes S.gives K.seen files.now desk.now traffic.now operator.old.most_moments line.now operator.old.summary
        (footing operator.old.session seat.old (W.contents out.old)) (footing operator.new.session seat.new (W.contents out.new)) tally) }
    ensures refused { result ≡ Err Write → W.has_refused out.new }
    ensures spent { result ≡ Err SeatSpent → calls_left seat.new ≡ 0 }
{
    let summary = operator.summary;
    match parse_live_line(alloc, line) {
        Ok(found) => match found {
            Some(command) => { answer_command(rt, desk, seat, traffic, operator, command, out) }
            None => answer_script(rt, alloc, desk, seat, traffic, operator, files, line, out),
        },
        Err(SyntaxFault::At(word)) => refuse(out, summary, Fault::Syntax(word)),
        Err(SyntaxFault::TooLong) => refuse(out, summary, Fault::TooLong),
        Err(SyntaxFault::NoMemory) => refuse(out, summary, Fault::NoMemory),
    }
}

/// Answers one line of the console of a live host, and writes its text: how many lines were accepted and refused so far, and
/// what went wrong in this one. A line that only a live host has is to the workers or tells of them, or tries a change for a
/// while. Any other is a line of a script, done in one call of the desk; a frame has a call for its start and one for each
/// access, and a batch goes line by line.
///
/// # Errors
/// `Write` if a write failed or took no byte: the line was done, and a front of its text was written. `SeatSpent` if
/// the seat has no calls left.
pub fn answer_line<K: MapKind, S: Supply<K>, R: Wait + Clock, W: Output>(
    rt: &R,
    alloc: Global,
    desk: &Desk<K>,
    seat: &mut Seat<K>,
    traffic: &Traffic,
    operator: &mut Operator<S>,
    files: &[FileText],
    line: &[u8],
    out: &mut W,
) -> Result<Tally, LineFault>
    requires { IsSeatAt desk.now seat.old }
    ensures seat { IsSeatAt desk.now seat.new }
    ensures goes { IfOk result (λ tally. LineGoes S.gives K.seen files.now desk.now traffic.now operator.old.most_moments line.now operator.old.summary
        (footing operator.old.session seat.old (W.contents out.old)) (footing operator.new.session seat.new (W.contents out.new)) tally) }
    ensures counted { IfOk result (λ tally. operator.new.summary ≡ tally.summary) }
    ensures most { operator.new.most_moments ≡ operator.old.most_moments }
    ensures refused { result ≡ Err Write → W.has_refused out.new }
    ensures spent { result ≡ Err SeatSpent → calls_left seat.new ≡ 0 }
{
    match answer(rt, alloc, desk, seat, traffic, operator, files, line, out) {
        Ok(tally) => {
            operator.summary = tally.summary;
            Ok(tally)
        }
        Err(fault) => Err(fault),
    }
}
