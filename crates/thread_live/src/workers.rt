//! What is answered to `workers show`, `stop`, `go` and `wait`.

ghost use Rattle.std.specs.Prelude.{◌≡◌, Err, None, IfOk, OnOk};
ghost use Rattle.thread_lock.specs.Seats.{calls_left};
ghost use Rattle.bt_desk.specs.Seats.{IsSeatAt};
ghost use Rattle.thread_live.specs.declared.fault.LineFault.TheVariants.{SeatSpent, Write};
ghost use Rattle.thread_live.specs.Standings.{state_of, StandsSo, WaitsSo, TellsReport, Tells, EndsTraffic};
ghost use Rattle.std.specs.Io.KnownBytes.{Appends};
ghost use Rattle.thread_at_desk.specs.Ran.{CountedAt};
ghost use Rattle.thread_live.specs.Reports.{report_text};
ghost use Rattle.thread_live.specs.declared.workers.Heeded.TheVariants.{Done};
ghost use Rattle.thread_live.specs.declared.report.State.TheVariants.{Stopped};

use crate::fault::LineFault;
use crate::operator::{Glance, Operator};
use crate::report::{Report, State, put_report, put_standing};
use crate::traffic::Traffic;
use crate::trying::end_try;
use bt_desk::{Desk, Seat};
use bt_mapkind::MapKind;
use console_live_words::WorkersCommand;
use console_text::{Output, put};
use std::sync::Wait;
use std::time::Clock;
use thread_at_desk::moments_at;
use thread_rounds::{Order, Standing};

/// Whether a command to the workers was done or refused.
#[derive(Clone, Copy, PartialEq, Eq, Debug)]
pub(crate) enum Heeded {
    Done,
    Refused,
}

// What workers do that stand so.
fn state_of(standing: Standing) -> State
    ensures { result ≡ state_of standing }
{
    match standing.order {
        Order::Rest | Order::Stop => State::Stopped,
        Order::Go => {
            if standing.present == 0 {
                State::Resting
            } else {
                State::Running
            }
        }
    }
}

// Frames a second between two looks; none if no millisecond passed.
fn rate_between(before: Glance, after: Glance) -> Option<u64> {
    let passed = after.at.checked_sub(before.at)?;
    let seconds = passed.as_secs().saturating_mul(1000);
    let passed = seconds.saturating_add(u64::from(passed.subsec_millis()));
    let frames = after.frames.saturating_sub(before.frames);
    frames.saturating_mul(1000).checked_div(passed)
}

// Frames a second since the last look; none if the clock cannot be read.
fn rate_since<R: Clock, S>(rt: &R, operator: &mut Operator<S>, frames: u64) -> Option<u64>
    ensures session { operator.new.session ≡ operator.old.session }
    ensures most { operator.new.most_moments ≡ operator.old.most_moments }
    ensures summary { operator.new.summary ≡ operator.old.summary }
{
    let Ok(at) = rt.monotonic() else {
        return None;
    };
    let now = Glance { at, frames };
    let rate = match operator.last {
        Some(before) => rate_between(before, now),
        None => None,
    };
    operator.last = Some(now);
    rate
}

// What there is to tell of the workers, with the moments that are in force.
fn look<K: MapKind, S, R: Wait + Clock>(
    rt: &R,
    desk: &Desk<K>,
    seat: &mut Seat<K>,
    traffic: &Traffic,
    operator: &mut Operator<S>,
) -> Result<Report, LineFault>
    requires { IsSeatAt desk.now seat.old }
    ensures seat { IsSeatAt desk.now seat.new }
    ensures session { operator.new.session ≡ operator.old.session }
    ensures summary { operator.new.summary ≡ operator.old.summary }
    ensures most { operator.new.most_moments ≡ operator.old.most_moments }
    ensures tells { IfOk result (λ report. (report.workers ≡ traffic.now.workers) × (report.most_moments ≡ operator.old.most_moments) × CountedAt desk.now report.moments seat.old seat.new) }
    ensures spent { result ≡ Err SeatSpent → calls_left seat.new ≡ 0 }
    ensures writes { ¬ (result ≡ Err Write) }
{
    let state = state_of(traffic.orders.standing(rt));
    let tally = traffic.counts.read(rt);
    let rate = rate_since(rt, operator, tally.frames);
    match moments_at(rt, desk, seat) {
        Ok(moments) => Ok(Report {
            workers: traffic.workers,
            state,
            tally,
            moments,
            most_moments: operator.most_moments,
            rate,
        }),
        Err(_) => Err(LineFault::SeatSpent),
    }
}

// Writes a report.
fn tell<W: Output>(out: &mut W, report: &Report) -> Result<Heeded, LineFault>
    ensures tells { IfOk result (λ it. (it ≡ Done) × Appends (W.contents out.old) (W.contents out.new) (report_text report.now)) }
    ensures refused { result ≡ Err Write → W.has_refused out.new }
    ensures spends { ¬ (result ≡ Err SeatSpent) }
{
    match put_report(out, report) {
        Ok(()) => Ok(Heeded::Done),
        Err(_) => Err(LineFault::Write),
    }
}

// Tells of the workers: their number, what they do, how their frames ended, and how many moments are in force.
fn show<K: MapKind, S, R: Wait + Clock, W: Output>(
    rt: &R,
    desk: &Desk<K>,
    seat: &mut Seat<K>,
    traffic: &Traffic,
    operator: &mut Operator<S>,
    out: &mut W,
) -> Result<Heeded, LineFault>
    requires { IsSeatAt desk.now seat.old }
    ensures seat { IsSeatAt desk.now seat.new }
    ensures session { operator.new.session ≡ operator.old.session }
    ensures summary { operator.new.summary ≡ operator.old.summary }
    ensures most { operator.new.most_moments ≡ operator.old.most_moments }
    ensures tells { IfOk result (λ it. (it ≡ Done) × TellsReport desk.now traffic.now operator.old.most_moments seat.old seat.new (W.contents out.old) (W.contents out.new)) }
    ensures refused { result ≡ Err Write → W.has_refused out.new }
    ensures spent { result ≡ Err SeatSpent → calls_left seat.new ≡ 0 }
{
    match look(rt, desk, seat, traffic, operator) {
        Ok(report) => tell(out, &report),
        Err(fault) => Err(fault),
    }
}

// Tells what the workers do.
fn stand<R: Wait, W: Output>(rt: &R, traffic: &Traffic, out: &mut W) -> Result<Heeded, LineFault>
    ensures stands { IfOk result (λ it. (it ≡ Done) × StandsSo traffic.now.workers (W.contents out.old) (W.contents out.new)) }
    ensures refused { result ≡ Err Write → W.has_refused out.new }
    ensures spends { ¬ (result ≡ Err SeatSpent) }
{
    let state = state_of(traffic.orders.standing(rt));
    match put_standing(out, traffic.workers, state) {
        Ok(()) => Ok(Heeded::Done),
        Err(_) => Err(LineFault::Write),
    }
}

// Gives the workers a signal, and waits until none of them is within a frame when they are to rest.
fn order<R: Wait, W: Output>(
    rt: &R,
    traffic: &Traffic,
    order: Order,
    out: &mut W,
) -> Result<Heeded, LineFault>
    ensures stands { IfOk result (λ it. (it ≡ Done) × StandsSo traffic.now.workers (W.contents out.old) (W.contents out.new)) }
    ensures refused { result ≡ Err Write → W.has_refused out.new }
    ensures spends { ¬ (result ≡ Err SeatSpent) }
{
    traffic.orders.give(rt, order);
    if order == Order::Rest {
        traffic.orders.await_idle(rt);
    }
    stand(rt, traffic, out)
}

// Waits until the workers have done all their passes, and has them stop. Refused if there is no last one.
fn await_end<R: Wait, W: Output>(
    rt: &R,
    traffic: &Traffic,
    out: &mut W,
) -> Result<Heeded, LineFault>
    ensures waits { IfOk result (λ it. WaitsSo traffic.now.workers (W.contents out.old) (W.contents out.new) traffic.now.passes it) }
    ensures refused { result ≡ Err Write → W.has_refused out.new }
    ensures spends { ¬ (result ≡ Err SeatSpent) }
{
    match traffic.passes {
        Some(_) => {
            traffic.orders.await_idle(rt);
            order(rt, traffic, Order::Rest, out)
        }
        None => match put(out, b"Error: no end\n") {
            Ok(()) => Ok(Heeded::Refused),
            Err(_) => Err(LineFault::Write),
        },
    }
}

/// Does what the workers are told, and writes what comes of it.
///
/// # Errors
/// `Write`, and `SeatSpent` if the journal could not be looked at.
pub(crate) fn heed<K: MapKind, S, R: Wait + Clock, W: Output>(
    rt: &R,
    desk: &Desk<K>,
    seat: &mut Seat<K>,
    traffic: &Traffic,
    operator: &mut Operator<S>,
    command: WorkersCommand,
    out: &mut W,
) -> Result<Heeded, LineFault>
    requires { IsSeatAt desk.now seat.old }
    ensures seat { IsSeatAt desk.now seat.new }
    ensures session { operator.new.session ≡ operator.old.session }
    ensures summary { operator.new.summary ≡ operator.old.summary }
    ensures most { operator.new.most_moments ≡ operator.old.most_moments }
    ensures tells { IfOk result (λ it. Tells desk.now traffic.now operator.old.most_moments seat.old seat.new (W.contents out.old) (W.contents out.new) command it) }
    ensures refused { result ≡ Err Write → W.has_refused out.new }
    ensures spent { result ≡ Err SeatSpent → calls_left seat.new ≡ 0 }
{
    match command {
        WorkersCommand::Show => show(rt, desk, seat, traffic, operator, out),
        WorkersCommand::Stop => order(rt, traffic, Order::Rest, out),
        WorkersCommand::Go => order(rt, traffic, Order::Go, out),
        WorkersCommand::Wait => await_end(rt, traffic, out),
    }
}

// What there is to tell of workers that have stopped.
fn last_look<K: MapKind, R: Wait>(
    rt: &R,
    desk: &Desk<K>,
    seat: &mut Seat<K>,
    traffic: &Traffic,
    most_moments: u64,
) -> Result<Report, LineFault>
    requires { IsSeatAt desk.now seat.old }
    ensures seat { IsSeatAt desk.now seat.new }
    ensures tells { IfOk result (λ report. (report.workers ≡ traffic.now.workers) × (report.most_moments ≡ most_moments) × CountedAt desk.now report.moments seat.old seat.new) }
    ensures stopped { IfOk result (λ report. (report.state ≡ Stopped) × (report.rate ≡ None)) }
    ensures spent { result ≡ Err SeatSpent → calls_left seat.new ≡ 0 }
    ensures writes { ¬ (result ≡ Err Write) }
{
    let tally = traffic.counts.read(rt);
    match moments_at(rt, desk, seat) {
        Ok(moments) => Ok(Report {
            workers: traffic.workers,
            state: State::Stopped,
            tally,
            moments,
            most_moments,
            rate: None,
        }),
        Err(_) => Err(LineFault::SeatSpent),
    }
}

/// Undoes to the mark of a pending try, has the workers stop, each after the frame that it has, and tells of them for the last
/// time: without the rate.
///
/// # Errors
/// `Write`, and `SeatSpent` if the journal could not be looked at.
pub fn end_traffic<K: MapKind, S, R: Wait + Eprint, W: Output>(
    rt: &R,
    desk: &Desk<K>,
    seat: &mut Seat<K>,
    traffic: &Traffic,
    operator: &Operator<S>,
    out: &mut W,
) -> Result<(), LineFault>
    requires { IsSeatAt desk.now seat.old }
    ensures seat { IsSeatAt desk.now seat.new }
    ensures ended { OnOk result (EndsTraffic desk.now traffic.now operator.now.most_moments seat.old seat.new (W.contents out.old) (W.contents out.new)) }
    ensures refused { result ≡ Err Write → W.has_refused out.new }
    ensures spent { result ≡ Err SeatSpent → calls_left seat.new ≡ 0 }
{
    end_try(rt, desk, seat, traffic);
    traffic.orders.give(rt, Order::Rest);
    traffic.orders.await_idle(rt);
    match last_look(rt, desk, seat, traffic, operator.most_moments) {
        Ok(report) => match tell(out, &report) {
            Ok(_) => Ok(()),
            Err(fault) => Err(fault),
        },
        Err(fault) => Err(fault),
    }
}
