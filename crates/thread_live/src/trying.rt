//! Changes that are tried: what is answered to `journal try` and `journal confirm`, and how a try ends with the host.

ghost use Rattle.std.specs.Prelude.{◌≡◌, Err, IfOk, codes};
ghost use Rattle.thread_lock.specs.Seats.{calls_left};
ghost use Rattle.bt_desk.specs.Seats.{IsSeatAt};
ghost use Rattle.thread_live.specs.declared.fault.LineFault.TheVariants.{SeatSpent, Write};
ghost use Rattle.thread_trial.specs.Kept.{Keeps};
ghost use Rattle.thread_live.specs.Footings.{footing};
ghost use Rattle.thread_live.specs.Trying.{named_text, Says, TellsTry, TriesChange, Confirms};
ghost use Rattle.thread_live.specs.declared.workers.Heeded.TheVariants.{Done, Refused};

use crate::fault::LineFault;
use crate::line::{heeded, refuse};
use crate::operator::Operator;
use crate::traffic::Traffic;
use crate::workers::Heeded;
use bt_desk::{Desk, Seat};
use bt_mapkind::MapKind;
use console_answer::Fault;
use console_script::{Summary, Tally};
use console_text::{Output, Piece, put, put_pieces};
use host_words::Word;
use std::sync::Wait;
use std::time::Clock;
use thread_trial::{TryFault, give_back};

// Writes what was done to a try of this name.
fn say_named<W: Output>(
    out: &mut W,
    did: &'static [u8],
    name: &Word,
    summary: Summary,
) -> Result<Tally, LineFault>
    ensures says { IfOk result (λ tally. Says (named_text did.now name.now) Done summary (W.contents out.old) (W.contents out.new) tally) }
    ensures refused { result ≡ Err Write → W.has_refused out.new }
    ensures spends { ¬ (result ≡ Err SeatSpent) }
{
    match put_pieces(
        out,
        &[
            Piece::Plain(did),
            Piece::Word(name.as_slice()),
            Piece::Plain(b"\n"),
        ],
    ) {
        Ok(()) => Ok(heeded(summary, Heeded::Done)),
        Err(_) => Err(LineFault::Write),
    }
}

// Writes why there is no try.
fn say_refused<W: Output>(
    out: &mut W,
    text: &'static [u8],
    summary: Summary,
) -> Result<Tally, LineFault>
    ensures says { IfOk result (λ tally. Says text.now Refused summary (W.contents out.old) (W.contents out.new) tally) }
    ensures refused { result ≡ Err Write → W.has_refused out.new }
    ensures spends { ¬ (result ≡ Err SeatSpent) }
{
    match put(out, text) {
        Ok(()) => Ok(heeded(summary, Heeded::Refused)),
        Err(_) => Err(LineFault::Write),
    }
}

// Writes that a change is tried, or why not.
fn tell_try<W: Output>(
    out: &mut W,
    name: &Word,
    told: Result<(), TryFault>,
    summary: Summary,
) -> Result<Tally, LineFault>
    ensures tells { IfOk result (TellsTry name.now told summary (W.contents out.old) (W.contents out.new)) }
    ensures refused { result ≡ Err Write → W.has_refused out.new }
    ensures spends { ¬ (result ≡ Err SeatSpent) }
{
    match told {
        Ok(()) => say_named(out, b"trying ", name, summary),
        Err(TryFault::Pending) => say_refused(out, b"Error: try pending\n", summary),
        Err(TryFault::NoClock) => say_refused(out, b"Error: no clock\n", summary),
        Err(TryFault::NoMemory) => refuse(out, summary, Fault::NoMemory),
        Err(TryFault::Mark(fault)) => refuse(out, summary, Fault::of_mark(fault)),
    }
}

/// Tries what comes next for so many seconds, and tells so.
pub(crate) fn answer_try<K: MapKind, S, R: Wait + Clock, W: Output>(
    rt: &R,
    desk: &Desk<K>,
    seat: &mut Seat<K>,
    traffic: &Traffic,
    operator: &mut Operator<S>,
    name: &Word,
    seconds: u32,
    out: &mut W,
) -> Result<Tally, LineFault>
    requires { IsSeatAt desk.now seat.old }
    ensures seat { IsSeatAt desk.now seat.new }
    ensures most { operator.new.most_moments ≡ operator.old.most_moments }
    ensures tries { IfOk result (λ tally. TriesChange name.now operator.old.summary
        (footing operator.old.session seat.old (W.contents out.old)) (footing operator.new.session seat.new (W.contents out.new)) tally) }
    ensures refused { result ≡ Err Write → W.has_refused out.new }
    ensures spent { result ≡ Err SeatSpent → calls_left seat.new ≡ 0 }
{
    match traffic.trials.begin(rt, desk, seat, name, seconds) {
        Ok(told) => {
            if told.is_ok() && traffic.crowds(seconds) {
                operator.crowded = Some(seconds);
            }
            tell_try(out, name, told, operator.summary)
        }
        Err(_) => Err(LineFault::SeatSpent),
    }
}

/// Keeps what is tried under a name, and tells so, or that nothing is.
pub(crate) fn answer_confirm<R: Wait, W: Output>(
    rt: &R,
    traffic: &Traffic,
    name: &Word,
    summary: Summary,
    out: &mut W,
) -> Result<Tally, LineFault>
    ensures confirms { IfOk result (Confirms name.now summary (W.contents out.old) (W.contents out.new)) }
    ensures refused { result ≡ Err Write → W.has_refused out.new }
    ensures spends { ¬ (result ≡ Err SeatSpent) }
{
    if traffic.trials.confirm(rt, name) {
        say_named(out, b"confirmed ", name, summary)
    } else {
        say_refused(out, b"Error: no try\n", summary)
    }
}

/// Undoes to the mark of a pending try, and says so on standard error. No change is tried any more.
pub(crate) fn end_try<K: MapKind, R: Wait + Eprint>(
    rt: &R,
    desk: &Desk<K>,
    seat: &mut Seat<K>,
    traffic: &Traffic,
)
    requires { IsSeatAt desk.now seat.old }
    ensures seat { IsSeatAt desk.now seat.new }
    ensures kept { Keeps desk.now seat.old seat.new }
{
    if let Some(ended) = give_back(rt, desk, seat, &traffic.trials) {
        let _ = rt.eprintln(ended);
    }
}
