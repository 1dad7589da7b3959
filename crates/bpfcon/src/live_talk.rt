//! The console of a live host: lines of an input, each answered while workers serve frames.

ghost use Rattle.std.specs.Prelude.{◌≡◌, List, IfOk, IfErr, OnOk};
ghost use Rattle.std.specs.Io.KnownBytes.{Keeps};
ghost use Rattle.bt_desk.specs.Seats.{IsSeatAt};
ghost use Rattle.bt_syntax.specs.declared.files.FileText.{FileText};
ghost use Rattle.console_input.specs.Named.{AreFilesOf};
ghost use Rattle.thread_live.specs.Footings.{footing};
ghost use Rattle.thread_asides.specs.Looked.{TellsLookAt};
ghost use Rattle.bpfcon.specs.LiveTalk.{IsAnsweredLive, GoesLive, TalkedLive, TalkedToEnd};
ghost use Rattle.console_talk.specs.Talk.{said};
ghost use Rattle.bpfcon.specs.Ends.{EndsLines, EndsLive};

use crate::fault::Fault;
use crate::talk::INPUT;
use bt_console::Supply;
use bt_desk::{Desk, Seat};
use bt_mapkind::MapKind;
use bt_syntax::{FileText, first_line};
use console_hint::Place;
use console_input::{FileReader, MOST_SCRIPT, read_named};
use console_looks::Look;
use console_script::{HostKind, HostSupply, Summary, Tally};
use console_talk::{Manner, read_line};
use console_text::Output;
use std::io::BufRead;
use std::sync::Wait;
use std::time::Clock;
use thread_asides::{LookFault, Turning, explain_at, look_at, show_help, tell_held_at, tell_step};
use thread_live::{Console, Operator, Traffic, answer_line, end_traffic};

/// The console of a live host: where its lines come from, where its answers go, and what it keeps from line to line.
#[derive(Drop)]
pub struct Talk<I, W> {
    pub input: I,
    pub out: W,
    /// On the heap: it has room for a run of 23 KB, and moves from call to call until the console talks.
    pub operator: Box<Operator<HostSupply>>,
}

/// What the console of a live host leaves: its output, and how many lines were accepted and refused, those of the setup among
/// them, or what ended it before its last line.
#[derive(Drop)]
pub struct Left<W> {
    pub out: W,
    pub ran: Result<Summary, Fault>,
}

// Says if a change that is tried for so many seconds may be undone before.
fn warn<R: Eprint>(rt: &R, crowded: Option<u32>) {
    if let Some(seconds) = crowded {
        let _ = eprintln!(rt;
            "bpfcon: half of the journal may fill within {seconds} seconds; the try is undone as soon as it does"
        );
    }
}

// Has what was written stand on the output, and tells on standard error what went wrong in a line, or what to know of it.
fn told<K: MapKind, R: FileReader + Eprint + AllocGlobal + Wait, W: Output>(
    rt: &R,
    desk: &Desk<K>,
    looker: &mut Seat<K>,
    files: &[FileText],
    place: Place<'_>,
    before: Summary,
    tally: Tally,
    crowded: Option<u32>,
    out: &mut W,
) -> Result<(), Fault>
    requires { IsSeatAt desk.now looker.old }
    ensures looker { IsSeatAt desk.now looker.new }
    ensures kept { Keeps (W.contents out.old) (W.contents out.new) }
    ensures only { IfErr result (EndsLines (W.has_refused out.new)) }
{
    match out.flush_all() {
        Ok(()) => {}
        Err(_) => return Err(Fault::CannotWrite),
    }
    warn(rt, crowded);
    let Some(mishap) = tally.mishap else {
        return Ok(());
    };
    let accepted = tally.summary.accepted.saturating_sub(before.accepted);
    let place = place.refused_behind(files, accepted);
    explain_at(rt, desk, looker, files, place, mishap);
    Ok(())
}

// Answers one line, and has its answer stand on the output when it returns.
fn answer_now<
    K: MapKind,
    S: Supply<K>,
    R: FileReader + Eprint + AllocGlobal + Wait + Clock,
    W: Output,
>(
    rt: &R,
    desk: &Desk<K>,
    seat: &mut Seat<K>,
    looker: &mut Seat<K>,
    traffic: &Traffic,
    operator: &mut Operator<S>,
    place: Place<'_>,
    out: &mut W,
) -> Result<(), Fault>
    requires { IsSeatAt desk.now seat.old × IsSeatAt desk.now looker.old }
    ensures seat { IsSeatAt desk.now seat.new }
    ensures looker { IsSeatAt desk.now looker.new }
    ensures most { operator.new.most_moments ≡ operator.old.most_moments }
    ensures answered { IfOk result (λ _. (files : List FileText) × IsAnsweredLive S.gives K.seen (AreFilesOf (R.may_read rt.now)) desk.now traffic.now operator.old.most_moments (said place.entry.line.now files)
        (footing operator.old.session seat.old (W.contents out.old)) operator.old.summary (footing operator.new.session seat.new (W.contents out.new)) operator.new.summary) }
    ensures only { IfErr result (EndsLive (W.has_refused out.new)) }
{
    let alloc = rt.alloc();
    let files = read_named(rt, place.line)?;
    let files = files.as_slice();
    let before = operator.summary;
    let tally = answer_line(
        rt, alloc, desk, seat, traffic, operator, files, place.line, out,
    )?;
    let crowded = operator.crowded.take();
    told(rt, desk, looker, files, place, before, tally, crowded, out)
}

// Tells which change a line took out, and which access a step of a run went through, if the line was accepted. `before` lines had
// been accepted before it.
fn told_after<R: Eprint + AllocGlobal, S>(
    rt: &R,
    turning: Turning,
    operator: &Operator<S>,
    before: u64,
    line: &[u8],
) {
    if operator.summary.accepted > before {
        turning.tell_out(rt, "bpfcon");
        tell_step(rt, &operator.session.runs, line);
    }
}

// Does what a line asks that only looks at the journal, by the seat that looks.
fn look_now<K: MapKind, R: Eprint + AllocGlobal + Wait, W: Output>(
    rt: &R,
    desk: &Desk<K>,
    looker: &mut Seat<K>,
    look: &Look<'_>,
    out: &mut W,
) -> Result<(), Fault>
    requires { IsSeatAt desk.now looker.old }
    ensures looker { IsSeatAt desk.now looker.new }
    ensures told { OnOk result (TellsLookAt desk.now look.now looker.old looker.new (W.contents out.old) (W.contents out.new)) }
    ensures only { IfErr result (EndsLive (W.has_refused out.new)) }
{
    match look_at(rt, desk, looker, look, out) {
        Ok(()) => Ok(()),
        Err(LookFault::Write) => Err(Fault::CannotWrite),
        Err(LookFault::Spent) => Err(Fault::Spent),
    }
}

// Gives help on standard error if a line asks for it, looks at the journal if it asks for that, and else answers the line, and tells
// what there is to tell beside its answer.
fn hear<K: MapKind, S: Supply<K>, R: FileReader + Eprint + AllocGlobal + Wait + Clock, W: Output>(
    rt: &R,
    desk: &Desk<K>,
    seat: &mut Seat<K>,
    looker: &mut Seat<K>,
    traffic: &Traffic,
    operator: &mut Operator<S>,
    place: Place<'_>,
    out: &mut W,
) -> Result<(), Fault>
    requires { IsSeatAt desk.now seat.old × IsSeatAt desk.now looker.old }
    ensures seat { IsSeatAt desk.now seat.new }
    ensures looker { IsSeatAt desk.now looker.new }
    ensures most { operator.new.most_moments ≡ operator.old.most_moments }
    ensures goes { IfOk result (λ _. (files : List FileText) × GoesLive S.gives K.seen (AreFilesOf (R.may_read rt.now)) desk.now traffic.now operator.old.most_moments (said place.entry.line.now files)
        (footing operator.old.session seat.old (W.contents out.old)) operator.old.summary (footing operator.new.session seat.new (W.contents out.new)) operator.new.summary) }
    ensures only { IfErr result (EndsLive (W.has_refused out.new)) }
{
    if Manner::Dialogue.is_asked_by(place.line) {
        show_help(rt, place.line, true);
        return Ok(());
    }
    match Manner::Dialogue.look_in(place.line) {
        Some(look) => look_now(rt, desk, looker, &look, out),
        None => {
            tell_held_at(rt, desk, looker, place.line);
            let turning = Turning::before_at(rt, desk, looker, place.line);
            let before = operator.summary.accepted;
            let ran = answer_now(rt, desk, seat, looker, traffic, operator, place, out);
            told_after(rt, turning, operator, before, place.line);
            ran
        }
    }
}

// Answers the lines of an input one by one, up to its end, a `quit` or an `exit`. By the second seat the host is looked at for hints.
fn answer_lines<
    K: MapKind,
    S: Supply<K>,
    R: FileReader + Eprint + AllocGlobal + Wait + Clock,
    I: BufRead,
    W: Output,
>(
    rt: &R,
    desk: &Desk<K>,
    seat: &mut Seat<K>,
    looker: &mut Seat<K>,
    traffic: &Traffic,
    operator: &mut Operator<S>,
    input: &mut I,
    out: &mut W,
) -> Result<(), Fault>
    requires { IsSeatAt desk.now seat.old × IsSeatAt desk.now looker.old }
    ensures seat { IsSeatAt desk.now seat.new }
    ensures most { OnOk result (operator.new.most_moments ≡ operator.old.most_moments) }
    ensures talked { IfOk result (λ _. TalkedLive S.gives K.seen (AreFilesOf (R.may_read rt.now)) desk.now traffic.now operator.old.most_moments (I.remaining input.old)
        (footing operator.old.session seat.old (W.contents out.old)) operator.old.summary (footing operator.new.session seat.new (W.contents out.new)) operator.new.summary) }
    ensures only { IfErr result (EndsLive (W.has_refused out.new)) }
{
    let mut given = Vec::new(rt.alloc());
    let mut left = MOST_SCRIPT;
    let mut number = 0u64;
    'lines: loop {
        Manner::Dialogue.ask(rt);
        left = match read_line(input, &mut given, left) {
            Ok(left) => left,
            Err(fault) => return Err(Fault::of_read(rt.alloc(), INPUT, fault)),
        };
        let text = given.as_slice();
        if text.is_empty() {
            break;
        }
        let (line, _) = first_line(text);
        if Manner::Dialogue.is_ended_by(line) {
            break;
        }
        number = number.saturating_add(1);
        let place = Place {
            file: b"stdin",
            number,
            line,
            beside: "help, quit, workers",
        };
        hear(rt, desk, seat, looker, traffic, operator, place, out)?;
    }
    Ok(())
}

// Answers the lines of an input one by one, ends the traffic, and tells of it for the last time: how many lines were accepted and
// refused.
fn talk_to_end<
    K: MapKind,
    S: Supply<K>,
    R: FileReader + Eprint + AllocGlobal + Wait + Clock,
    I: BufRead,
    W: Output,
>(
    rt: &R,
    desk: &Desk<K>,
    seat: &mut Seat<K>,
    traffic: &Traffic,
    operator: &mut Operator<S>,
    input: &mut I,
    out: &mut W,
) -> Result<Summary, Fault>
    requires { IsSeatAt desk.now seat.old }
    ensures seat { IsSeatAt desk.now seat.new }
    ensures talked { IfOk result (λ summary. TalkedToEnd S.gives K.seen (AreFilesOf (R.may_read rt.now)) desk.now traffic.now operator.old.most_moments (I.remaining input.old)
        (footing operator.old.session seat.old (W.contents out.old)) operator.old.summary seat.new (W.contents out.new) summary) }
    ensures only { IfErr result (EndsLive (W.has_refused out.new)) }
{
    let mut looker = desk.split(seat);
    answer_lines(rt, desk, seat, &mut looker, traffic, operator, input, out)?;
    end_traffic(rt, desk, seat, traffic, operator, out)?;
    Ok(operator.summary)
}

impl<
    R: FileReader + Eprint + AllocGlobal + Wait + Clock,
    I: BufRead + Drop,
    W: Output + Drop,
> Console<HostKind, R> for Talk<I, W> {
    type Told = Left<W>;

    ghost talks = { λ g talk rt desk traffic old left new. IfOk left.ran (λ summary. TalkedToEnd ⟦<HostSupply as Supply<HostKind>>⟧.gives ⟦<HostKind as MapKind>⟧.seen (AreFilesOf (R.may_read rt)) desk traffic
        talk.operator.value.most_moments (I.remaining talk.input) (footing talk.operator.value.session old (W.contents talk.out)) talk.operator.value.summary new (W.contents left.out) summary) × IfErr left.ran (EndsLive (W.has_refused left.out)) };

    fn talk(
        self,
        rt: &R,
        desk: &Desk<HostKind>,
        seat: &mut Seat<HostKind>,
        traffic: &Traffic,
    ) -> Left<W> {
        let Talk {
            input,
            out,
            operator,
        } = self;
        let (mut input, mut out, mut operator) = (input, out, Box::into_inner(operator));
        let ran = talk_to_end(rt, desk, seat, traffic, &mut operator, &mut input, &mut out);
        Left { out, ran }
    }
}
