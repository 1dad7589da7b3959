//! The change that is tried, as a console and the keeper share it.

ghost use Rattle.std.specs.Prelude.{◌≡◌, ◌/◌, ◌↔◌, None, Ok, Err, IfOk, IfSome, IfNone, IsSome, OnOk, OnErr, IsTrue};
ghost use Rattle.std.specs.Bool.{OnTrue, OnFalse};
ghost use Rattle.thread_trial.specs.declared.trials.TryFault.TheVariants.{Pending};
ghost use Rattle.thread_lock.specs.Seats.{calls_left};
ghost use Rattle.bt_desk.specs.Seats.{IsSeatAt};
ghost use Rattle.thread_trial.specs.Tries.{IsTryOf, WasPending, marked_by, Begins};
ghost use Rattle.thread_trial.specs.Kept.{KeepsOn};

use crate::ended::{Ended, TrialEnd};
use crate::keeper::undo;
use crate::look::since_at;
use crate::trial::Trial;
use bt_desk::{Answer, Desk, Event, Seat, SeatSpent};
use bt_mapkind::MapKind;
use console_operand::{behind_word, first_word};
use host_words::{NoMemory, Word};
use journal_model::MarkFault;
use std::sync::{Condvar, Mutex, Wait};
use std::time::{Clock, Duration};

/// Why a change is not tried.
#[derive(Clone, Copy, PartialEq, Eq, Debug)]
pub enum TryFault {
    /// Another change is tried.
    Pending,
    /// The clock cannot be read.
    NoClock,
    /// There is no memory for the name.
    NoMemory,
    /// Its mark could not be set.
    Mark(MarkFault),
}

// The change that is tried, if one is, and whether the host comes to its end.
#[derive(Drop)]
struct Standing {
    pending: Option<Trial>,
    is_over: bool,
}

/// The change that is tried, if one is. Threads share it by reference.
#[derive(Drop)]
pub struct Trials {
    standing: Mutex<Standing>,
    changed: Condvar,
    most_moments: u64,
}

// What is to stand of a try: a name for its mark, and the try.
fn copies(name: &Word, until: Duration) -> Result<(Word, Trial), NoMemory>
    ensures { IfOk result (λ it. (it.0 ≡ name.now) × IsTryOf name.now it.1) }
{
    let mark = name.copy()?;
    let (name, spare) = (name.copy()?, name.copy()?);
    Ok((mark, Trial { name, spare, until }))
}

// What a call for a mark answered. No call for one answers otherwise.
fn marked_by(answer: &Answer) -> Result<(), TryFault>
    ensures { result ≡ marked_by answer.now }
{
    match answer {
        Answer::Marked(Ok(())) => Ok(()),
        Answer::Marked(Err(fault)) => Err(TryFault::Mark(*fault)),
        _ => Err(TryFault::Mark(MarkFault::NoMemory)),
    }
}

// The name in the words after `journal`, if they undo to a mark or make one.
fn named(words: &[u8]) -> Option<&[u8]> {
    let behind = match behind_word(words, b"undo") {
        Some(behind) => behind,
        None => behind_word(words, b"mark")?,
    };
    match first_word(behind) {
        Some((name, _)) => Some(name),
        None => None,
    }
}

impl Standing {
    // Sets the mark of a try, and notes it. Refused, it notes nothing.
    fn begin<K: MapKind, R: Wait + Clock>(
        &mut self,
        rt: &R,
        desk: &Desk<K>,
        seat: &mut Seat<K>,
        name: &Word,
        seconds: u32,
    ) -> Result<Result<(), TryFault>, SeatSpent>
        requires { IsSeatAt desk.now seat.old }
        ensures seat { IsSeatAt desk.now seat.new }
        ensures spent { OnErr result (calls_left seat.old ≡ 0) }
        ensures unchanged { OnErr result (seat.new ≡ seat.old) }
        ensures begins { IfOk result (λ told. Begins name.now told seat.old seat.new) }
        ensures noted { IfOk result (λ told. OnOk told (IfSome self.new.pending (IsTryOf name.now))) }
        ensures pending { (result ≡ Ok (Err Pending)) ↔ IsSome self.old.pending }
    {
        if self.pending.is_some() {
            return Ok(Err(TryFault::Pending));
        }
        let Ok(now) = rt.monotonic() else {
            return Ok(Err(TryFault::NoClock));
        };
        let until = now.saturating_add(Duration::from_secs(u64::from(seconds)));
        let Ok((mark, trial)) = copies(name, until) else {
            return Ok(Err(TryFault::NoMemory));
        };
        match desk.call(rt, seat, Event::Mark(mark)) {
            Ok(answer) => {
                let told = marked_by(&answer);
                if told.is_ok() {
                    self.pending = Some(trial);
                }
                Ok(told)
            }
            Err(spent) => Err(spent),
        }
    }

    // Takes the try of this name away, if it is pending. Whether it was.
    fn confirm(&mut self, name: &Word) -> bool
        ensures pending { IsTrue result ↔ WasPending name.now self.old.pending }
        ensures confirmed { OnTrue result (self.new.pending ≡ None) }
        ensures refused { OnFalse result (self.new.pending ≡ self.old.pending) }
        ensures over { self.new.is_over ≡ self.old.is_over }
    {
        match &self.pending {
            Some(trial) if trial.name == *name => {}
            _ => return false,
        }
        self.pending = None;
        true
    }

    // Takes the pending try away if the words after `journal` are an undo to its mark, or a mark of its name.
    fn heed(&mut self, words: &[u8])
        ensures { self.new.is_over ≡ self.old.is_over }
    {
        let is_over = match (&self.pending, named(words)) {
            (Some(trial), Some(name)) => trial.name.as_slice() == name,
            _ => false,
        };
        if is_over {
            self.pending = None;
        }
    }

    // Looks at the pending try, and ends it if its time is up, if its mark is gone, or if half of the moments that the
    // journal keeps came after it.
    fn look<K: MapKind, R: Wait + Clock>(
        &mut self,
        rt: &R,
        desk: &Desk<K>,
        seat: &mut Seat<K>,
        most_moments: u64,
    ) -> Option<Ended>
        requires { IsSeatAt desk.now seat.old }
        ensures seat { IsSeatAt desk.now seat.new }
        ensures kept { KeepsOn desk.now seat.old seat.new }
        ensures goes_on { IfNone result (self.new ≡ self.old) }
        ensures named { IfSome result (λ ended. WasPending ended.name self.old.pending) }
        ensures ended { IfSome result (λ _. self.new.pending ≡ None) }
        ensures over { self.new.is_over ≡ self.old.is_over }
    {
        let Some(trial) = self.pending.take() else {
            return None;
        };
        let is_due = trial.is_due(rt);
        match since_at(rt, desk, seat, &trial.name) {
            Ok(Some(since)) => {
                if !is_due && since <= most_moments / 2 {
                    self.pending = Some(trial);
                    return None;
                }
                Some(undo(rt, desk, seat, trial, is_due))
            }
            Ok(None) => Some(trial.ended(TrialEnd::Gone)),
            Err(_) => Some(trial.ended(TrialEnd::Spent)),
        }
    }
}

impl Trials {
    /// No change is tried, over a journal that keeps so many moments.
    pub fn new(most_moments: u64) -> Trials
        ensures { result.most_moments ≡ most_moments }
    {
        Trials {
            standing: Mutex::new(Standing {
                pending: None,
                is_over: false,
            }),
            changed: Condvar::new(),
            most_moments,
        }
    }

    /// How many moments may come after the mark of a try before it is undone, so that the mark stays.
    pub fn room(&self) -> u64
        ensures { result ≡ self.now.most_moments / 2 }
    {
        self.most_moments / 2
    }

    /// Begins to try a change: sets a mark of this name, to which the keeper undoes after so many seconds unless the try is
    /// confirmed before. The inner fault says why there is no try.
    ///
    /// # Errors
    /// `SeatSpent` if the seat has no calls left. Nothing has changed then.
    pub fn begin<K: MapKind, R: Wait + Clock>(
        &self,
        rt: &R,
        desk: &Desk<K>,
        seat: &mut Seat<K>,
        name: &Word,
        seconds: u32,
    ) -> Result<Result<(), TryFault>, SeatSpent>
        requires { IsSeatAt desk.now seat.old }
        ensures seat { IsSeatAt desk.now seat.new }
        ensures spent { OnErr result (calls_left seat.old ≡ 0) }
        ensures unchanged { OnErr result (seat.new ≡ seat.old) }
        ensures begins { IfOk result (λ told. Begins name.now told seat.old seat.new) }
    {
        let mut standing = self.standing.lock(rt);
        let told = standing.begin(rt, desk, seat, name, seconds);
        self.changed.notify_all();
        told
    }

    /// Keeps what came after the mark of the pending try, if it has this name: nothing is undone by itself any more, and the
    /// mark stays. Returns whether it was pending.
    pub fn confirm<R: Wait>(&self, rt: &R, name: &Word) -> bool {
        self.standing.lock(rt).confirm(name)
    }

    /// For a line that was accepted: one that undoes to the mark of the pending try, or makes a mark of its name, ends the try;
    /// and after any other line of the journal the keeper looks at once whether its mark still stands.
    pub fn heed<R: Wait>(&self, rt: &R, line: &[u8]) {
        let Some(words) = behind_word(line, b"journal") else {
            return;
        };
        self.standing.lock(rt).heed(words);
        self.changed.notify_all();
    }

    // Waits until there is something to look at: while a change is tried until its time is up, a quarter of a second at most, or
    // until a line of the journal was done. Whether the host goes on.
    pub(crate) fn await_look<R: Wait + Clock>(&self, rt: &R) -> bool {
        let standing = self
            .changed
            .wait_while(rt, self.standing.lock(rt), |standing| {
                standing.pending.is_none() && !standing.is_over
            });
        let sleep = match &standing.pending {
            Some(trial) => trial.sleep(rt),
            None => return false,
        };
        let (standing, _) = self.changed.wait_timeout(rt, standing, sleep);
        !standing.is_over
    }

    // Looks at the pending try, if there is one. What is to be told if it ended.
    pub(crate) fn look<K: MapKind, R: Wait + Clock>(
        &self,
        rt: &R,
        desk: &Desk<K>,
        seat: &mut Seat<K>,
    ) -> Option<Ended>
        requires { IsSeatAt desk.now seat.old }
        ensures seat { IsSeatAt desk.now seat.new }
        ensures kept { KeepsOn desk.now seat.old seat.new }
    {
        let mut standing = self.standing.lock(rt);
        standing.look(rt, desk, seat, self.most_moments)
    }

    /// Has the keeper come back, and keeps what is tried: for a host whose console could try nothing.
    pub fn end<R: Wait>(&self, rt: &R) {
        let _ = self.close(rt);
    }

    // Has the keeper end, and takes the pending try away.
    pub(crate) fn close<R: Wait>(&self, rt: &R) -> Option<Trial> {
        let mut standing = self.standing.lock(rt);
        standing.is_over = true;
        self.changed.notify_all();
        standing.pending.take()
    }
}
