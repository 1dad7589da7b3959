//! A try that is confirmed about when its time is up, by a clock of the test's own.

ghost use denote.Param.Send.{IsSync};
ghost use Rattle.bt_desk.specs.Seats.{IsSeatAt};

use crate::books::{ARRAY, found, look, made_by, word, write};
use crate::watch::reaches;
use bt_desk::{Answer, Desk, Event, Seat};
use bt_journal::Book;
use console_script::HostKind;
use host_words::Word;
use std::alloc::Global;
use std::fmt::Display;
use std::process::Abort;
use std::sync::Wait;
use std::sync::atomic::{AtomicU64, Ordering};
use std::thread::{Threads, join};
use std::time::{Clock, Duration};
use std::{hint, io};
use thread_trial::{Trials, give_back, keep};

// The time of a test in milliseconds, how often it was asked for, and how many ends of tries were told.
#[derive(Drop)]
struct Hours {
    now: AtomicU64,
    asked: AtomicU64,
    told: AtomicU64,
}

// A runtime with that time.
#[derive(Drop)]
struct Timed<'a, R> {
    rt: &'a R,
    hours: &'a Hours,
}

impl<'a, R: Wait> Wait for Timed<'a, R> {}

impl<'a, R> Clock for Timed<'a, R> {
    fn monotonic(&self) -> io::Result<Duration> {
        let now = Duration::from_millis(self.hours.now.load(Ordering::SeqCst));
        let _before = self.hours.asked.fetch_add(1, Ordering::SeqCst);
        Ok(now)
    }

    fn since_1970(&self) -> io::Result<Duration> {
        self.monotonic()
    }
}

impl<'a, R> Eprint for Timed<'a, R> {
    fn eprint<D: Display + Drop>(&self, _value: D) -> io::Result<()> {
        let _before = self.hours.told.fetch_add(1, Ordering::SeqCst);
        Ok(())
    }

    fn eprintln<D: Display + Drop>(&self, value: D) -> io::Result<()> {
        self.eprint(value)
    }
}

// When a try of a second is confirmed.
#[derive(Clone, Copy)]
enum When {
    // A millisecond before its time is up.
    Before,
    // So many turns of a loop after that.
    Then(u32),
    // Once it was undone.
    After,
}

// Has the time of a try come, or not yet, and confirms it. Whether it was pending.
fn confirm<R: Wait + Clock + Abort>(
    rt: &R,
    hours: &Hours,
    trials: &Trials,
    name: &Word,
    when: When,
) -> bool {
    assert!(rt; reaches(rt, &hours.asked, 2));
    if !matches!(when, When::Before) {
        hours.now.store(1_000, Ordering::SeqCst);
        trials.heed(rt, b"journal list");
    }
    match when {
        When::Before => {}
        When::Then(turns) => {
            for _ in 0..turns {
                hint::spin_loop();
            }
        }
        When::After => assert!(rt; reaches(rt, &hours.told, 1)),
    }
    trials.confirm(rt, name)
}

// Confirms a try, and then has its keeper look once more and come back: nothing is left to undo.
fn confirm_and_close<R: Wait + Clock + Abort>(
    rt: &R,
    hours: &Hours,
    desk: &Desk<HostKind>,
    mut seat: Seat<HostKind>,
    trials: &Trials,
    name: &Word,
    when: When,
) -> (Seat<HostKind>, bool)
    requires { IsSeatAt desk.now seat }
    ensures { IsSeatAt desk.now result.0 }
{
    let confirmed = confirm(rt, hours, trials, name, when);
    hours.now.store(2_000, Ordering::SeqCst);
    trials.heed(rt, b"journal list");
    assert!(rt; give_back(rt, desk, &mut seat, trials).is_none());
    (seat, confirmed)
}

// Does the keeper's part.
fn keep_to_the_end<R: Wait>(
    rt: &R,
    hours: &Hours,
    desk: &Desk<HostKind>,
    mut seat: Seat<HostKind>,
    trials: &Trials,
) -> Seat<HostKind>
    requires { IsSeatAt desk.now seat }
    ensures { IsSeatAt desk.now result }
{
    let timed = Timed { rt, hours };
    keep(&timed, desk, &mut seat, trials);
    seat
}

// Tries a write of 9 for a second, of which all but a millisecond has passed.
fn begin<R: Wait + Abort>(
    rt: &R,
    alloc: Global,
    hours: &Hours,
    desk: &Desk<HostKind>,
    seat: &mut Seat<HostKind>,
    trials: &Trials,
    name: &Word,
)
    requires { IsSeatAt desk.now seat.old }
    ensures { IsSeatAt desk.now seat.new }
{
    let timed = Timed { rt, hours };
    let told = trials.begin(&timed, desk, seat, name, 1);
    assert!(rt; matches!(told, Ok(Ok(()))));
    let told = desk.call(rt, seat, Event::Record(write(rt, alloc, 9), None));
    assert!(rt; matches!(told, Ok(Answer::Recorded(Ok(_)))));
    hours.now.store(999, Ordering::SeqCst);
}

// A try of a write, beside its keeper: the closed book, and whether it was pending when it was confirmed.
fn try_beside_keeper<R: Threads + Wait + Clock + Abort + Sync>(
    rt: &R,
    alloc: Global,
    hours: &Hours,
    name: &Word,
    when: When,
) -> (Book<HostKind>, bool) {
    let Ok((desk, mut one)) = Desk::open(alloc, made_by(rt, alloc, ARRAY), 100_000) else {
        panic!(rt; "a desk")
    };
    let two = desk.split(&mut one);
    let trials = Trials::new(65_536);
    begin(rt, alloc, hours, &desk, &mut one, &trials, name);
    let (shared, standing) = (&desk, &trials);
    let ((mut one, confirmed), two) = join(
        rt,
        || -> (Seat<HostKind>, bool)
            requires { IsSync R.row × IsSeatAt shared.now one }
            ensures { IsSeatAt shared.entry.now result.0 }
        { confirm_and_close(rt, hours, shared, one, standing, name, when) },
        || -> Seat<HostKind>
            requires { IsSync R.row × IsSeatAt shared.now two }
            ensures { IsSeatAt shared.entry.now result }
        { keep_to_the_end(rt, hours, shared, two, standing) },
    );
    desk.join(&mut one, two);
    (desk.close(rt, one), confirmed)
}

// A confirmed try keeps the write, and nothing was undone. Any other was undone, and that was told once. The mark stays.
fn is_confirmed<R: Threads + Wait + Clock + Abort + Sync>(
    rt: &R,
    alloc: Global,
    when: When,
) -> bool {
    let hours = Hours {
        now: AtomicU64::new(0),
        asked: AtomicU64::new(0),
        told: AtomicU64::new(0),
    };
    let name = word(rt, alloc, b"t");
    let (mut book, confirmed) = try_beside_keeper(rt, alloc, &hours, &name, when);
    let (value, moments, told) = if confirmed {
        (9u8, 1u64, 0u64)
    } else {
        (0, 0, 1)
    };
    let answer = Answer::Asked(book.ask(&look(rt, alloc)));
    assert_eq!(rt; found(&answer), Some(value));
    assert_eq!(rt; book.moments_since(&name), Some(moments));
    assert_eq!(rt; hours.told.load(Ordering::SeqCst), told);
    confirmed
}

#[test]
fn a_try_is_confirmed_or_undone_as_its_time_is_up(rt: HostRuntime) {
    let alloc = rt.alloc();
    for turn in 0..1_000u32 {
        let _either = is_confirmed(&rt, alloc, When::Then(turn % 128 * 64));
    }
    assert!(rt; is_confirmed(&rt, alloc, When::Before));
    assert!(rt; !is_confirmed(&rt, alloc, When::After));
}
