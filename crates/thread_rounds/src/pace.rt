//! How many frames a second the workers serve.

ghost use Rattle.std.specs.Prelude.{◌≡◌, ◌+◌, ◌-◌, ◌/◌, ◌↔◌, min, max, IsNone, IfSome};
ghost use Rattle.std.specs.Duration.{as_nanos, max_nanos};

use crate::orders::Orders;
use std::sync::{Mutex, Wait};
use std::time::{Clock, Duration};

const NANOS_PER_SECOND: u64 = 1_000_000_000;

/// The most frames a second that all workers serve together. Threads share it by reference.
#[derive(Drop)]
pub struct Pace {
    // From one frame to the next. Without it there is no limit.
    interval: Option<Duration>,
    // When the next frame is due, by the clock.
    due: Mutex<Duration>,
}

// The time from one frame to the next at so many frames a second. None if there is no limit.
fn interval_of(rate: u64) -> Option<Duration>
    ensures unlimited { IsNone result ↔ (rate ≡ 0) }
    ensures interval { IfSome result (λ interval. as_nanos interval ≡ max (1_000_000_000 / rate) 1) }
{
    let nanos = NANOS_PER_SECOND.checked_div(rate)?;
    Some(Duration::from_nanos(nanos.max(1)))
}

// How long a frame that comes now has to wait, if the next one is due at this time, and when the one after it is due: an
// interval later. A frame that was due in the past is served now, and those after it do not make up for that.
fn timed(due: Duration, now: Duration, interval: Duration) -> (Duration, Duration)
    ensures wait { as_nanos result.0 ≡ as_nanos due - as_nanos now }
    ensures next { as_nanos result.1 ≡ min (max (as_nanos due) (as_nanos now) + as_nanos interval) max_nanos }
{
    let wait = due.saturating_sub(now);
    let at = now.saturating_add(wait);
    (wait, at.saturating_add(interval))
}

impl Pace {
    /// At most so many frames a second; 0 is no limit.
    pub fn new(rate: u64) -> Pace {
        Pace {
            interval: interval_of(rate),
            due: Mutex::new(Duration::ZERO),
        }
    }

    // Takes the next time at which a frame is due: how long it is until then.
    fn take<R: Wait>(&self, rt: &R, now: Duration, interval: Duration) -> Duration {
        let mut due = self.due.lock(rt);
        let (wait, next) = timed(*due, now, interval);
        *due = next;
        wait
    }

    // How long it is until the time that a worker took. If that has passed, it takes the next one.
    fn wait_for<R: Wait + Clock>(&self, rt: &R, taken: &mut Duration) -> Duration {
        let Some(interval) = self.interval else {
            return Duration::ZERO;
        };
        let Ok(now) = rt.monotonic() else {
            return Duration::ZERO;
        };
        let left = taken.saturating_sub(now);
        if !left.is_zero() {
            return left;
        }
        let wait = self.take(rt, now, interval);
        *taken = now.saturating_add(wait);
        wait
    }

    /// For a worker between two frames: waits while it is to rest, and until its next frame is due. Then it is whether it is to
    /// go on, and not to stop. Other signals end the wait at once. A time that passes while the worker rests is not made up
    /// for. If the clock cannot be read, the frame is due at once.
    pub(crate) fn await_frame<R: Wait + Clock>(&self, rt: &R, orders: &Orders) -> bool {
        let mut taken = Duration::ZERO;
        for _ in rt.forever() {
            if !orders.await_going(rt) {
                return false;
            }
            let wait = self.wait_for(rt, &mut taken);
            if wait.is_zero() || !orders.await_change(rt, wait) {
                return true;
            }
        }
        unreachable!()
    }
}
