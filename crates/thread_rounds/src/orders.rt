//! What workers are told to do.

use std::sync::{Condvar, Mutex, Wait};
use std::time::{Clock, Duration};

/// What the workers are to do.
#[derive(Clone, Copy, Debug, PartialEq, Eq)]
pub enum Order {
    /// Serve frames.
    Go,
    /// Wait, once each has ended the frame that it has.
    Rest,
    /// End, once each has ended the frame that it has.
    Stop,
}

/// How the workers stand.
#[derive(Clone, Copy, Debug, PartialEq, Eq)]
pub struct Standing {
    /// The signal that holds.
    pub order: Order,
    /// How many workers have come so far.
    pub come: u64,
    /// How many workers have not left.
    pub present: u64,
    /// How many of these sleep until they are told to go on. One that has just been told so may not be awake yet.
    pub resting: u64,
}

impl Standing {
    // Whether no worker is within a frame, and none is about to begin one.
    fn is_idle(self) -> bool {
        match self.order {
            Order::Rest => self.present == self.resting,
            Order::Go | Order::Stop => self.present == 0,
        }
    }
}

/// The signal that holds for all workers: go, rest or stop. Threads share it by reference.
#[derive(Drop)]
pub struct Orders {
    standing: Mutex<Standing>,
    changed: Condvar,
}

impl Orders {
    /// The first signal to so many workers, none of which has left.
    pub fn new(order: Order, workers: u64) -> Orders {
        let standing = Standing {
            order,
            come: 0,
            present: workers,
            resting: 0,
        };
        Orders {
            standing: Mutex::new(standing),
            changed: Condvar::new(),
        }
    }

    /// Gives another signal, and wakes the workers that rest.
    pub fn give<R: Wait>(&self, rt: &R, order: Order) {
        self.standing.lock(rt).order = order;
        self.changed.notify_all();
    }

    /// How the workers stand.
    pub fn standing<R: Wait>(&self, rt: &R) -> Standing {
        *self.standing.lock(rt)
    }

    /// For a worker before its first frame.
    pub fn come<R: Wait>(&self, rt: &R) {
        let mut standing = self.standing.lock(rt);
        standing.come = standing.come.saturating_add(1);
        self.changed.notify_all();
    }

    /// Waits until so many workers have come, at most so long; returns whether they have.
    pub fn await_all<R: Wait + Clock>(&self, rt: &R, workers: u64, most: Duration) -> bool {
        let (standing, _) = self.changed.wait_timeout_while(
            rt,
            self.standing.lock(rt),
            most,
            |standing| standing.come < workers,
        );
        standing.come >= workers
    }

    /// For a worker between two frames: waits while it is to rest, and returns true if it is to go on, false if it is to stop.
    pub fn await_going<R: Wait>(&self, rt: &R) -> bool {
        let mut standing = self.standing.lock(rt);
        if standing.order == Order::Rest {
            standing.resting = standing.resting.saturating_add(1);
            self.changed.notify_all();
            standing = self
                .changed
                .wait_while(rt, standing, |standing| standing.order == Order::Rest);
            standing.resting = standing.resting.saturating_sub(1);
        }
        standing.order == Order::Go
    }

    /// For a worker whose next frame is not due yet: waits until it is to rest or to stop, and at most so long. Whether it is.
    /// If the clock cannot be read, it waits no longer.
    pub(crate) fn await_change<R: Wait + Clock>(&self, rt: &R, most: Duration) -> bool {
        let (_standing, waited) = self.changed.wait_timeout_while(
            rt,
            self.standing.lock(rt),
            most,
            |standing| standing.order == Order::Go,
        );
        !waited.timed_out()
    }

    /// For a worker that serves no further frame.
    pub fn leave<R: Wait>(&self, rt: &R) {
        let mut standing = self.standing.lock(rt);
        standing.present = standing.present.saturating_sub(1);
        self.changed.notify_all();
    }

    /// Waits until no worker is within a frame or about to begin one: if they are to rest, until each rests or has left, and
    /// else until all have left.
    pub fn await_idle<R: Wait>(&self, rt: &R) {
        let _idle = self
            .changed
            .wait_while(rt, self.standing.lock(rt), |standing| !standing.is_idle());
    }
}
