//! Gates that write down what they see, and hold a frame until another thread has done its part.

use bt_workers::Gate;
use std::sync::Wait;
use std::sync::atomic::{AtomicU64, Ordering};
use std::thread;
use std::time::{Clock, Duration};

/// What stands for no number that a gate was told.
pub(crate) const UNTOLD: u64 = 1_000;

/// What the gates of all workers saw, and what they wait for.
#[derive(Drop)]
pub(crate) struct Watch {
    /// The calls of the first two frames in order, a digit each, and 9 for the end.
    pub(crate) calls: [AtomicU64; 2],
    /// How many frames have ended.
    pub(crate) ended: AtomicU64,
    /// The frame that waits, or waited; 0 for none.
    pub(crate) held: AtomicU64,
    /// 1 if the other thread has done its part.
    pub(crate) done: AtomicU64,
    /// The number that a gate was told which called the desk; [`UNTOLD`] before.
    pub(crate) told: AtomicU64,
}

impl Watch {
    pub(crate) fn new() -> Watch {
        Watch {
            calls: [AtomicU64::new(0), AtomicU64::new(0)],
            ended: AtomicU64::new(0),
            held: AtomicU64::new(0),
            done: AtomicU64::new(0),
            told: AtomicU64::new(UNTOLD),
        }
    }

    /// Writes a digit after those of the frame.
    pub(crate) fn note(&self, frame: u64, digit: u64) {
        let calls = if frame == 1 {
            &self.calls[0]
        } else {
            &self.calls[1]
        };
        let before = calls.load(Ordering::SeqCst) % 1_000_000;
        calls.store(before * 10 + digit % 10, Ordering::SeqCst);
    }

    /// Writes down that the frame has ended.
    pub(crate) fn note_end(&self, frame: u64) {
        self.note(frame, 9);
        let _before = self.ended.fetch_add(1, Ordering::SeqCst);
    }

    /// Whether this frame is the first that is to be held.
    pub(crate) fn holds(&self, frame: u64) -> bool {
        self.held
            .compare_exchange(0, frame, Ordering::SeqCst, Ordering::SeqCst)
            .is_ok()
    }
}

/// Whether the number comes to be at least this, within ten seconds.
pub(crate) fn reaches<R: Clock>(rt: &R, number: &AtomicU64, least: u64) -> bool {
    for _ in 0..10_000u32 {
        if number.load(Ordering::SeqCst) >= least {
            return true;
        }
        thread::sleep(rt, Duration::from_millis(1));
    }
    false
}

/// A gate that holds the first frame that comes to its call of this number.
#[derive(Drop)]
pub(crate) struct Holding<'a> {
    pub(crate) watch: &'a Watch,
    pub(crate) call: u64,
}

impl<'a, R: Wait + Clock> Gate<R> for Holding<'a> {
    fn pass(&mut self, rt: &R, frame: u64, nth: u64) {
        self.watch.note(frame, nth);
        if nth == self.call && self.watch.holds(frame) {
            let _is_done = reaches(rt, &self.watch.done, 1);
        }
    }

    fn answered(&mut self, frame: u64) {
        self.watch.note_end(frame);
    }
}
