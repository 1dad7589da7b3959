//! The rule of the queue: what each take knows, and how its calls change that.

ghost use Rattle.std.specs.Prelude.{◌≡◌};

use crate::frame::{FrameIn, Numbered};
use crossbeam_queue::protocol::{Join, Lesson, Outcome, Protocol, Split};
use crossbeam_queue::{Pass, RuledArrayQueue};
use std::collections::LinkedList;

/// The parts of all takes of the same frames together.
pub const MOST_PARTS: u64 = 1 << 32;

/// What a take knows: its parts of all parts, all frames, and the numbers of those that it took, in order. No value of it is
/// made.
pub struct Hand {
    pub parts: u64,
    pub all: LinkedList<FrameIn>,
    pub taken: LinkedList<u64>,
}

/// Each frame is taken once: the rule of the queue.
pub struct OnceEach;

impl Protocol<Numbered, Hand> for OnceEach {
    ghost use Rattle.std.specs.Prelude.{[]};
    ghost use Rattle.thread_frames.specs.declared.deal.TheConstants.{MOST_PARTS};
    ghost use Rattle.thread_frames.specs.Deal.{hand, IsDealt};

    ghost holds = { IsDealt };

    ghost first = { hand MOST_PARTS [] [] };
}

/// The next frame is put into the queue, by the only take.
pub struct Puts;

impl Outcome<Numbered, Hand> for Puts {
    ghost use Rattle.std.specs.Prelude.{◌≡◌};
    ghost use Rattle.thread_frames.specs.Deal.{after_put};

    ghost then = { λ v it w. w ≡ after_put v it };
}

impl Lesson<Numbered, Hand> for Puts {
    ghost use Rattle.std.specs.Prelude.{◌≤◌, length};

    ghost fact = { λ v items. length items ≤ length v.all };
}

/// A frame is taken.
pub struct Takes;

impl Outcome<Numbered, Hand> for Takes {
    ghost use Rattle.thread_frames.specs.Deal.{Took};

    ghost then = { Took };
}

impl Lesson<Numbered, Hand> for Takes {
    ghost use Rattle.thread_frames.specs.Deal.{IsRest};

    ghost fact = { IsRest };
}

/// A take gives half of its parts to a new one.
pub struct Halves;

impl Split<Hand> for Halves {
    ghost use Rattle.std.specs.Prelude.{[], ◌-◌, ◌/◌};
    ghost use Rattle.thread_frames.specs.Deal.{hand};

    ghost left = { λ v. hand (v.parts - v.parts / 2) v.all v.taken };

    ghost right = { λ v. hand (v.parts / 2) v.all [] };
}

/// A take gets the parts of another, and what it took.
pub struct Gathers;

impl Join<Hand> for Gathers {
    ghost use Rattle.std.specs.Prelude.{[], ◌+◌, ◌++◌};
    ghost use Rattle.thread_frames.specs.Deal.{hand};

    ghost both = { λ v w. hand (v.parts + w.parts) v.all (v.taken ++ w.taken) };

    ghost spent = { hand 0 [] [] };
}

impl Lesson<Numbered, Hand> for Gathers {
    ghost use Rattle.std.specs.Prelude.{◌≤◌};
    ghost use Rattle.thread_frames.specs.declared.deal.TheConstants.{MOST_PARTS};

    ghost fact = { λ v items. v.parts ≤ MOST_PARTS };
}

/// The queue of the frames.
pub(crate) type Line = RuledArrayQueue<Numbered, Hand, OnceEach>;

/// What a take calls the queue with.
pub(crate) type Pulls = Pass<Numbered, Hand>;
