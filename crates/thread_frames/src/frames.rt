//! The queue of frames, and the takes by which threads take them.

ghost use Rattle.std.specs.Prelude.{◌≡◌, ◌↔◌, ◌⊎◌, ◌+◌, ◌/◌, ◌<◌, ◌≤◌, ◌++◌, [], ◌∷◌, length, position, All, IsTrue, IsNone, IfSome, IfNone, IfOk, IfErr};
ghost use Rattle.thread_frames.specs.Deal.{hand, after_put};
ghost use Rattle.thread_frames.specs.Faults.{IsShort, is_long, frames_fault};
ghost use Rattle.thread_frames.specs.declared.fault.FramesFault.{FramesFault};
ghost use Rattle.crossbeam_queue.specs.Passes.{view, IsPassOf, ruled_capacity};
ghost use Rattle.thread_frames.specs.declared.deal.TheConstants.{MOST_PARTS};
ghost use Rattle.thread_frames.specs.declared.frame.TheConstants.{MOST_FRAMES, MOST_BYTES};
ghost use Rattle.thread_frames.specs.declared.fault.FramesFault.TheVariants.{NoMemory};

use crate::deal::{Gathers, Halves, Line, MOST_PARTS, Pulls, Puts, Takes};
use crate::fault::FramesFault;
use crate::frame::{FrameIn, MOST_BYTES, MOST_FRAMES, Numbered};
use std::alloc::Global;
use std::sync::Wait;

/// A thread's right to take frames. It took some, and has a part of the right to know that all were taken.
#[derive(Drop)]
pub struct Take {
    pass: Pulls,
    parts: u64,
    ghost parts_are: { (view pass).parts ≡ parts },
    ghost some: { 0 < parts },
    ghost most: { parts ≤ MOST_PARTS },
    ghost none_out: { pass.me.1 ≡ [] },
}

/// Frames that threads share, each of which is taken once.
#[derive(Drop)]
pub struct Frames {
    line: Line,
    count: usize,
    ghost few: { count ≤ MOST_FRAMES },
}

// Where the first frame stands that is too long.
fn first_long(frames: &[FrameIn]) -> Option<usize>
    ensures first { result ≡ position is_long frames.now }
    ensures none { IfNone result (All IsShort frames.now) }
{
    frames
        .iter()
        .position(|frame| frame.bytes.len() > MOST_BYTES)
}

// What stands against the frames.
fn fault_of(frames: &[FrameIn]) -> Option<FramesFault>
    ensures fault { result ≡ frames_fault frames.now }
    ensures none { IfNone result ((length frames.now ≤ MOST_FRAMES) × All IsShort frames.now) }
{
    if frames.len() > MOST_FRAMES {
        return Some(FramesFault::TooMany);
    }
    match first_long(frames) {
        Some(index) => Some(FramesFault::FrameTooLong(index as u64 + 1)),
        None => None,
    }
}

// Puts the next frame into the queue, which has room for it.
fn put<R: Wait>(rt: &R, line: &Line, pass: &mut Pulls, it: Numbered)
    requires pass { IsPassOf line.now pass.old × ((view pass.old).parts ≡ MOST_PARTS) }
    requires number { it.number ≡ length (view pass.old).all + 1 }
    requires room { length (view pass.old).all < ruled_capacity line.now }
    ensures { IsPassOf line.now pass.new × (view pass.new ≡ after_put (view pass.old) it) }
{
    match line.push_as::<Puts, R>(rt, pass, it) {
        Ok(()) => {}
        Err(_) => unreachable!(),
    }
}

// Puts all frames into the queue, the first with the number 1.
fn fill<R: Wait>(rt: &R, line: &Line, pass: Pulls, frames: Vec<FrameIn>) -> Pulls
    requires pass { IsPassOf line.now pass × (view pass ≡ hand MOST_PARTS [] []) }
    requires room { length frames.items ≤ ruled_capacity line.now }
    requires few { length frames.items ≤ MOST_FRAMES }
    requires short { All IsShort frames.items }
    ensures { IsPassOf line.now result × (view result ≡ hand MOST_PARTS frames.items []) }
{
    let mut pass = pass;
    let mut number = 0;
    for frame in frames {
        number += 1;
        put(rt, line, &mut pass, Numbered { number, frame });
    }
    pass
}

impl Frames {
    ghost use Rattle.thread_frames.specs.Takes.{IsTakeOf, all_of, taken_of, parts_of, count_of};
    ghost use Rattle.thread_frames.specs.Deal.{IsFrameAt, TakesEach};

    /// Shares these frames, numbered from 1, and gives the first take, which has all parts and has taken none.
    ///
    /// # Errors
    /// `TooMany` exactly when there are more than 65,536; else `FrameTooLong` exactly when a frame has more than 4,096
    /// bytes, with the number of the first such; `NoMemory` if an allocation failed.
    pub fn new<R: Wait>(
        rt: &R,
        alloc: Global,
        frames: Vec<FrameIn>,
    ) -> Result<(Frames, Take), FramesFault>
        ensures refused { (fault : FramesFault) → frames_fault frames.items ≡ Some fault → result ≡ Err fault }
        ensures only { IfErr result (λ fault. (frames_fault frames.items ≡ Some fault) ⊎ (fault ≡ NoMemory)) }
        ensures take { IfOk result (λ r. IsTakeOf r.0 r.1) }
        ensures whole { IfOk result (λ r. (all_of r.1 ≡ frames.items) × (taken_of r.1 ≡ []) × (parts_of r.1 ≡ MOST_PARTS)) }
    {
        if let Some(fault) = fault_of(&frames) {
            return Err(fault);
        }
        let count = frames.len();
        let (line, pass) = Line::ruled(alloc, count.max(1))?;
        let pass = fill(rt, &line, pass, frames);
        Ok((
            Frames { line, count },
            Take {
                pass,
                parts: MOST_PARTS,
            },
        ))
    }

    /// How many frames there are, taken and not yet taken.
    pub fn len(&self) -> usize
        ensures value { result ≡ count_of self.now }
        ensures at_most { result ≤ MOST_FRAMES }
    {
        self.count
    }

    /// Whether there are none.
    pub fn is_empty(&self) -> bool
        ensures { IsTrue result ↔ (count_of self.now ≡ 0) }
    {
        self.count == 0
    }

    /// Takes the next frame; none if all were taken. A take with all parts, to whom there is none, has taken each frame
    /// once, by itself or by the takes that were joined into it.
    pub fn next<R: Wait>(&self, rt: &R, take: &mut Take) -> Option<Numbered>
        requires { IsTakeOf self.now take.old }
        ensures take { IsTakeOf self.now take.new × (all_of take.new ≡ all_of take.old) × (parts_of take.new ≡ parts_of take.old) }
        ensures taken { IfSome result (λ it. taken_of take.new ≡ taken_of take.old ++ it.number ∷ []) }
        ensures frame { IfSome result (λ it. IsFrameAt (all_of take.old) it) }
        ensures few { IfSome result (λ it. length (taken_of take.new) ≤ count_of self.now) }
        ensures none { IfNone result (taken_of take.new ≡ taken_of take.old) }
        ensures all_taken { IfNone result (parts_of take.old ≡ MOST_PARTS → TakesEach (taken_of take.old) (count_of self.now)) }
    {
        self.line.pop_as::<Takes, R>(rt, &mut take.pass)
    }

    /// A second take, with half of the parts, rounded down, that has taken nothing. None exactly when there is one part.
    pub fn split(&self, take: &mut Take) -> Option<Take>
        requires { IsTakeOf self.now take.old }
        ensures none { IsNone result ↔ (parts_of take.old ≡ 1) }
        ensures same { IsTakeOf self.now take.new × (all_of take.new ≡ all_of take.old) × (taken_of take.new ≡ taken_of take.old) }
        ensures new { IfSome result (λ other. IsTakeOf self.now other × (all_of other ≡ all_of take.old) × (taken_of other ≡ [])) }
        ensures half { IfSome result (λ other. parts_of other ≡ parts_of take.old / 2) }
        ensures rest { IfSome result (λ other. parts_of take.new + parts_of other ≡ parts_of take.old) }
    {
        if take.parts == 1 {
            return None;
        }
        let half = take.parts / 2;
        let pass = self.line.another::<Halves>(&mut take.pass);
        take.parts -= half;
        Some(Take { pass, parts: half })
    }

    /// The first take then has the parts of both, and has taken what both had.
    pub fn join(&self, take: &mut Take, other: Take)
        requires { IsTakeOf self.now take.old × IsTakeOf self.now other }
        ensures take { IsTakeOf self.now take.new × (all_of take.new ≡ all_of take.old) }
        ensures taken { taken_of take.new ≡ taken_of take.old ++ taken_of other }
        ensures parts { parts_of take.new ≡ parts_of take.old + parts_of other }
    {
        let Take { pass, parts } = other;
        self.line.absorb::<Gathers>(&mut take.pass, pass);
        self.line.learn_as::<Gathers>(&mut take.pass);
        take.parts += parts;
    }
}
