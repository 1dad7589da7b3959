//! The frames of a file.

ghost use Rattle.std.specs.Prelude.{◌≡◌, ◌⊎◌, [], List, None, Err, IfOk, IfErr};
ghost use Rattle.thread_frames.specs.Faults.{frames_fault};
ghost use Rattle.thread_frames.specs.Takes.{IsTakeOf, all_of, taken_of, parts_of};
ghost use Rattle.thread_frames.specs.declared.deal.TheConstants.{MOST_PARTS};
ghost use Rattle.thread_frames.specs.declared.frame.FrameIn.{FrameIn};
ghost use Rattle.thread_frame_lines.specs.FrameLines.{Spells};
ghost use Rattle.thread_capture.specs.Captures.{HasFrames};
ghost use Rattle.thread_host_run.specs.FramesOf.{AreFramesAt, AreFramesOf};
ghost use Rattle.thread_host_run.specs.declared.fault.RunHostFault.TheVariants.{BadFrames, NoMemory};

use crate::fault::RunHostFault;
use bt_workers::{FrameIn, Frames, Take};
use host_words::Word;
use std::alloc::Global;
use std::sync::Wait;
use thread_capture::is_capture;

// The frames that the lines of a text spell.
fn spelled(alloc: Global, text: &[u8]) -> Result<Vec<FrameIn>, RunHostFault>
    ensures frames { IfOk result (λ frames. Spells text.now frames.items) }
    ensures good { IfOk result (λ frames. frames_fault frames.items ≡ None) }
    ensures bad { result ≡ Err BadFrames → (all : List FrameIn) → Spells text.now all → ⊥ }
    ensures only { IfErr result (λ fault. (fault ≡ BadFrames) ⊎ (fault ≡ NoMemory)) }
{
    Ok(thread_frame_lines::frames_in(alloc, text)?)
}

// The frames of a capture, which come in at this device.
fn captured(alloc: Global, device: &Word, bytes: &[u8]) -> Result<Vec<FrameIn>, RunHostFault>
    ensures frames { IfOk result (λ frames. HasFrames bytes.now device.now frames.items) }
    ensures good { IfOk result (λ frames. frames_fault frames.items ≡ None) }
    ensures bad { result ≡ Err BadFrames → (all : List FrameIn) → HasFrames bytes.now device.now all → ⊥ }
    ensures only { IfErr result (λ fault. (fault ≡ BadFrames) ⊎ (fault ≡ NoMemory)) }
{
    Ok(thread_capture::frames_in(alloc, device, bytes)?)
}

/// The frames of a file: those of a capture of tcpdump if it begins as one, which come in at this device, and else those that
/// its lines spell, each with its own.
///
/// # Errors
/// `BadFrames` if the bytes are neither; and `NoMemory`.
pub fn frames_in(alloc: Global, device: &Word, bytes: &[u8]) -> Result<Vec<FrameIn>, RunHostFault>
    ensures frames { IfOk result (λ frames. AreFramesAt device.now bytes.now frames.items) }
    ensures good { IfOk result (λ frames. frames_fault frames.items ≡ None) }
    ensures bad { result ≡ Err BadFrames → (all : List FrameIn) → AreFramesAt device.now bytes.now all → ⊥ }
    ensures only { IfErr result (λ fault. (fault ≡ BadFrames) ⊎ (fault ≡ NoMemory)) }
{
    if is_capture(bytes) {
        captured(alloc, device, bytes)
    } else {
        spelled(alloc, bytes)
    }
}

/// The frames of a file, as two workers take them; those of a capture come in at `eth0`.
///
/// # Errors
/// `BadFrames` if the bytes are neither lines that spell frames nor a capture; and `NoMemory`.
pub fn frames_of<R: Wait>(
    rt: &R,
    alloc: Global,
    bytes: &[u8],
) -> Result<(Frames, Take), RunHostFault>
    ensures take { IfOk result (λ r. IsTakeOf r.0 r.1 × (parts_of r.1 ≡ MOST_PARTS) × (taken_of r.1 ≡ [])) }
    ensures frames { IfOk result (λ r. AreFramesOf bytes.now (all_of r.1)) }
    ensures bad { result ≡ Err BadFrames → (all : List FrameIn) → AreFramesOf bytes.now all → ⊥ }
    ensures only { IfErr result (λ fault. (fault ≡ BadFrames) ⊎ (fault ≡ NoMemory)) }
{
    let Ok(device) = Word::new(alloc, b"eth0") else {
        return Err(RunHostFault::NoMemory);
    };
    let frames = frames_in(alloc, &device, bytes)?;
    Ok(Frames::new(rt, alloc, frames)?)
}
