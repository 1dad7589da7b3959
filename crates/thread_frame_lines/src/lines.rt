//! Frames read from a text.

ghost use Rattle.std.specs.Prelude.{◌≡◌, ◌==◌, ◌<◌, ◌∷◌, [], None, List, length, IfSome, IfNone, IfOk};
ghost use Rattle.std.specs.List.{slice_split, list_all, position, before_first, after_first};
ghost use Rattle.std.specs.Option.{option_map_or};
ghost use Rattle.std.specs.Io.BufRead.{strip_last};
ghost use Rattle.thread_frames.specs.Faults.{IsShort, frames_fault};
ghost use Rattle.thread_frames.specs.declared.frame.FrameIn.{FrameIn};
ghost use Rattle.thread_frame_lines.specs.FrameLines.{is_device_letter, is_device, frame_of, told, Spells};
ghost use Rattle.thread_frame_lines.specs.declared.fault.LinesFault.TheVariants.{BadLine};

use crate::fault::LinesFault;
use bt_syntax::frame_bytes;
use host_words::Word;
use std::alloc::Global;
use thread_frames::{FrameIn, MOST_FRAMES};

// Where the first such byte stands.
fn place_of(text: &[u8], at: u8) -> Option<usize>
    ensures { result ≡ position (λ byte. byte == at) text.now }
{
    text.iter().position(|byte| *byte == at)
}

// What stands in front of the first such byte, and what comes after it, if there is one.
fn cut(text: &[u8], at: u8) -> (&[u8], Option<&[u8]>)
    ensures front { result.0.now ≡ before_first (λ byte. byte == at) text.now }
    ensures behind { IfSome result.1 (λ rest. rest.now ≡ after_first (λ byte. byte == at) text.now) }
    ensures none_behind { IfNone result.1 (after_first (λ byte. byte == at) text.now ≡ []) }
    ensures parts { slice_split (λ byte. byte == at) text.now ≡ result.0.now ∷ option_map_or (λ rest. slice_split (λ byte. byte == at) rest.now) result.1 [] }
    ensures shorter { IfSome result.1 (λ rest. length rest.now < length text.now) }
{
    match place_of(text, at) {
        Some(len) => {
            let (front, rest) = text.split_at(len);
            let (_, behind) = rest.split_at(1);
            (front, Some(behind))
        }
        None => (text, None),
    }
}

// A text without a line feed at its end.
fn without_feed(text: &[u8]) -> &[u8]
    ensures { result.now ≡ strip_last 10 text.now }
{
    if text.ends_with(b"\n") {
        let (front, _) = text.split_at(text.len() - 1);
        front
    } else {
        text
    }
}

// Whether the name of a device may have this byte.
fn is_device_letter(byte: u8) -> bool
    ensures { result ≡ is_device_letter byte }
{
    !(byte == b' ' || byte == b'\t' || byte == b'#' || byte == b'\r')
}

fn are_device_letters(word: &[u8]) -> bool
    ensures { result ≡ list_all is_device_letter word.now }
{
    word.iter().all(|byte| is_device_letter(*byte))
}

// Whether these bytes are the word of a device.
fn is_device(word: &[u8]) -> bool
    ensures { result ≡ is_device word.now }
{
    !word.is_empty() && are_device_letters(word)
}

// The frame that a line spells.
fn frame_of(alloc: Global, line: &[u8]) -> Result<FrameIn, LinesFault>
    ensures frame { IfOk result (λ frame. frame_of line.now ≡ told frame) }
    ensures short { IfOk result IsShort }
    ensures none { result ≡ Err BadLine → frame_of line.now ≡ None }
{
    let (device, Some(word)) = cut(line, b' ') else {
        return Err(LinesFault::BadLine);
    };
    if !is_device(device) {
        return Err(LinesFault::BadLine);
    }
    match frame_bytes(alloc, word)? {
        Some(bytes) => Ok(FrameIn {
            device: Word::new(alloc, device)?,
            bytes: bytes.into_vec(),
        }),
        None => Err(LinesFault::BadLine),
    }
}

/// The frames that the lines of a text spell, `DEVICE hex:DIGITS` each, in order. A line has a device's name, which need not
/// exist, exactly one space, and `hex:` with two hexadecimal digits of either case for each of at most 4,096 bytes. It has no
/// CR and no comment, and is never empty; the last may lack its LF. A text of no byte has no frames.
///
/// # Errors
/// `BadLine` if a line is not so, or there are more than 65,536; `NoMemory` if an allocation failed.
pub fn frames_in(alloc: Global, text: &[u8]) -> Result<Vec<FrameIn>, LinesFault>
    ensures frames { IfOk result (λ frames. Spells text.now frames.items) }
    ensures good { IfOk result (λ frames. frames_fault frames.items ≡ None) }
    ensures none { result ≡ Err BadLine → (frames : List FrameIn) → Spells text.now frames → ⊥ }
{
    let mut frames = Vec::new(alloc);
    let mut rest = if text.is_empty() {
        None
    } else {
        Some(without_feed(text))
    };
    'lines: while let Some(lines) = rest {
        let (line, behind) = cut(lines, b'\n');
        if frames.len() == MOST_FRAMES {
            return Err(LinesFault::BadLine);
        }
        let frame = frame_of(alloc, line)?;
        if frames.push(frame).is_err() {
            return Err(LinesFault::NoMemory);
        }
        rest = behind;
    }
    Ok(frames)
}
