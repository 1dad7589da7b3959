//! A frame and the device that it comes in at: `dev NAME hex:DIGITS`.

ghost use Rattle.std.specs.Prelude.{◌≡◌, ◌≤◌, length, IfOk};
ghost use Rattle.std.specs.Str.{bytes_eq};
ghost use Rattle.std.specs.Cmp.{nat_eq_equiv, partial_equiv_from_equiv};
ghost use Rattle.std.specs.Cmp.Lexicographic.{lists_per, lists_equiv};
ghost use Rattle.bt_syntax.specs.FrameGrammar.{frame_bytes};
ghost use Rattle.console_operand.specs.Automaton.{GoesOn};
ghost use Rattle.bt_syntax.specs.FrameSteps.{dev_step, bytes_step, frame_step, frame_finish};

use crate::NoMemory;
use console_operand::{LineWord, go_to, hex_bytes};
use host_words::Word;
use std::alloc::Global;
use std::marker::Model;
use std::mem;

/// How many bytes the word of a frame has at most: `hex:` and the digits of 4,096 bytes.
const WORD_MAX: usize = 8_196;

/// The bytes of a frame, at most 4,096.
#[derive(Debug, Drop)]
pub struct FrameBytes {
    bytes: Vec<u8>,
}

impl Model for FrameBytes {
    ghost use Rattle.std.specs.Prelude.{List, ℕ, ◌≤◌, length};

    ghost Value = { List ℕ };

    ghost view = { λ f. f.bytes.items };

    ghost invariant = { λ f. length f.bytes.items ≤ 4096 };
}

impl FrameBytes {
    /// The bytes.
    pub fn into_vec(self) -> Vec<u8>
        ensures value { result.items ≡ self }
        ensures at_most { length result.items ≤ 4096 }
    {
        self.bytes
    }
}

impl PartialEq for FrameBytes {
    ghost eq = { bytes_eq };

    ghost laws = { lists_per (partial_equiv_from_equiv nat_eq_equiv) };

    fn eq(&self, other: &FrameBytes) -> bool {
        self.bytes == other.bytes
    }
}

impl Eq for FrameBytes {
    ghost laws = { lists_equiv nat_eq_equiv };
}

/// A frame that comes in at a device.
#[derive(PartialEq, Eq, Debug, Drop)]
pub struct Frame {
    pub device: Word,
    pub bytes: FrameBytes,
}

/// The bytes of the frame that a word spells: `hex:` and an even number of digits, at most 8,192.
pub fn frame_bytes(alloc: Global, word: &[u8]) -> Result<Option<FrameBytes>, NoMemory>
    ensures { IfOk result (λ bytes. bytes ≡ frame_bytes word.now) }
{
    if !word.starts_with(b"hex:") || word.len() > WORD_MAX {
        return Ok(None);
    }
    match hex_bytes(alloc, &word[4..])? {
        Some(bytes) => Ok(Some(FrameBytes { bytes })),
        None => Ok(None),
    }
}

/// What the words of a frame have come to.
#[derive(Drop)]
pub enum FrameState<'a> {
    /// `dev` comes next.
    Dev,
    Name,
    /// The bytes come next.
    Bytes(LineWord<'a>),
    Done(LineWord<'a>, FrameBytes),
}

/// What the word in front of the device's name leads to.
fn dev<'a>(word: &[u8]) -> Option<FrameState<'a>>
    ensures { result ≡ dev_step word.now }
{
    if word == b"dev".as_slice() {
        Some(FrameState::Name)
    } else {
        None
    }
}

impl<'a> FrameState<'a> {
    /// What the word after the device's name leads to.
    fn bytes(
        alloc: Global,
        device: LineWord<'a>,
        word: &[u8],
    ) -> Result<Option<FrameState<'a>>, NoMemory>
        ensures { IfOk result (λ next. next ≡ bytes_step device.entry word.now) }
    {
        match frame_bytes(alloc, word)? {
            Some(bytes) => Ok(Some(FrameState::Done(device, bytes))),
            None => Ok(None),
        }
    }

    /// What one more word makes of it; `None` if no line goes on so.
    pub fn after(self, alloc: Global, word: &'a [u8]) -> Result<Option<FrameState<'a>>, NoMemory>
        ensures { IfOk result (λ next. next ≡ frame_step self.entry word.now) }
    {
        match self {
            FrameState::Dev => Ok(dev(word)),
            FrameState::Name => Ok(Some(FrameState::Bytes(LineWord::new(word)))),
            FrameState::Bytes(device) => FrameState::bytes(alloc, device, word),
            FrameState::Done(_device, _bytes) => Ok(None),
        }
    }

    /// Reads one more word; false if no line goes on so, and then what is left says nothing.
    pub fn go_on(&mut self, alloc: Global, word: &'a [u8]) -> Result<bool, NoMemory>
        ensures { IfOk result (λ goes. GoesOn goes (frame_step self.old word.now) self.new) }
    {
        let next = mem::replace(self, FrameState::Dev).after(alloc, word)?;
        Ok(go_to(self, next))
    }

    /// The frame, if the line may end here.
    pub fn finish(self, alloc: Global) -> Result<Option<Frame>, NoMemory>
        ensures { IfOk result (λ frame. frame ≡ frame_finish self.entry) }
    {
        match self {
            FrameState::Done(device, bytes) => Ok(Some(Frame {
                device: device.copy(alloc)?,
                bytes,
            })),
            _ => Ok(None),
        }
    }
}
