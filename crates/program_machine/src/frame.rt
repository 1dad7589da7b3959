//! The frame that a program is run on.

use crate::bytes::{lie_within, number_at, overwrite, put_number};
use crate::reason::Reason;
use bt_insn::Size;
use std::alloc::Global;
use std::marker::Model;

/// The greatest length of a frame in bytes.
pub const MAX_FRAME: usize = 4096;

/// The bytes of a frame: as many as they were at the start, at most 4,096.
#[derive(Drop)]
pub struct Frame {
    bytes: Vec<u8>,
}

impl Model for Frame {
    ghost use Rattle.std.specs.Prelude.{List, ℕ, ◌≤◌, length};

    ghost Value = { List ℕ };

    ghost view = { λ f. f.bytes.items };

    ghost invariant = { λ f. length f.bytes.items ≤ 4096 };
}

impl Frame {
    ghost use Rattle.std.specs.Prelude.{◌≡◌, ◌≤◌, true, Ok, Err, MatchResult, length};
    ghost use Rattle.program_machine.specs.Done.{IsDone};
    ghost use Rattle.program_machine.specs.Frame as spec;

    /// The frame of these bytes.
    pub fn new(bytes: Vec<u8>) -> Frame
        requires { length bytes.items ≤ 4096 }
        ensures { result ≡ bytes.items }
    {
        Frame { bytes }
    }

    /// How many bytes it has.
    #[inline]
    pub fn len(&self) -> usize
        ensures value { result ≡ length self.now }
        ensures at_most { result ≤ 4096 }
    {
        self.bytes.len()
    }

    /// Where its bytes came from.
    pub fn allocator(&self) -> Global {
        *self.bytes.allocator()
    }

    /// The number at the position.
    ///
    /// # Errors
    /// `OutOfRange` past the end.
    pub fn number(&self, position: u64, size: Size) -> Result<u64, Reason>
        ensures { result ≡ spec.number_in self.now position size }
    {
        if lie_within(self.bytes.len(), position, size.bytes()) {
            Ok(number_at(&self.bytes, position as usize, size))
        } else {
            Err(Reason::OutOfRange)
        }
    }

    /// Stores the lowest bytes of a number.
    ///
    /// # Errors
    /// `OutOfRange` past the end.
    pub fn store(&mut self, position: u64, size: Size, number: u64) -> Result<(), Reason>
        ensures { IsDone (spec.store_of self.old position size number) result self.old self.new }
    {
        if !lie_within(self.bytes.len(), position, size.bytes()) {
            return Err(Reason::OutOfRange);
        }
        put_number(&mut self.bytes, position as usize, size, number);
        Ok(())
    }

    /// So many bytes from the position on.
    ///
    /// # Errors
    /// `OutOfRange` past the end.
    pub fn read(&self, position: u64, count: usize) -> Result<&[u8], Reason>
        ensures { MatchResult result (λ bytes. spec.bytes_in self.now position count ≡ Ok bytes.now)
            (λ reason. spec.bytes_in self.now position count ≡ Err reason) }
    {
        if !lie_within(self.bytes.len(), position, count) {
            return Err(Reason::OutOfRange);
        }
        let start = position as usize;
        Ok(&self.bytes[start..start + count])
    }

    /// Writes bytes from the position on.
    ///
    /// # Errors
    /// `OutOfRange` past the end.
    pub fn write(&mut self, position: u64, bytes: &[u8]) -> Result<(), Reason>
        ensures { IsDone (spec.write_of self.old position bytes.now) result self.old self.new }
    {
        if !lie_within(self.bytes.len(), position, bytes.len()) {
            return Err(Reason::OutOfRange);
        }
        overwrite(&mut self.bytes, position as usize, bytes);
        Ok(())
    }
}
