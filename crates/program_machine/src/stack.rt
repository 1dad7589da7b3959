//! The stack: 512 bytes, of whose aligned words of eight each may hold what is no number.

use crate::bytes::{lie_within, number_at, overwrite, put_number};
use crate::holder::Holder;
use crate::reason::Reason;
use crate::spilled::Spilled;
use bt_insn::Size;

/// The size of the stack in bytes.
pub const STACK_SIZE: usize = 512;

/// The stack of a program. A 64-bit store puts a pointer, a map or the context into an aligned word, and a 64-bit load
/// of that word gives it back; such a word cannot be read as bytes.
#[derive(Drop)]
pub struct Stack {
    bytes: [u8; 512],
    kept: Spilled,
}

impl Stack {
    ghost use Rattle.std.specs.Prelude.{◌≡◌, ◌+◌, ◌<◌, ◌≤◌, true, false, is_none, is_ok, Ok, Err, MatchResult, MatchOption, Some, None, length, slice_range};
    ghost use Rattle.std.specs.List.{list_all};
    ghost use Rattle.program_machine.specs.Done.{IsDone};
    ghost use Rattle.program_machine.specs.Stack as spec;

    /// A stack of zero bytes.
    pub fn new() -> Stack
        ensures { result ≡ spec.fresh }
    {
        Stack {
            bytes: [0; 512],
            kept: Spilled::new(),
        }
    }

    /// Makes it a stack of zero bytes.
    pub fn clear_all(&mut self)
        ensures { self.new ≡ spec.fresh }
    {
        self.bytes = [0; 512];
        self.kept.clear_all();
    }

    /// The number at the position.
    ///
    /// # Errors
    /// `OutOfRange` past the end; `WrongKind` if a word that it touches holds no number.
    #[inline(always)]
    pub fn number(&self, position: u64, size: Size) -> Result<u64, Reason>
        ensures { result ≡ spec.number_in self.now position size }
    {
        let count = size.bytes();
        if !lie_within(STACK_SIZE, position, count) {
            return Err(Reason::OutOfRange);
        }
        let start = position as usize;
        if self.kept.are_both_plain(start / 8, (start + count - 1) / 8) {
            Ok(number_at(&self.bytes, start, size))
        } else {
            Err(Reason::WrongKind)
        }
    }

    /// What the aligned word of eight bytes at the position holds, if it is no number.
    pub fn kept(&self, position: u64, size: Size) -> Option<Holder>
        ensures { result ≡ spec.kept_for self.now position size }
    {
        if size != Size::DoubleWord || position % 8 != 0 || !lie_within(STACK_SIZE, position, 8) {
            return None;
        }
        self.kept.get((position / 8) as usize)
    }

    // Makes the word eight zero bytes if it held something else.
    #[inline(always)]
    fn clear(&mut self, word: usize)
        requires { word < 64 }
        ensures { self.new ≡ spec.cleared self.old word }
    {
        if !self.kept.is_plain(word) {
            self.kept.clear(word);
            put_number(&mut self.bytes, 8 * word, Size::DoubleWord, 0);
        }
    }

    /// Stores the lowest bytes of a number.
    ///
    /// # Errors
    /// `OutOfRange` past the end.
    pub fn store(&mut self, position: u64, size: Size, number: u64) -> Result<(), Reason>
        ensures { IsDone (spec.store_of self.old position size number) result self.old self.new }
    {
        let count = size.bytes();
        if !lie_within(STACK_SIZE, position, count) {
            return Err(Reason::OutOfRange);
        }
        let start = position as usize;
        self.clear(start / 8);
        self.clear((start + count - 1) / 8);
        put_number(&mut self.bytes, start, size, number);
        Ok(())
    }

    /// Stores them if the words that they touch hold numbers, and tells whether they do.
    #[inline(always)]
    pub fn store_plainly(&mut self, position: u64, size: Size, number: u64) -> bool
        ensures plain { result ≡ is_ok (spec.number_in self.old position size) }
        ensures stored { result ≡ true → spec.store_of self.old position size number ≡ Ok self.new }
        ensures kept { result ≡ false → self.new ≡ self.old }
    {
        let count = size.bytes();
        if !lie_within(STACK_SIZE, position, count) {
            return false;
        }
        let start = position as usize;
        if !self.kept.are_both_plain(start / 8, (start + count - 1) / 8) {
            return false;
        }
        put_number(&mut self.bytes, start, size, number);
        true
    }

    /// Stores a value whole, in an aligned word of eight bytes.
    ///
    /// # Errors
    /// `WrongKind` at a position that is not aligned; `OutOfRange` past the end.
    pub fn spill(&mut self, position: u64, value: &Holder) -> Result<(), Reason>
        ensures { IsDone (spec.spill_of self.old position value.now) result self.old self.new }
    {
        if position % 8 != 0 {
            return Err(Reason::WrongKind);
        }
        if !lie_within(STACK_SIZE, position, 8) {
            return Err(Reason::OutOfRange);
        }
        self.kept.put((position / 8) as usize, value);
        Ok(())
    }

    /// So many bytes from the position on.
    ///
    /// # Errors
    /// `OutOfRange` past the end; `WrongKind` if a word that they touch holds no number.
    pub fn read(&self, position: u64, count: usize) -> Result<&[u8], Reason>
        ensures { MatchResult result (λ bytes. spec.bytes_in self.now position count ≡ Ok bytes.now)
            (λ reason. spec.bytes_in self.now position count ≡ Err reason) }
    {
        if !lie_within(STACK_SIZE, position, count) {
            return Err(Reason::OutOfRange);
        }
        let start = position as usize;
        if self.kept.are_plain(start / 8, (start + count + 7) / 8) {
            Ok(&self.bytes[start..start + count])
        } else {
            Err(Reason::WrongKind)
        }
    }

    #[tactic(auto, unfolding(crate::specs::Stack::cleared_words))]
    fn clear_words(&mut self, word: usize, count: usize)
        requires { word + count ≤ 64 }
        ensures { self.new ≡ spec.cleared_words self.old word count }
    {
        for k in 0..count {
            self.clear(word + k);
        }
    }

    /// Writes bytes from the position on.
    ///
    /// # Errors
    /// `OutOfRange` past the end.
    pub fn write(&mut self, position: u64, bytes: &[u8]) -> Result<(), Reason>
        ensures { IsDone (spec.write_of self.old position bytes.now) result self.old self.new }
    {
        if !lie_within(STACK_SIZE, position, bytes.len()) {
            return Err(Reason::OutOfRange);
        }
        let start = position as usize;
        let word = start / 8;
        self.clear_words(word, (start + bytes.len() + 7) / 8 - word);
        overwrite(&mut self.bytes, start, bytes);
        Ok(())
    }
}
