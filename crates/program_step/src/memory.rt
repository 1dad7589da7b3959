//! Loads and stores.

ghost use Rattle.std.specs.Prelude.{◌≡◌};
ghost use Rattle.program_step.specs.Machine.{moved_by};
ghost use Rattle.program_step.specs.Memory as memory;

use crate::machine::{Machine, ask, stop};
use crate::outcome::Outcome;
use bt_insn::{Operand, Register, SignExtension, SignedSize, Size};
use bt_mapkind::Bytes;
use program_access::Access;
use program_alu::extended;
use program_machine::{Kind, Reason, context_field};
use std::alloc::Global;

/// A position so many bytes further, wrapping.
#[inline(always)]
pub(crate) fn moved(position: u64, offset: i16) -> u64
    ensures { result ≡ moved_by position offset }
{
    position.wrapping_add(i64::from(offset).cast_unsigned())
}

#[inline(always)]
pub(crate) fn size_of(size: SignedSize) -> Size
    ensures { result ≡ memory.size_of size }
{
    match size {
        SignedSize::Byte => Size::Byte,
        SignedSize::Half => Size::Half,
        SignedSize::Word => Size::Word,
    }
}

#[inline(always)]
pub(crate) fn extension_of(size: SignedSize) -> SignExtension
    ensures { result ≡ memory.extension_of size }
{
    match size {
        SignedSize::Byte => SignExtension::ByteToDoubleWord,
        SignedSize::Half => SignExtension::HalfToDoubleWord,
        SignedSize::Word => SignExtension::WordToDoubleWord,
    }
}

// The lowest bytes of a number.
fn low_bytes(alloc: Global, size: Size, number: u64) -> Bytes
    ensures { result ≡ memory.low_bytes size number }
{
    let bytes = number.to_le_bytes();
    Bytes::of(alloc, &bytes[..size.bytes()]).unwrap()
}

impl Machine {
    ghost use Rattle.std.specs.Prelude.{◌≡◌, Err};
    ghost use Rattle.program_machine.specs.Held as values;
    ghost use Rattle.program_machine.specs.Stack as stacks;
    ghost use Rattle.program_step.specs.Flow.{Stop, flow_of};
    ghost use Rattle.program_step.specs.Machine as spec;
    ghost use Rattle.program_step.specs.Memory as memory;

    // Loads what a word of the stack holds, if it is no number; else the reason stands.
    #[inline(never)]
    fn load_kept(
        &mut self,
        size: Size,
        dst: Register,
        position: u64,
        reason: Reason,
        outcome: &mut Outcome,
    ) -> bool
        ensures { spec.moving_on self.old (flow_of result outcome.new) self.new ≡ spec.loaded self.old dst (stacks.loaded (stacks.kept_for self.old.stack position size) (Err reason)) }
    {
        match self.stack.kept(position, size) {
            Some(held) => {
                self.registers.put(dst.index(), &held);
                true
            }
            None => stop(outcome, reason),
        }
    }

    #[inline(always)]
    fn load_from_stack(
        &mut self,
        size: Size,
        dst: Register,
        position: u64,
        outcome: &mut Outcome,
    ) -> bool
        ensures { spec.moving_on self.old (flow_of result outcome.new) self.new ≡ spec.loaded self.old dst (stacks.load_of self.old.stack position size) }
    {
        match self.stack.number(position, size) {
            Ok(number) => {
                self.set(dst, Kind::Number(number));
                true
            }
            Err(reason) => self.load_kept(size, dst, position, reason, outcome),
        }
    }

    #[inline(never)]
    fn load_field(&mut self, size: Size, dst: Register, offset: u64, outcome: &mut Outcome) -> bool
        ensures { spec.moving_on self.old (flow_of result outcome.new) self.new ≡ spec.loaded self.old dst (memory.field self.old size offset) }
    {
        if size != Size::Word {
            return stop(outcome, Reason::OutOfRange);
        }
        match context_field(self.frame.len(), self.ifindex, offset) {
            Some(kind) => {
                self.set(dst, kind);
                true
            }
            None => stop(outcome, Reason::OutOfRange),
        }
    }

    // Asks for a number in the value to which a register points.
    #[inline(never)]
    fn ask_load(
        &self,
        src: Register,
        map: u32,
        position: u64,
        size: Size,
        outcome: &mut Outcome,
    ) -> bool
        ensures { flow_of result outcome.new ≡ Stop (Outcome.Access (Access.Load map (values.key_of (spec.register self.now src)) position size)) }
    {
        let access = Access::Load {
            map,
            key: self.key(src),
            offset: position,
            size,
        };
        ask(outcome, access)
    }

    /// Loads a number, or what an aligned word of the stack holds.
    #[inline(always)]
    pub(crate) fn load(
        &mut self,
        size: Size,
        dst: Register,
        src: Register,
        offset: i16,
        outcome: &mut Outcome,
    ) -> bool
        ensures { spec.moving_on self.old (flow_of result outcome.new) self.new ≡ memory.load self.old size dst (spec.register self.old src) offset }
    {
        match self.kind(src) {
            Kind::Stack(position) => self.load_from_stack(
                size,
                dst,
                moved(position, offset),
                outcome,
            ),
            Kind::Frame(position) => match self.frame.number(moved(position, offset), size) {
                Ok(number) => {
                    self.set(dst, Kind::Number(number));
                    true
                }
                Err(reason) => stop(outcome, reason),
            },
            Kind::Value { map, position } => {
                self.ask_load(src, map, moved(position, offset), size, outcome)
            }
            Kind::Context => self.load_field(size, dst, moved(0, offset), outcome),
            Kind::Number(_) | Kind::Map(_) => stop(outcome, Reason::WrongKind),
        }
    }

    #[inline(always)]
    fn put_extended(
        &mut self,
        size: SignedSize,
        dst: Register,
        number: Result<u64, Reason>,
        outcome: &mut Outcome,
    ) -> bool
        ensures { spec.moving_on self.old (flow_of result outcome.new) self.new ≡ spec.loaded self.old dst (memory.as_extended (memory.extension_of size) number) }
    {
        match number {
            Ok(number) => {
                self.set(dst, Kind::Number(extended(extension_of(size), number)));
                true
            }
            Err(reason) => stop(outcome, reason),
        }
    }

    /// Loads a number and extends its sign.
    pub(crate) fn load_signed(
        &mut self,
        size: SignedSize,
        dst: Register,
        src: Register,
        offset: i16,
        outcome: &mut Outcome,
    ) -> bool
        ensures { spec.moving_on self.old (flow_of result outcome.new) self.new ≡ memory.load_signed self.old size dst (spec.register self.old src) offset }
    {
        match self.kind(src) {
            Kind::Stack(position) => {
                let number = self.stack.number(moved(position, offset), size_of(size));
                self.put_extended(size, dst, number, outcome)
            }
            Kind::Frame(position) => {
                let number = self.frame.number(moved(position, offset), size_of(size));
                self.put_extended(size, dst, number, outcome)
            }
            Kind::Value { map, position } => {
                self.ask_load(src, map, moved(position, offset), size_of(size), outcome)
            }
            Kind::Context => stop(outcome, Reason::OutOfRange),
            Kind::Number(_) | Kind::Map(_) => stop(outcome, Reason::WrongKind),
        }
    }

    // Asks that a number is stored in the value to which a register points.
    #[inline(never)]
    fn ask_store(
        &self,
        dst: Register,
        map: u32,
        position: u64,
        size: Size,
        number: u64,
        outcome: &mut Outcome,
    ) -> bool
        ensures { flow_of result outcome.new ≡ Stop (Outcome.Access (Access.Store map (values.key_of (spec.register self.now dst)) position (memory.low_bytes size number))) }
    {
        let access = Access::Store {
            map,
            key: self.key(dst),
            offset: position,
            bytes: low_bytes(self.frame.allocator(), size, number),
        };
        ask(outcome, access)
    }

    #[inline(always)]
    fn store_number(
        &mut self,
        size: Size,
        dst: Register,
        number: u64,
        offset: i16,
        outcome: &mut Outcome,
    ) -> bool
        ensures { spec.moving_on self.old (flow_of result outcome.new) self.new ≡ memory.store_number self.old size (spec.register self.old dst) number offset }
    {
        match self.kind(dst) {
            Kind::Stack(position) => {
                match self.stack.store(moved(position, offset), size, number) {
                    Ok(()) => true,
                    Err(reason) => stop(outcome, reason),
                }
            }
            Kind::Frame(position) => {
                match self.frame.store(moved(position, offset), size, number) {
                    Ok(()) => true,
                    Err(reason) => stop(outcome, reason),
                }
            }
            Kind::Value { map, position } => {
                self.ask_store(dst, map, moved(position, offset), size, number, outcome)
            }
            Kind::Number(_) | Kind::Map(_) | Kind::Context => stop(outcome, Reason::WrongKind),
        }
    }

    #[inline(never)]
    fn store_whole(
        &mut self,
        size: Size,
        dst: Register,
        src: Operand,
        offset: i16,
        outcome: &mut Outcome,
    ) -> bool
        ensures { spec.moving_on self.old (flow_of result outcome.new) self.new ≡ memory.store_whole self.old size (spec.register self.old dst) (spec.operand self.old src) offset }
    {
        if size != Size::DoubleWord {
            return stop(outcome, Reason::WrongKind);
        }
        match self.kind(dst) {
            Kind::Stack(position) => {
                let value = self.operand(src);
                match self.stack.spill(moved(position, offset), &value) {
                    Ok(()) => true,
                    Err(reason) => stop(outcome, reason),
                }
            }
            _ => stop(outcome, Reason::WrongKind),
        }
    }

    /// Stores a number, or any value whole in an aligned word of the stack.
    #[inline(always)]
    pub(crate) fn store(
        &mut self,
        size: Size,
        dst: Register,
        src: Operand,
        offset: i16,
        outcome: &mut Outcome,
    ) -> bool
        ensures { spec.moving_on self.old (flow_of result outcome.new) self.new ≡ memory.store self.old size (spec.register self.old dst) (spec.operand self.old src) offset }
    {
        match self.kind_of_operand(src) {
            Kind::Number(number) => self.store_number(size, dst, number, offset, outcome),
            _ => self.store_whole(size, dst, src, offset, outcome),
        }
    }
}
