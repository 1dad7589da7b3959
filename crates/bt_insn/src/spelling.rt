//! The fields that spell an instruction.

ghost use Rattle.std.specs.Prelude.{◌≡◌, ◌<◌};
ghost use Rattle.bt_insn.specs.Opcode.{operation, access};

use crate::codes::{ATOMIC, CALL, END, EXIT, JA, JMP, LDDW, LDX, MEM, MEMSX, MOV, NEG, STX};
use crate::fields::{Fields, SLOT_BYTES};
use crate::insn::Insn;

/// The opcode of an arithmetic or jump instruction.
fn operation(code: u8, source: u8, class: u8) -> u8
    requires code { code < 16 }
    requires source { source < 2 }
    requires class { class < 8 }
    ensures { result ≡ operation code source class }
{
    16 * code + 8 * source + class
}

/// The opcode of a load or store instruction.
fn access(mode: u8, size: u8, class: u8) -> u8
    requires mode { mode < 8 }
    requires size { size < 4 }
    requires class { class < 8 }
    ensures { result ≡ access mode size class }
{
    32 * mode + 8 * size + class
}

impl Insn {
    ghost use Rattle.std.specs.Prelude.{◌≡◌, ◌<◌, [], unwrap_or};
    ghost use Rattle.bt_insn.specs.Slot.{slot_bytes};
    ghost use Rattle.bt_insn.specs.Spelling.{second_slot};
    ghost use Rattle.bt_insn.specs.Table.{Fits, fields_of, high_of};

    /// The fields of its first slot.
    pub fn fields(self) -> Fields
        ensures value { result ≡ fields_of self }
        ensures dst { result.dst < 11 }
        ensures src { result.src < 11 }
        ensures fits { Fits self }
    {
        Fields {
            opcode: self.opcode(),
            dst: self.dst(),
            src: self.src(),
            offset: self.offset(),
            immediate: self.immediate(),
        }
    }

    /// The immediate of its second slot: the high half of a constant of 64 bits, else 0.
    pub fn high(self) -> i32
        ensures { result ≡ high_of self }
    {
        match self {
            Insn::LoadImmediate { value, .. } => ((value >> 32) as u32).cast_signed(),
            _ => 0,
        }
    }

    /// The bytes of its first slot.
    pub fn first_slot(self) -> [u8; SLOT_BYTES]
        ensures { result ≡ slot_bytes (fields_of self) }
    {
        self.fields().bytes()
    }

    /// The bytes of its second slot, if it has one.
    pub fn second_slot(self) -> Option<[u8; SLOT_BYTES]>
        ensures { second_slot self ≡ unwrap_or result [] }
    {
        if self.slots() == 1 {
            return None;
        }
        Some(Fields::second(self.high()).bytes())
    }

    fn opcode(self) -> u8
        ensures { result ≡ (fields_of self).opcode }
    {
        match self {
            Insn::Alu { width, op, src, .. } => operation(
                op.code(),
                src.source(),
                width.alu_class(),
            ),
            Insn::Neg { width, .. } => operation(NEG, 0, width.alu_class()),
            Insn::MoveSigned { extension, .. } => operation(MOV, 1, extension.class()),
            Insn::ByteSwap { order, .. } => operation(END, order.source(), order.class()),
            Insn::Jump { distance } => operation(JA, 0, distance.class()),
            Insn::JumpIf {
                width,
                condition,
                src,
                ..
            } => operation(condition.code(), src.source(), width.jump_class()),
            Insn::Call { .. } => operation(CALL, 0, JMP),
            Insn::Exit => operation(EXIT, 0, JMP),
            Insn::LoadImmediate { .. } | Insn::LoadMap { .. } => LDDW,
            Insn::Load { size, .. } => access(MEM, size.code(), LDX),
            Insn::LoadSigned { size, .. } => access(MEMSX, size.code(), LDX),
            Insn::Store { size, src, .. } => access(MEM, size.code(), src.store_class()),
            Insn::Atomic { width, .. } => access(ATOMIC, width.size(), STX),
        }
    }

    fn dst(self) -> u8
        ensures value { result ≡ (fields_of self).dst }
        ensures within { result < 11 }
    {
        match self {
            Insn::Alu { dst, .. }
            | Insn::Neg { dst, .. }
            | Insn::MoveSigned { dst, .. }
            | Insn::ByteSwap { dst, .. }
            | Insn::JumpIf { dst, .. }
            | Insn::LoadImmediate { dst, .. }
            | Insn::LoadMap { dst, .. }
            | Insn::Load { dst, .. }
            | Insn::LoadSigned { dst, .. }
            | Insn::Store { dst, .. }
            | Insn::Atomic { dst, .. } => dst.number(),
            Insn::Jump { .. } | Insn::Call { .. } | Insn::Exit => 0,
        }
    }

    fn src(self) -> u8
        ensures value { result ≡ (fields_of self).src }
        ensures within { result < 11 }
    {
        match self {
            Insn::Alu { src, .. } | Insn::JumpIf { src, .. } | Insn::Store { src, .. } =>
                src.number(),
            Insn::MoveSigned { src, .. }
            | Insn::Load { src, .. }
            | Insn::LoadSigned { src, .. }
            | Insn::Atomic { src, .. } => src.number(),
            Insn::LoadMap { .. } => 1,
            _ => 0,
        }
    }

    fn offset(self) -> i16
        ensures { result ≡ (fields_of self).offset }
    {
        match self {
            Insn::Alu { op, .. } => op.offset(),
            Insn::MoveSigned { extension, .. } => extension.bits(),
            Insn::Jump { distance } => distance.offset(),
            Insn::JumpIf { offset, .. }
            | Insn::Load { offset, .. }
            | Insn::LoadSigned { offset, .. }
            | Insn::Store { offset, .. }
            | Insn::Atomic { offset, .. } => offset,
            _ => 0,
        }
    }

    fn immediate(self) -> i32
        ensures { result ≡ (fields_of self).immediate }
    {
        match self {
            Insn::Alu { src, .. } | Insn::JumpIf { src, .. } | Insn::Store { src, .. } =>
                src.immediate(),
            Insn::ByteSwap { size, .. } => size.bits(),
            Insn::Jump { distance } => distance.immediate(),
            Insn::Call { helper } => helper,
            Insn::LoadImmediate { value, .. } => ((value & 0xffff_ffff) as u32).cast_signed(),
            Insn::LoadMap { id, .. } => id.cast_signed(),
            Insn::Atomic { op, .. } => op.immediate(),
            _ => 0,
        }
    }
}
