//! The instruction that fields spell.

ghost use Rattle.std.specs.Prelude.{◌≡◌, ◌+◌, pos, IfSome};
ghost use Rattle.bt_insn.specs.Table.{Spells, Fits};
ghost use Rattle.bt_insn.specs.Opcode.{class_part, code_part, source_part, mode_part};
ghost use Rattle.bt_insn.specs.Classes.{alu_class, jump_class};
ghost use Rattle.bt_insn.specs.Reading.{neg_insn, move_insn, swap_insn, operation_insn, alu_insn, always_insn, call_insn, exit_insn, if_insn, jump_insn, load_insn, signed_insn, store_insn, atomic_insn, wide_insn, narrow_insn};

use crate::alu::{AluOp, ByteOrder, SignExtension, SwapSize};
use crate::codes::{
    ALU, ALU64, ATOMIC, CALL, END, EXIT, JA, JMP, JMP32, LDDW, LDX, MEM, MEMSX, MOV, NEG, ST, STX,
};
use crate::fields::Fields;
use crate::insn::Insn;
use crate::jump::{Condition, Distance};
use crate::load_store::{AtomicOp, SignedSize, Size};
use crate::operand::{Operand, Width};
use crate::register::Register;

/// NEG.
fn neg(width: Width, fields: Fields) -> Option<Insn>
    requires class { class_part fields.opcode ≡ alu_class width }
    requires code { code_part fields.opcode ≡ 8 }
    ensures value { result ≡ neg_insn width fields }
    ensures fits { IfSome result Fits }
    ensures found { IfSome result (λ v. Spells v fields (pos 0)) }
{
    let dst = Register::new(fields.dst)?;
    if fields.source() == 0 && fields.src == 0 && fields.offset == 0 && fields.immediate == 0 {
        Some(Insn::Neg { width, dst })
    } else {
        None
    }
}

/// MOVSX.
fn move_signed(width: Width, fields: Fields) -> Option<Insn>
    requires class { class_part fields.opcode ≡ alu_class width }
    requires code { code_part fields.opcode ≡ 11 }
    requires source { source_part fields.opcode ≡ 1 }
    ensures value { result ≡ move_insn width fields }
    ensures fits { IfSome result Fits }
    ensures found { IfSome result (λ v. Spells v fields (pos 0)) }
{
    let extension = SignExtension::of(width, fields.offset)?;
    let dst = Register::new(fields.dst)?;
    let src = Register::new(fields.src)?;
    if fields.immediate == 0 {
        Some(Insn::MoveSigned {
            extension,
            dst,
            src,
        })
    } else {
        None
    }
}

/// END.
fn byte_swap(width: Width, fields: Fields) -> Option<Insn>
    requires class { class_part fields.opcode ≡ alu_class width }
    requires code { code_part fields.opcode ≡ 13 }
    ensures value { result ≡ swap_insn width fields }
    ensures fits { IfSome result Fits }
    ensures found { IfSome result (λ v. Spells v fields (pos 0)) }
{
    let order = ByteOrder::of(width, fields.source())?;
    let size = SwapSize::of(fields.immediate)?;
    let dst = Register::new(fields.dst)?;
    if fields.src == 0 && fields.offset == 0 {
        Some(Insn::ByteSwap { order, size, dst })
    } else {
        None
    }
}

/// The other codes of arithmetic.
fn operation(width: Width, fields: Fields) -> Option<Insn>
    requires class { class_part fields.opcode ≡ alu_class width }
    ensures value { result ≡ operation_insn width fields }
    ensures fits { IfSome result Fits }
    ensures found { IfSome result (λ v. Spells v fields (pos 0)) }
{
    let op = AluOp::of(fields.code(), fields.offset)?;
    let dst = Register::new(fields.dst)?;
    let src = Operand::of(fields.source(), fields.src, fields.immediate)?;
    Some(Insn::Alu {
        width,
        op,
        dst,
        src,
    })
}

/// Classes ALU and ALU64.
fn alu(width: Width, fields: Fields) -> Option<Insn>
    requires class { class_part fields.opcode ≡ alu_class width }
    ensures value { result ≡ alu_insn width fields }
    ensures fits { IfSome result Fits }
    ensures found { IfSome result (λ v. Spells v fields (pos 0)) }
{
    match fields.code() {
        NEG => neg(width, fields),
        END => byte_swap(width, fields),
        MOV => {
            if fields.source() == 1 && fields.offset != 0 {
                move_signed(width, fields)
            } else {
                operation(width, fields)
            }
        }
        _ => operation(width, fields),
    }
}

/// JA.
fn jump_always(width: Width, fields: Fields) -> Option<Insn>
    requires class { class_part fields.opcode ≡ jump_class width }
    requires code { code_part fields.opcode ≡ 0 }
    ensures value { result ≡ always_insn width fields }
    ensures fits { IfSome result Fits }
    ensures found { IfSome result (λ v. Spells v fields (pos 0)) }
{
    if fields.source() != 0 || fields.dst != 0 || fields.src != 0 {
        return None;
    }
    let distance = Distance::of(width, fields.offset, fields.immediate)?;
    Some(Insn::Jump { distance })
}

/// CALL, in class JMP alone.
fn call(width: Width, fields: Fields) -> Option<Insn>
    requires class { class_part fields.opcode ≡ jump_class width }
    requires code { code_part fields.opcode ≡ 8 }
    ensures value { result ≡ call_insn width fields }
    ensures fits { IfSome result Fits }
    ensures found { IfSome result (λ v. Spells v fields (pos 0)) }
{
    if fields.opcode == 0x85 && fields.dst == 0 && fields.src == 0 && fields.offset == 0 {
        Some(Insn::Call {
            helper: fields.immediate,
        })
    } else {
        None
    }
}

/// EXIT, in class JMP alone.
fn exit(width: Width, fields: Fields) -> Option<Insn>
    requires class { class_part fields.opcode ≡ jump_class width }
    requires code { code_part fields.opcode ≡ 9 }
    ensures value { result ≡ exit_insn width fields }
    ensures fits { IfSome result Fits }
    ensures found { IfSome result (λ v. Spells v fields (pos 0)) }
{
    if fields.opcode == 0x95
        && fields.dst == 0
        && fields.src == 0
        && fields.offset == 0
        && fields.immediate == 0
    {
        Some(Insn::Exit)
    } else {
        None
    }
}

/// The other codes of jumps.
fn jump_if(width: Width, fields: Fields) -> Option<Insn>
    requires class { class_part fields.opcode ≡ jump_class width }
    ensures value { result ≡ if_insn width fields }
    ensures fits { IfSome result Fits }
    ensures found { IfSome result (λ v. Spells v fields (pos 0)) }
{
    let condition = Condition::of(fields.code())?;
    let dst = Register::new(fields.dst)?;
    let src = Operand::of(fields.source(), fields.src, fields.immediate)?;
    Some(Insn::JumpIf {
        width,
        condition,
        dst,
        src,
        offset: fields.offset,
    })
}

/// Classes JMP and JMP32.
fn jump(width: Width, fields: Fields) -> Option<Insn>
    requires class { class_part fields.opcode ≡ jump_class width }
    ensures value { result ≡ jump_insn width fields }
    ensures fits { IfSome result Fits }
    ensures found { IfSome result (λ v. Spells v fields (pos 0)) }
{
    match fields.code() {
        JA => jump_always(width, fields),
        CALL => call(width, fields),
        EXIT => exit(width, fields),
        _ => jump_if(width, fields),
    }
}

/// MEM of class LDX.
fn load(fields: Fields) -> Option<Insn>
    requires class { class_part fields.opcode ≡ 1 }
    requires mode { mode_part fields.opcode ≡ 3 }
    ensures value { result ≡ load_insn fields }
    ensures fits { IfSome result Fits }
    ensures found { IfSome result (λ v. Spells v fields (pos 0)) }
{
    let size = Size::of(fields.size())?;
    let dst = Register::new(fields.dst)?;
    let src = Register::new(fields.src)?;
    if fields.immediate == 0 {
        Some(Insn::Load {
            size,
            dst,
            src,
            offset: fields.offset,
        })
    } else {
        None
    }
}

/// MEMSX of class LDX.
fn load_signed(fields: Fields) -> Option<Insn>
    requires class { class_part fields.opcode ≡ 1 }
    requires mode { mode_part fields.opcode ≡ 4 }
    ensures value { result ≡ signed_insn fields }
    ensures fits { IfSome result Fits }
    ensures found { IfSome result (λ v. Spells v fields (pos 0)) }
{
    let size = SignedSize::of(fields.size())?;
    let dst = Register::new(fields.dst)?;
    let src = Register::new(fields.src)?;
    if fields.immediate == 0 {
        Some(Insn::LoadSigned {
            size,
            dst,
            src,
            offset: fields.offset,
        })
    } else {
        None
    }
}

/// MEM of classes ST, whose source bit is 0 here, and STX.
fn store(source: u8, fields: Fields) -> Option<Insn>
    requires class { class_part fields.opcode ≡ 2 + source }
    requires mode { mode_part fields.opcode ≡ 3 }
    ensures value { result ≡ store_insn source fields }
    ensures fits { IfSome result Fits }
    ensures found { IfSome result (λ v. Spells v fields (pos 0)) }
{
    let size = Size::of(fields.size())?;
    let dst = Register::new(fields.dst)?;
    let src = Operand::of(source, fields.src, fields.immediate)?;
    Some(Insn::Store {
        size,
        dst,
        src,
        offset: fields.offset,
    })
}

/// ATOMIC of class STX.
fn atomic(fields: Fields) -> Option<Insn>
    requires class { class_part fields.opcode ≡ 3 }
    requires mode { mode_part fields.opcode ≡ 6 }
    ensures value { result ≡ atomic_insn fields }
    ensures fits { IfSome result Fits }
    ensures found { IfSome result (λ v. Spells v fields (pos 0)) }
{
    let width = Width::of_size(fields.size())?;
    let op = AtomicOp::of(fields.immediate)?;
    let dst = Register::new(fields.dst)?;
    let src = Register::new(fields.src)?;
    Some(Insn::Atomic {
        width,
        op,
        dst,
        src,
        offset: fields.offset,
    })
}

/// An immediate of 64 bits, of class LD.
fn wide(fields: Fields, high: i32) -> Option<Insn>
    requires opcode { fields.opcode ≡ 0x18 }
    ensures value { result ≡ wide_insn fields high }
    ensures fits { IfSome result Fits }
    ensures found { IfSome result (λ v. Spells v fields high) }
{
    let dst = Register::new(fields.dst)?;
    let low = fields.immediate.cast_unsigned();
    if fields.offset != 0 {
        return None;
    }
    match fields.src {
        0 => {
            let value = u64::from(low) + (u64::from(high.cast_unsigned()) << 32);
            Some(Insn::LoadImmediate { dst, value })
        }
        1 => {
            if high == 0 {
                Some(Insn::LoadMap { dst, id: low })
            } else {
                None
            }
        }
        _ => None,
    }
}

/// An instruction of one slot.
#[tactic(auto, unfolding(crate::specs::Reading::narrow_insn))]
fn narrow(fields: Fields) -> Option<Insn>
    ensures value { result ≡ narrow_insn fields }
    ensures fits { IfSome result Fits }
    ensures found { IfSome result (λ v. Spells v fields (pos 0)) }
{
    match fields.class() {
        LDX => match fields.mode() {
            MEM => load(fields),
            MEMSX => load_signed(fields),
            _ => None,
        },
        ST => match fields.mode() {
            MEM => store(0, fields),
            _ => None,
        },
        STX => match fields.mode() {
            MEM => store(1, fields),
            ATOMIC => atomic(fields),
            _ => None,
        },
        ALU => alu(Width::Word, fields),
        JMP => jump(Width::DoubleWord, fields),
        JMP32 => jump(Width::Word, fields),
        ALU64 => alu(Width::DoubleWord, fields),
        _ => None,
    }
}

impl Fields {
    ghost use Rattle.std.specs.Prelude.{◌≡◌, IfSome};
    ghost use Rattle.bt_insn.specs.Table.{Spells, Fits};
    ghost use Rattle.bt_insn.specs.Reading.{insn_of};

    /// The instruction that the fields of its first slot and the immediate of its second spell.
    #[tactic(auto, unfolding(crate::specs::Reading::insn_of))]
    pub(crate) fn insn(self, high: i32) -> Option<Insn>
        ensures value { result ≡ insn_of self high }
        ensures fits { IfSome result Fits }
        ensures found { IfSome result (λ v. Spells v self high) }
    {
        if self.opcode == LDDW {
            wide(self, high)
        } else if high == 0 {
            narrow(self)
        } else {
            None
        }
    }
}
