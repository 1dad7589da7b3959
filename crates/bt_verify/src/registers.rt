//! Which registers an instruction reads, writes and leaves unwritten, a bit each.

ghost use Rattle.std.specs.Prelude.{◌≡◌, ◌^◌, ◌<◌, bit_or};
ghost use Rattle.bt_verify.specs.Registers as sets;
ghost use Rattle.bt_verify.specs.Helper.{helper_of};

use crate::helper::Helper;
use bt_insn::{AluOp, AtomicOp, Insn, Operand, Register};

fn just(register: Register) -> u16
    ensures value { result ≡ sets.just register }
    ensures few { result < 2 ^ 11 }
{
    1 << register.index()
}

#[tactic(auto, using(std::proofs::lemmas::Nat::or_lt))]
fn both(register: Register, other: Register) -> u16
    ensures value { result ≡ sets.both register other }
    ensures few { result < 2 ^ 11 }
{
    just(register) | just(other)
}

fn in_operand(operand: Operand) -> u16
    ensures value { result ≡ sets.in_operand operand }
    ensures few { result < 2 ^ 11 }
{
    match operand {
        Operand::Immediate(_) => 0,
        Operand::Register(register) => just(register),
    }
}

#[tactic(auto, using(std::proofs::lemmas::Nat::or_lt))]
fn with_operand(register: Register, operand: Operand) -> u16
    ensures value { result ≡ sets.with_operand register operand }
    ensures few { result < 2 ^ 11 }
{
    just(register) | in_operand(operand)
}

fn read_by(helper: Option<Helper>) -> u16
    ensures value { result ≡ sets.read_by helper }
    ensures few { result < 2 ^ 11 }
{
    match helper {
        None => 0,
        Some(helper) => helper.arguments(),
    }
}

fn alu_reads(op: AluOp, dst: Register, src: Operand) -> u16
    ensures value { result ≡ sets.alu_reads op dst src }
    ensures few { result < 2 ^ 11 }
{
    match op {
        AluOp::Mov => in_operand(src),
        _ => with_operand(dst, src),
    }
}

#[tactic(auto, using(std::proofs::lemmas::Nat::or_lt))]
fn atomic_reads(op: AtomicOp, dst: Register, src: Register) -> u16
    ensures value { result ≡ sets.atomic_reads op dst src }
    ensures few { result < 2 ^ 11 }
{
    match op {
        AtomicOp::CompareExchange => both(dst, src) | 1,
        _ => both(dst, src),
    }
}

fn atomic_writes(op: AtomicOp, src: Register) -> u16
    ensures value { result ≡ sets.atomic_writes op src }
    ensures few { result < 2 ^ 11 }
{
    match op {
        AtomicOp::Add | AtomicOp::Or | AtomicOp::And | AtomicOp::Xor => 0,
        AtomicOp::CompareExchange => 1,
        _ => just(src),
    }
}

/// The registers that the instruction reads.
pub(crate) fn reads(insn: Insn) -> u16
    ensures value { result ≡ sets.reads insn }
    ensures few { result < 2 ^ 11 }
{
    match insn {
        Insn::Alu { op, dst, src, .. } => alu_reads(op, dst, src),
        Insn::Neg { dst, .. } | Insn::ByteSwap { dst, .. } => just(dst),
        Insn::MoveSigned { src, .. } | Insn::Load { src, .. } | Insn::LoadSigned { src, .. } => {
            just(src)
        }
        Insn::JumpIf { dst, src, .. } | Insn::Store { dst, src, .. } => with_operand(dst, src),
        Insn::Call { helper } => read_by(Helper::new(helper)),
        Insn::Exit => 1,
        Insn::Atomic { op, dst, src, .. } => atomic_reads(op, dst, src),
        Insn::Jump { .. } | Insn::LoadImmediate { .. } | Insn::LoadMap { .. } => 0,
    }
}

/// The registers that it writes.
pub(crate) fn writes(insn: Insn) -> u16
    ensures value { result ≡ sets.writes insn }
    ensures few { result < 2 ^ 11 }
{
    match insn {
        Insn::Alu { dst, .. }
        | Insn::Neg { dst, .. }
        | Insn::MoveSigned { dst, .. }
        | Insn::ByteSwap { dst, .. }
        | Insn::LoadImmediate { dst, .. }
        | Insn::LoadMap { dst, .. }
        | Insn::Load { dst, .. }
        | Insn::LoadSigned { dst, .. } => just(dst),
        Insn::Call { .. } => 1,
        Insn::Atomic { op, src, .. } => atomic_writes(op, src),
        Insn::Jump { .. } | Insn::JumpIf { .. } | Insn::Exit | Insn::Store { .. } => 0,
    }
}

/// The registers that it does not leave unwritten.
pub(crate) fn keeps(insn: Insn) -> u16
    ensures { result ≡ sets.keeps insn }
{
    match insn {
        Insn::Call { .. } => 0xffff - 0b11_1110,
        _ => 0xffff,
    }
}
