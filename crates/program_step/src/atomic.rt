//! Atomic operations.

ghost use Rattle.std.specs.Prelude.{◌≡◌};
ghost use Rattle.program_step.specs.Atomic as atomic;

use crate::machine::{Machine, ask, stop};
use crate::memory::moved;
use crate::outcome::Outcome;
use bt_insn::{AtomicOp as Asked, Register, Size, Width};
use bt_mapkind::{AtomicOp, AtomicSize};
use program_access::Access;
use program_alu::low_half;
use program_machine::{Kind, Reason};

/// What is done, with what R0 is.
pub(crate) fn op_of(op: Asked, r0: u64) -> AtomicOp
    ensures { result ≡ atomic.op_of op r0 }
{
    match op {
        Asked::Add => AtomicOp::Add { fetch: false },
        Asked::Or => AtomicOp::Or { fetch: false },
        Asked::And => AtomicOp::And { fetch: false },
        Asked::Xor => AtomicOp::Xor { fetch: false },
        Asked::FetchAdd => AtomicOp::Add { fetch: true },
        Asked::FetchOr => AtomicOp::Or { fetch: true },
        Asked::FetchAnd => AtomicOp::And { fetch: true },
        Asked::FetchXor => AtomicOp::Xor { fetch: true },
        Asked::Exchange => AtomicOp::Exchange,
        Asked::CompareExchange => AtomicOp::CompareExchange { expected: r0 },
    }
}

/// The register that gets what stood there.
pub(crate) fn fetches_into(op: Asked, src: Register) -> Option<Register>
    ensures { result ≡ atomic.fetches_into op src }
{
    match op {
        Asked::Add | Asked::Or | Asked::And | Asked::Xor => None,
        Asked::CompareExchange => Some(Register::R0),
        _ => Some(src),
    }
}

fn size_of(width: Width) -> Size
    ensures { result ≡ atomic.size_of width }
{
    match width {
        Width::Word => Size::Word,
        Width::DoubleWord => Size::DoubleWord,
    }
}

fn atomic_size(width: Width) -> AtomicSize
    ensures { result ≡ atomic.atomic_size width }
{
    match width {
        Width::Word => AtomicSize::Word,
        Width::DoubleWord => AtomicSize::DoubleWord,
    }
}

fn after(width: Width, op: AtomicOp, old: u64, operand: u64) -> u64
    ensures { result ≡ atomic.after width op old operand }
{
    match width {
        Width::Word => u64::from(op.combined_word(low_half(old), operand)),
        Width::DoubleWord => op.combined(old, operand),
    }
}

impl Machine {
    ghost use Rattle.std.specs.Prelude.{◌≡◌};
    ghost use Rattle.bt_insn.specs.declared.register.Register.TheVariants.{R0};
    ghost use Rattle.program_machine.specs.Held as values;
    ghost use Rattle.program_machine.specs.Stack as stacks;
    ghost use Rattle.program_step.specs.Atomic as atomic;
    ghost use Rattle.program_step.specs.Flow.{flow_of};
    ghost use Rattle.program_step.specs.Machine as spec;

    // What R0 is, if it is a number or is not compared with.
    fn expected(&self, op: Asked) -> Option<u64>
        ensures { result ≡ atomic.expected_of op (spec.register self.now R0) }
    {
        match (op, self.kind(Register::R0)) {
            (Asked::CompareExchange, Kind::Number(number)) => Some(number),
            (Asked::CompareExchange, _) => None,
            _ => Some(0),
        }
    }

    /// The register gets what stood there.
    pub(crate) fn fetch(&mut self, into: Option<Register>, old: u64)
        ensures { self.new ≡ atomic.fetched self.old into old }
    {
        if let Some(dst) = into {
            self.set(dst, Kind::Number(old));
        }
    }

    fn atomic_on_stack(
        &mut self,
        width: Width,
        op: AtomicOp,
        into: Option<Register>,
        position: u64,
        operand: u64,
        outcome: &mut Outcome,
    ) -> bool
        ensures { spec.moving_on self.old (flow_of result outcome.new) self.new ≡ atomic.on_stack self.old width op into position operand (stacks.number_in self.old.stack position (atomic.size_of width)) }
    {
        let old = match self.stack.number(position, size_of(width)) {
            Ok(old) => old,
            Err(reason) => return stop(outcome, reason),
        };
        let new = after(width, op, old, operand);
        match self.stack.store(position, size_of(width), new) {
            Ok(()) => {
                self.fetch(into, old);
                true
            }
            Err(reason) => stop(outcome, reason),
        }
    }

    fn atomic_access(
        &self,
        dst: Register,
        map: u32,
        position: u64,
        width: Width,
        op: AtomicOp,
        operand: u64,
    ) -> Access
        ensures { result ≡ Access.Atomic map (values.key_of (spec.register self.now dst)) position (atomic.atomic_size width) op operand }
    {
        Access::Atomic {
            map,
            key: self.key(dst),
            offset: position,
            size: atomic_size(width),
            op,
            operand,
        }
    }

    fn atomic_with(
        &mut self,
        width: Width,
        op: AtomicOp,
        into: Option<Register>,
        dst: Register,
        operand: u64,
        offset: i16,
        outcome: &mut Outcome,
    ) -> bool
        ensures { spec.moving_on self.old (flow_of result outcome.new) self.new ≡ atomic.with_numbers self.old width op into (spec.register self.old dst) operand offset }
    {
        match self.kind(dst) {
            Kind::Stack(position) => {
                self.atomic_on_stack(width, op, into, moved(position, offset), operand, outcome)
            }
            Kind::Value { map, position } => {
                ask(
                    outcome,
                    self.atomic_access(dst, map, moved(position, offset), width, op, operand),
                )
            }
            _ => stop(outcome, Reason::WrongKind),
        }
    }

    /// Reads and writes a number of 4 or 8 bytes of the stack or a value at once.
    #[inline(never)]
    pub(crate) fn atomic(
        &mut self,
        width: Width,
        op: Asked,
        dst: Register,
        src: Register,
        offset: i16,
        outcome: &mut Outcome,
    ) -> bool
        ensures { spec.moving_on self.old (flow_of result outcome.new) self.new ≡ atomic.atomic self.old width op (spec.register self.old dst) src offset }
    {
        match (self.kind(src), self.expected(op)) {
            (Kind::Number(operand), Some(expected)) => self.atomic_with(
                width,
                op_of(op, expected),
                fetches_into(op, src),
                dst,
                operand,
                offset,
                outcome,
            ),
            _ => stop(outcome, Reason::WrongKind),
        }
    }
}
