//! The machine.

ghost use Rattle.std.specs.Prelude.{◌≡◌};
ghost use Rattle.program_step.specs.Flow.{Stop, flow_of};

use crate::outcome::{Action, Outcome};
use bt_insn::{Operand, Register};
use bt_mapkind::Bytes;
use program_access::Access;
use program_alu::immediate;
use program_machine::{Frame, Holder, Kind, Reason, Registers, Stack};

/// What a program works on: eleven registers, the stack, the frame with the interface at which it came in; and the slot
/// of the instruction that is next, the instructions done, those of them that earlier programs of the run did, and the
/// tail calls that found a program.
#[derive(Drop)]
pub struct Machine {
    pub(crate) registers: Registers,
    pub(crate) stack: Stack,
    pub(crate) frame: Frame,
    pub(crate) ifindex: u32,
    pub place: usize,
    pub steps: u32,
    pub earlier: u32,
    pub(crate) tail_calls: u32,
}

impl Machine {
    ghost use Rattle.std.specs.Prelude.{◌≡◌, ◌<◌, ◌^◌, ◌+◌, true, []};
    ghost use Rattle.program_machine.specs.Held as values;
    ghost use Rattle.program_step.specs.Machine as spec;
    ghost use Rattle.program_step.specs.Start as starts;

    /// The machine at the start of a program.
    pub fn new(ifindex: u32, frame: Frame) -> Machine
        ensures { result ≡ starts.first_machine ifindex frame }
    {
        let mut registers = Registers::new();
        registers.set(1, Kind::Context);
        registers.set(10, Kind::Stack(512));
        Machine {
            registers,
            stack: Stack::new(),
            frame,
            ifindex,
            place: 0,
            steps: 0,
            earlier: 0,
            tail_calls: 0,
        }
    }

    /// Makes it the machine at the start of a program, in the room that it has.
    pub fn begin(&mut self, ifindex: u32, frame: Frame)
        ensures { self.new ≡ starts.first_machine ifindex frame }
    {
        self.registers.clear_all();
        self.registers.set(1, Kind::Context);
        self.registers.set(10, Kind::Stack(512));
        self.stack.clear_all();
        self.frame = frame;
        self.ifindex = ifindex;
        self.place = 0;
        self.steps = 0;
        self.earlier = 0;
        self.tail_calls = 0;
    }

    #[inline(always)]
    pub(crate) fn kind(&self, register: Register) -> Kind
        ensures { result ≡ values.kind_of (spec.register self.now register) }
    {
        self.registers.kind(register.index())
    }

    /// The number that a register holds, if it is one.
    #[inline(always)]
    pub fn number(&self, register: Register) -> Option<u64>
        ensures { result ≡ values.number_of (spec.register self.now register) }
    {
        self.registers.number(register.index())
    }

    /// The position of the pointer into the stack that a register holds, if it is one.
    #[inline(always)]
    pub(crate) fn stack_position(&self, register: Register) -> Option<u64>
        ensures { result ≡ values.stack_position_of (spec.register self.now register) }
    {
        self.registers.stack_position(register.index())
    }

    #[inline(always)]
    pub(crate) fn kind_of_operand(&self, operand: Operand) -> Kind
        ensures { result ≡ values.kind_of (spec.operand self.now operand) }
    {
        match operand {
            Operand::Immediate(number) => Kind::Number(immediate(number)),
            Operand::Register(register) => self.kind(register),
        }
    }

    /// What an operand is, in a holder of its own.
    pub(crate) fn operand(&self, operand: Operand) -> Holder
        ensures { result ≡ spec.operand self.now operand }
    {
        match operand {
            Operand::Immediate(number) => Holder::new(immediate(number)),
            Operand::Register(register) => self.registers.get(register.index()),
        }
    }

    /// The key of the pointer that a register holds.
    pub(crate) fn key(&self, register: Register) -> Bytes
        ensures { result ≡ values.key_of (spec.register self.now register) }
    {
        let key = self.registers.key(register.index());
        Bytes::of(self.frame.allocator(), key).unwrap()
    }

    #[inline(always)]
    pub(crate) fn set(&mut self, dst: Register, kind: Kind)
        requires { values.is_bare kind ≡ true }
        ensures { self.new ≡ spec.setting self.old dst (values.held kind []) }
    {
        self.registers.set(dst.index(), kind);
    }

    #[inline(always)]
    pub(crate) fn set_number(&mut self, dst: Register, number: u64)
        ensures { self.new ≡ spec.setting self.old dst (values.Number number) }
    {
        self.registers.set_number(dst.index(), number);
    }

    /// The instruction is done that stands in this slot, when so many were done before it: the next one stands so many
    /// slots further.
    #[inline(always)]
    pub(crate) fn go(&mut self, place: usize, steps: u32, slots: usize)
        requires steps { steps < 2 ^ 31 }
        requires place { place + slots < 2 ^ 63 }
        ensures { self.new ≡ spec.at_place self.old (place + slots) (steps + 1) }
    {
        self.place = place + slots;
        self.steps = steps + 1;
    }
}

/// The run is aborted.
#[inline(always)]
pub(crate) fn stop(outcome: &mut Outcome, reason: Reason) -> bool
    ensures { flow_of result outcome.new ≡ Stop (Outcome.Abort reason) }
{
    *outcome = Outcome::Abort(reason);
    false
}

/// The run asks this.
#[inline(always)]
pub(crate) fn ask(outcome: &mut Outcome, access: Access) -> bool
    ensures { flow_of result outcome.new ≡ Stop (Outcome.Access access) }
{
    *outcome = Outcome::Access(access);
    false
}

/// The run has ended with this action.
#[inline(always)]
pub(crate) fn end(outcome: &mut Outcome, action: Action) -> bool
    ensures { flow_of result outcome.new ≡ Stop (Outcome.Done action) }
{
    *outcome = Outcome::Done(action);
    false
}
