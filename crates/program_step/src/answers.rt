//! What the reply to an access does to the machine: to a tail call it starts another program, and counts it.

ghost use Rattle.std.specs.Prelude.{◌≡◌, ◌≤◌, replicate};
ghost use Rattle.program_step.specs.Answers as answers;

use crate::atomic::fetches_into;
use crate::calls::{MAX_TAIL_CALLS, negative};
use crate::machine::Machine;
use crate::memory::extension_of;
use crate::outcome::Answered;
use bt_insn::{Insn, Register};
use bt_mapkind::{Errno, MapAttr};
use bt_verify::{Helper, Program};
use program_access::{AccessReply, Expected};
use program_alu::extended;
use program_machine::{Kind, MapHandle, Reason};

/// A map with these attributes, as a register holds it.
pub(crate) fn handle(id: u32, attr: MapAttr) -> MapHandle
    ensures { result ≡ answers.handle id attr }
{
    MapHandle {
        id,
        kind: attr.kind,
        key_size: attr.key_size,
        value_size: attr.value_size,
    }
}

fn takes(helper: Option<Helper>) -> bool
    ensures { result ≡ answers.takes helper }
{
    match helper {
        Some(Helper::MapPopElem) | Some(Helper::MapPeekElem) => true,
        _ => false,
    }
}

// So many bytes of those that are zero.
fn first_zeros(zeros: &[u8], count: usize) -> &[u8]
    requires zero { zeros.now ≡ replicate 260 0 }
    requires count { count ≤ 260 }
    ensures { result.now ≡ replicate count 0 }
{
    &zeros[..count]
}

impl Machine {
    ghost use Rattle.std.specs.Prelude.{◌≡◌, ◌<◌, ◌^◌, ◌≤◌, true, length, []};
    ghost use Rattle.bt_insn.specs.declared.register.Register.TheVariants.{R0, R1, R2};
    ghost use Rattle.program_machine.specs.Held as values;
    ghost use Rattle.program_step.specs.Answers as answers;
    ghost use Rattle.program_step.specs.Machine as spec;

    fn gets(&mut self, dst: Register, kind: Kind) -> Answered
        requires bare { values.is_bare kind ≡ true }
        ensures { answers.moving_on self.old result self.new ≡ answers.gets self.old dst (values.held kind []) }
    {
        self.set(dst, kind);
        Answered::Next
    }

    fn gives(&mut self, number: u64) -> Answered
        ensures { answers.moving_on self.old result self.new ≡ answers.gives self.old number }
    {
        self.gets(Register::R0, Kind::Number(number))
    }

    // Writes bytes where a register points, and gives a number.
    fn give_bytes(&mut self, bytes: &[u8], number: u64) -> Answered
        ensures { answers.moving_on self.old result self.new ≡ answers.gives_after self.old (answers.written self.old (spec.register self.old R2) bytes.now) number }
    {
        let written = match self.kind(Register::R2) {
            Kind::Stack(position) => self.stack.write(position, bytes),
            Kind::Frame(position) => self.frame.write(position, bytes),
            _ => Err(Reason::WrongKind),
        };
        match written {
            Ok(()) => self.gives(number),
            Err(reason) => Answered::End(reason),
        }
    }

    // Leaves zero bytes in place of a value.
    fn give_none(&mut self) -> Answered
        ensures { answers.moving_on self.old result self.new ≡ answers.after_errno self.old true Errno.ENOENT }
    {
        match self.kind(Register::R1) {
            Kind::Map(map) if map.value_size <= 260 => {
                let zeros = [0; 260];
                let zeros = first_zeros(&zeros, map.value_size as usize);
                self.give_bytes(zeros, negative(Errno::ENOENT.number()))
            }
            Kind::Map(_) => Answered::End(Reason::OutOfRange),
            _ => Answered::End(Reason::WrongKind),
        }
    }

    fn answer_errno(&mut self, helper: Option<Helper>, errno: Errno) -> Answered
        ensures { answers.moving_on self.old result self.new ≡ answers.after_errno self.old (answers.takes helper) errno }
    {
        if errno == Errno::ENOENT && takes(helper) {
            self.give_none()
        } else {
            self.gives(negative(errno.number()))
        }
    }

    fn answer_stored(&mut self, insn: Insn) -> Answered
        ensures { answers.moving_on self.old result self.new ≡ answers.with_stored insn self.old }
    {
        match insn {
            Insn::Store { .. } | Insn::Atomic { .. } => Answered::Next,
            _ => Answered::End(Reason::WrongReply),
        }
    }

    fn answer_number(&mut self, insn: Insn, number: u64) -> Answered
        ensures { answers.moving_on self.old result self.new ≡ answers.with_number insn self.old number }
    {
        match insn {
            Insn::Load { dst, .. } => self.gets(dst, Kind::Number(number)),
            Insn::LoadSigned { size, dst, .. } => {
                self.gets(dst, Kind::Number(extended(extension_of(size), number)))
            }
            Insn::Atomic { op, src, .. } => {
                self.fetch(fetches_into(op, src), number);
                Answered::Next
            }
            _ => Answered::End(Reason::WrongReply),
        }
    }

    fn answer_key(&mut self, key: &[u8]) -> Answered
        requires key { length key.now ≤ 260 }
        ensures { answers.moving_on self.old result self.new ≡ answers.with_key self.old (spec.register self.old R1) key.now }
    {
        match self.kind(Register::R1) {
            Kind::Map(map) => {
                self.registers.point(0, map.id, key, 0);
                Answered::Next
            }
            _ => Answered::End(Reason::WrongReply),
        }
    }

    // Begins another program, and counts its tail call.
    fn restart(&mut self)
        requires steps { self.old.steps < 2 ^ 31 }
        requires tail_calls { self.old.tail_calls < 2 ^ 31 }
        ensures { self.new ≡ answers.restarted self.old }
    {
        self.set(Register::R1, Kind::Context);
        self.stack.clear_all();
        self.place = 0;
        self.steps += 1;
        self.earlier = self.steps;
        self.tail_calls += 1;
    }

    // Begins the program that a tail call found, unless as many have begun as may.
    fn start(&mut self, program: Program) -> Answered
        requires { self.old.steps < 2 ^ 31 }
        ensures { answers.moving_on self.old result self.new ≡ answers.start self.old program }
    {
        if self.tail_calls >= MAX_TAIL_CALLS {
            return Answered::End(Reason::WrongReply);
        }
        self.restart();
        Answered::Start(program)
    }

    // What a reply to a helper does.
    fn answer_call(&mut self, helper: Option<Helper>, reply: AccessReply) -> Answered
        requires { self.old.steps < 2 ^ 31 }
        ensures { answers.moving_on self.old result self.new ≡ answers.called helper self.old reply }
    {
        match reply {
            AccessReply::Gone => Answered::End(Reason::Gone),
            AccessReply::Refused => Answered::End(Reason::Refused),
            AccessReply::Errno(errno) => self.answer_errno(helper, errno),
            AccessReply::Done | AccessReply::Nothing => self.gives(0),
            AccessReply::Found(key) => self.answer_key(key.as_slice()),
            AccessReply::Map(id, attr) => self.gets(Register::R0, Kind::Map(handle(id, attr))),
            AccessReply::Value(value) => self.give_bytes(value.as_slice(), 0),
            AccessReply::Prog(None) => self.gives(negative(2)),
            AccessReply::Prog(Some(program)) => self.start(program),
            AccessReply::OutOfRange | AccessReply::Number(_) => Answered::End(Reason::WrongReply),
        }
    }

    // What a reply to a load, a store or an atomic operation does.
    fn answer_pointer(&mut self, insn: Insn, reply: AccessReply) -> Answered
        ensures { answers.moving_on self.old result self.new ≡ answers.followed insn self.old reply }
    {
        match reply {
            AccessReply::Gone => Answered::End(Reason::Gone),
            AccessReply::OutOfRange => Answered::End(Reason::OutOfRange),
            AccessReply::Refused => Answered::End(Reason::Refused),
            AccessReply::Done => self.answer_stored(insn),
            AccessReply::Number(number) => self.answer_number(insn, number),
            _ => Answered::End(Reason::WrongReply),
        }
    }

    // What a reply that fits does.
    fn answer(&mut self, insn: Insn, reply: AccessReply) -> Answered
        requires { self.old.steps < 2 ^ 31 }
        ensures { answers.moving_on self.old result self.new ≡ answers.answered insn self.old reply }
    {
        match insn {
            Insn::Call { helper } => self.answer_call(Helper::new(helper), reply),
            _ => self.answer_pointer(insn, reply),
        }
    }

    /// Takes the reply to what the instruction asked. One that does not fit ends the run.
    pub fn reply(&mut self, insn: Insn, expected: Expected, reply: AccessReply) -> Answered
        requires steps { self.old.steps < 2 ^ 31 }
        requires place { self.old.place < 4096 }
        ensures { (result, self.new) ≡ answers.replied insn expected self.old reply }
    {
        if !expected.fits(&reply) {
            return Answered::End(Reason::WrongReply);
        }
        let (place, steps) = (self.place, self.steps);
        let answered = self.answer(insn, reply);
        if let Answered::Next = answered {
            self.go(place, steps, 1);
        }
        answered
    }
}
