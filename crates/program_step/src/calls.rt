//! Calls of helper functions, and how many tail calls a run may make.

ghost use Rattle.std.specs.Prelude.{◌≡◌, ◌<◌};
ghost use Rattle.program_step.specs.Calls as calls;

use crate::machine::{Machine, ask, stop};
use crate::outcome::Outcome;
use bt_insn::Register;
use bt_mapkind::{Bytes, MapType};
use bt_verify::Helper;
use program_access::Access;
use program_alu::low_half;
use program_machine::{Kind, MapHandle, Reason, STACK_SIZE, lie_within};

/// How many tail calls of a run may find a program. `restart` in `answers.rt` counts them. In `specs/`, `fetch` of `Calls` and
/// `start` of `Answers` have the number.
pub const MAX_TAIL_CALLS: u32 = 33;

fn is_keyed(kind: MapType) -> bool
    ensures { result ≡ calls.is_keyed kind }
{
    match kind {
        MapType::Array | MapType::Hash | MapType::LpmTrie => true,
        _ => false,
    }
}

fn is_outer(kind: MapType) -> bool
    ensures { result ≡ calls.is_outer kind }
{
    match kind {
        MapType::ArrayOfMaps | MapType::HashOfMaps => true,
        _ => false,
    }
}

fn is_line(kind: MapType) -> bool
    ensures { result ≡ calls.is_line kind }
{
    match kind {
        MapType::Queue | MapType::Stack => true,
        _ => false,
    }
}

/// What R0 is for an error.
pub(crate) fn negative(errno: u32) -> u64
    requires { 0 < errno }
    ensures { result ≡ calls.negative errno }
{
    u64::MAX - u64::from(errno) + 1
}

impl Machine {
    ghost use Rattle.std.specs.Prelude.{◌≡◌, Ok, Err, MatchResult};
    ghost use Rattle.bt_insn.specs.declared.register.Register.TheVariants.{R1, R2, R3, R4};
    ghost use Rattle.program_machine.specs.Held as values;
    ghost use Rattle.program_step.specs.Calls as calls;
    ghost use Rattle.program_step.specs.Flow.{flow_of};
    ghost use Rattle.program_step.specs.Machine as spec;

    // The bytes to which a register points.
    fn argument(&self, register: Register, count: u32) -> Result<Bytes, Reason>
        ensures { result ≡ calls.argument self.now register count }
    {
        let read = match self.kind(register) {
            Kind::Stack(position) => self.stack.read(position, count as usize),
            Kind::Frame(position) => self.frame.read(position, count as usize),
            _ => Err(Reason::WrongKind),
        };
        match read {
            Ok(bytes) => match Bytes::of(self.frame.allocator(), bytes) {
                Some(bytes) => Ok(bytes),
                None => Err(Reason::OutOfRange),
            },
            Err(reason) => Err(reason),
        }
    }

    // Why so many bytes cannot be written where a register points, if so.
    fn room(&self, register: Register, count: u32) -> Option<Reason>
        ensures { result ≡ calls.room self.now (spec.register self.now register) count }
    {
        let (size, position) = match self.kind(register) {
            Kind::Stack(position) => (STACK_SIZE, position),
            Kind::Frame(position) => (self.frame.len(), position),
            _ => return Some(Reason::WrongKind),
        };
        if lie_within(size, position, count as usize) {
            None
        } else {
            Some(Reason::OutOfRange)
        }
    }

    fn lookup(&mut self, outcome: &mut Outcome) -> bool
        ensures { spec.moving_on self.old (flow_of result outcome.new) self.new ≡ calls.lookup self.old (spec.register self.old R1) }
    {
        let Kind::Map(map) = self.kind(Register::R1) else {
            return stop(outcome, Reason::WrongKind);
        };
        if !is_keyed(map.kind) && !is_outer(map.kind) {
            return stop(outcome, Reason::WrongKind);
        }
        match self.argument(Register::R2, map.key_size) {
            Ok(key) => ask(
                outcome,
                Access::Lookup {
                    map: map.id,
                    key,
                    outer: is_outer(map.kind),
                },
            ),
            Err(reason) => stop(outcome, reason),
        }
    }

    fn update_with(&mut self, map: MapHandle, outcome: &mut Outcome) -> bool
        ensures { spec.moving_on self.old (flow_of result outcome.new) self.new ≡ calls.update_with self.old map (calls.argument self.old R2 map.key_size) (calls.argument self.old R3 map.value_size) (spec.register self.old R4) }
    {
        let key = match self.argument(Register::R2, map.key_size) {
            Ok(key) => key,
            Err(reason) => return stop(outcome, reason),
        };
        let value = match self.argument(Register::R3, map.value_size) {
            Ok(value) => value,
            Err(reason) => return stop(outcome, reason),
        };
        match self.kind(Register::R4) {
            Kind::Number(flag) => ask(
                outcome,
                Access::Update {
                    map: map.id,
                    key,
                    value,
                    flag,
                },
            ),
            _ => stop(outcome, Reason::WrongKind),
        }
    }

    fn update(&mut self, outcome: &mut Outcome) -> bool
        ensures { spec.moving_on self.old (flow_of result outcome.new) self.new ≡ calls.update self.old (spec.register self.old R1) }
    {
        match self.kind(Register::R1) {
            Kind::Map(map) if is_keyed(map.kind) => self.update_with(map, outcome),
            _ => stop(outcome, Reason::WrongKind),
        }
    }

    fn delete(&mut self, outcome: &mut Outcome) -> bool
        ensures { spec.moving_on self.old (flow_of result outcome.new) self.new ≡ calls.delete self.old (spec.register self.old R1) }
    {
        match self.kind(Register::R1) {
            Kind::Map(map) if is_keyed(map.kind) => {
                match self.argument(Register::R2, map.key_size) {
                    Ok(key) => ask(outcome, Access::Delete { map: map.id, key }),
                    Err(reason) => stop(outcome, reason),
                }
            }
            _ => stop(outcome, Reason::WrongKind),
        }
    }

    fn push_with(&mut self, map: MapHandle, outcome: &mut Outcome) -> bool
        ensures { spec.moving_on self.old (flow_of result outcome.new) self.new ≡ calls.push_with self.old map (calls.argument self.old R2 map.value_size) (spec.register self.old R3) }
    {
        let value = match self.argument(Register::R2, map.value_size) {
            Ok(value) => value,
            Err(reason) => return stop(outcome, reason),
        };
        match self.kind(Register::R3) {
            Kind::Number(flag) => ask(
                outcome,
                Access::Push {
                    map: map.id,
                    value,
                    flag,
                },
            ),
            _ => stop(outcome, Reason::WrongKind),
        }
    }

    fn push(&mut self, outcome: &mut Outcome) -> bool
        ensures { spec.moving_on self.old (flow_of result outcome.new) self.new ≡ calls.push self.old (spec.register self.old R1) }
    {
        match self.kind(Register::R1) {
            Kind::Map(map) if is_line(map.kind) => self.push_with(map, outcome),
            _ => stop(outcome, Reason::WrongKind),
        }
    }

    fn pop(&mut self, outcome: &mut Outcome) -> bool
        ensures { spec.moving_on self.old (flow_of result outcome.new) self.new ≡ calls.pop self.old (spec.register self.old R1) }
    {
        match self.kind(Register::R1) {
            Kind::Map(map) if is_line(map.kind) => match self.room(Register::R2, map.value_size) {
                None => ask(
                    outcome,
                    Access::Pop {
                        map: map.id,
                        value_size: map.value_size,
                    },
                ),
                Some(reason) => stop(outcome, reason),
            },
            _ => stop(outcome, Reason::WrongKind),
        }
    }

    fn peek(&mut self, outcome: &mut Outcome) -> bool
        ensures { spec.moving_on self.old (flow_of result outcome.new) self.new ≡ calls.peek self.old (spec.register self.old R1) }
    {
        match self.kind(Register::R1) {
            Kind::Map(map) if is_line(map.kind) => match self.room(Register::R2, map.value_size) {
                None => ask(
                    outcome,
                    Access::Peek {
                        map: map.id,
                        value_size: map.value_size,
                    },
                ),
                Some(reason) => stop(outcome, reason),
            },
            _ => stop(outcome, Reason::WrongKind),
        }
    }

    fn fetch_program(&mut self, map: MapHandle, index: u64, outcome: &mut Outcome) -> bool
        ensures { spec.moving_on self.old (flow_of result outcome.new) self.new ≡ calls.fetch self.old map index }
    {
        if self.tail_calls < MAX_TAIL_CALLS {
            return ask(
                outcome,
                Access::Fetch {
                    map: map.id,
                    index: low_half(index),
                },
            );
        }
        self.set(Register::R0, Kind::Number(negative(2)));
        true
    }

    fn tail_call(&mut self, outcome: &mut Outcome) -> bool
        ensures { spec.moving_on self.old (flow_of result outcome.new) self.new ≡ calls.tail_call self.old (spec.register self.old R1) (spec.register self.old R2) (spec.register self.old R3) }
    {
        let Kind::Context = self.kind(Register::R1) else {
            return stop(outcome, Reason::WrongKind);
        };
        match (self.kind(Register::R2), self.kind(Register::R3)) {
            (Kind::Map(map), Kind::Number(index)) if map.kind == MapType::ProgArray => {
                self.fetch_program(map, index, outcome)
            }
            _ => stop(outcome, Reason::WrongKind),
        }
    }

    /// Tests the arguments of a helper in the order of their registers, and asks what it is to do.
    #[inline(never)]
    pub(crate) fn call(&mut self, helper: Option<Helper>, outcome: &mut Outcome) -> bool
        ensures { spec.moving_on self.old (flow_of result outcome.new) self.new ≡ calls.call self.old helper }
    {
        match helper {
            Some(Helper::MapLookupElem) => self.lookup(outcome),
            Some(Helper::MapUpdateElem) => self.update(outcome),
            Some(Helper::MapDeleteElem) => self.delete(outcome),
            Some(Helper::TailCall) => self.tail_call(outcome),
            Some(Helper::MapPushElem) => self.push(outcome),
            Some(Helper::MapPopElem) => self.pop(outcome),
            Some(Helper::MapPeekElem) => self.peek(outcome),
            None => stop(outcome, Reason::WrongKind),
        }
    }
}
