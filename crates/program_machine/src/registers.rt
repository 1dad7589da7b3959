//! The registers.

use crate::holder::Holder;
use crate::key::Key;
use crate::kind::Kind;
use std::marker::Model;

/// Where the value of a register stands: a number or the position of a pointer into the stack by itself, any other value
/// as a kind with a key.
#[derive(Clone, Copy)]
pub(crate) enum Sort {
    Number,
    Stack,
    Other,
}

/// Eleven values. Numbers and positions in the stack, with which programs work most, stand apart from the others, so that
/// each is told by one byte and reached without its kind; the keys of pointers to maps' values stand apart too.
#[derive(Drop)]
pub struct Registers {
    sorts: [Sort; 11],
    numbers: [u64; 11],
    kinds: [Kind; 11],
    keys: [Key; 11],
}

impl Model for Registers {
    ghost use Rattle.std.specs.Prelude.{◌≡◌, List, length};
    ghost use Rattle.program_machine.specs.Held.{Held};
    ghost use Rattle.program_machine.specs.Sorts.{AreApart, seen_all};

    ghost Value = { List Held };

    ghost view = { λ r. seen_all r.sorts r.numbers r.kinds r.keys };

    ghost invariant = { λ r. (length r.sorts ≡ 11) × (length r.numbers ≡ 11) × (length r.kinds ≡ 11) × (length r.keys ≡ 11)
        × AreApart r.kinds };
}

impl Registers {
    ghost use Rattle.std.specs.Prelude.{◌≡◌, ◌<◌, ◌≤◌, true, length, [], replicate, slice_set};
    ghost use Rattle.program_machine.specs.Held as values;
    ghost use Rattle.program_machine.specs.Places as places;
    ghost use Rattle.program_machine.specs.Sorts.{is_apart};

    /// Each is the number 0.
    #[inline(always)]
    pub fn new() -> Registers
        ensures { result ≡ replicate 11 (values.Number 0) }
    {
        Registers {
            sorts: [Sort::Number; 11],
            numbers: [0; 11],
            kinds: [Kind::Context; 11],
            keys: [Key::new(); 11],
        }
    }

    /// Makes each the number 0.
    pub fn clear_all(&mut self)
        ensures { self.new ≡ replicate 11 (values.Number 0) }
    {
        self.sorts = [Sort::Number; 11];
        self.numbers = [0; 11];
    }

    /// What kind of value the register holds.
    #[inline(always)]
    pub fn kind(&self, register: usize) -> Kind
        requires { register < 11 }
        ensures { result ≡ values.kind_of (places.held_at self.now register) }
    {
        match self.sorts[register] {
            Sort::Number => Kind::Number(self.numbers[register]),
            Sort::Stack => Kind::Stack(self.numbers[register]),
            Sort::Other => self.kinds[register],
        }
    }

    /// The number that the register holds, if it is one.
    #[inline(always)]
    pub fn number(&self, register: usize) -> Option<u64>
        requires { register < 11 }
        ensures { result ≡ values.number_of (places.held_at self.now register) }
    {
        match self.sorts[register] {
            Sort::Number => Some(self.numbers[register]),
            _ => None,
        }
    }

    /// The position of the pointer into the stack that the register holds, if it is one.
    #[inline(always)]
    pub fn stack_position(&self, register: usize) -> Option<u64>
        requires { register < 11 }
        ensures { result ≡ values.stack_position_of (places.held_at self.now register) }
    {
        match self.sorts[register] {
            Sort::Stack => Some(self.numbers[register]),
            _ => None,
        }
    }

    /// The key of the pointer to a value that the register holds; of another value none.
    pub fn key(&self, register: usize) -> &[u8]
        requires { register < 11 }
        ensures value { result.now ≡ values.key_of (places.held_at self.now register) }
        ensures at_most { length result.now ≤ 260 }
    {
        match self.kind(register) {
            Kind::Value { .. } => self.keys[register].as_slice(),
            _ => &[],
        }
    }

    /// What the register holds, in a holder of its own.
    pub fn get(&self, register: usize) -> Holder
        requires { register < 11 }
        ensures { result ≡ places.held_at self.now register }
    {
        Holder {
            kind: self.kind(register),
            key: self.keys[register],
        }
    }

    /// Puts a number.
    #[inline(always)]
    pub fn set_number(&mut self, register: usize, number: u64)
        requires { register < 11 }
        ensures { self.new ≡ slice_set self.old register (values.Number number) }
    {
        self.sorts[register] = Sort::Number;
        self.numbers[register] = number;
    }

    // Puts a pointer into the stack.
    #[inline(always)]
    fn set_stack(&mut self, register: usize, position: u64)
        requires { register < 11 }
        ensures { self.new ≡ slice_set self.old register (values.Pointer values.Stack position) }
    {
        self.sorts[register] = Sort::Stack;
        self.numbers[register] = position;
    }

    // Puts any other value without a key.
    #[inline(always)]
    fn set_bare(&mut self, register: usize, kind: Kind)
        requires register { register < 11 }
        requires bare { values.is_bare kind ≡ true }
        requires apart { is_apart kind ≡ true }
        ensures { self.new ≡ slice_set self.old register (values.held kind []) }
    {
        self.sorts[register] = Sort::Other;
        self.kinds[register] = kind;
    }

    /// Puts a value without a key.
    #[inline(always)]
    pub fn set(&mut self, register: usize, kind: Kind)
        requires register { register < 11 }
        requires bare { values.is_bare kind ≡ true }
        ensures { self.new ≡ slice_set self.old register (values.held kind []) }
    {
        match kind {
            Kind::Number(number) => self.set_number(register, number),
            Kind::Stack(position) => self.set_stack(register, position),
            _ => self.set_bare(register, kind),
        }
    }

    /// Puts a pointer to the value under this key.
    pub fn point(&mut self, register: usize, map: u32, key: &[u8], position: u64)
        requires register { register < 11 }
        requires key { length key.now ≤ 260 }
        ensures { self.new ≡ slice_set self.old register (values.Pointer (values.Under map key.now) position) }
    {
        self.sorts[register] = Sort::Other;
        self.keys[register].put(key);
        self.kinds[register] = Kind::Value { map, position };
    }

    // Puts any other value, with a key beside it.
    fn put_whole(&mut self, register: usize, kind: Kind, key: &Key)
        requires register { register < 11 }
        requires apart { is_apart kind ≡ true }
        ensures { self.new ≡ slice_set self.old register (places.held_by kind key.now) }
    {
        self.sorts[register] = Sort::Other;
        self.kinds[register] = kind;
        self.keys[register] = *key;
    }

    /// Puts what another holder holds.
    pub fn put(&mut self, register: usize, value: &Holder)
        requires { register < 11 }
        ensures { self.new ≡ slice_set self.old register value.now }
    {
        match value.kind {
            Kind::Number(number) => self.set_number(register, number),
            Kind::Stack(position) => self.set_stack(register, position),
            kind => self.put_whole(register, kind, &value.key),
        }
    }
}
