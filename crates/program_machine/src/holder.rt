//! A value by itself, as arithmetic takes it.

use crate::key::Key;
use crate::kind::Kind;
use std::marker::Model;

/// What holds a value. The key of a pointer to a map's value, of at most 260 bytes, is kept beside its kind.
#[derive(Drop)]
pub struct Holder {
    pub(crate) kind: Kind,
    pub(crate) key: Key,
}

impl Model for Holder {
    ghost use Rattle.program_machine.specs.Held.{Held};
    ghost use Rattle.program_machine.specs.Places.{held_by};

    ghost Value = { Held };

    ghost view = { λ h. held_by h.kind h.key };
}

impl Holder {
    ghost use Rattle.std.specs.Prelude.{◌≡◌, ◌≤◌, true, length, []};
    ghost use Rattle.program_machine.specs.Held as values;

    /// A holder of a number.
    pub fn new(number: u64) -> Holder
        ensures { result ≡ values.Number number }
    {
        Holder {
            kind: Kind::Number(number),
            key: Key::new(),
        }
    }

    /// What kind of value it holds.
    #[inline(always)]
    pub fn kind(&self) -> Kind
        ensures { result ≡ values.kind_of self.now }
    {
        self.kind
    }

    /// The key of a pointer to a value; of another value none.
    pub fn key(&self) -> &[u8]
        ensures value { result.now ≡ values.key_of self.now }
        ensures at_most { length result.now ≤ 260 }
    {
        match self.kind {
            Kind::Value { .. } => self.key.as_slice(),
            _ => &[],
        }
    }

    /// Puts a value without a key.
    #[inline(always)]
    pub fn set(&mut self, kind: Kind)
        requires { values.is_bare kind ≡ true }
        ensures { self.new ≡ values.held kind [] }
    {
        self.kind = kind;
    }

    /// Puts a pointer to the value under this key.
    pub fn point(&mut self, map: u32, key: &[u8], position: u64)
        requires { length key.now ≤ 260 }
        ensures { self.new ≡ values.Pointer (values.Under map key.now) position }
    {
        self.key.put(key);
        self.kind = Kind::Value { map, position };
    }

    /// Moves the pointer to a value that it holds to another position.
    #[inline(always)]
    pub fn move_to(&mut self, position: u64)
        ensures { self.new ≡ values.moved_to self.old position }
    {
        if let Kind::Value { map, .. } = self.kind {
            self.kind = Kind::Value { map, position };
        }
    }

    /// Puts what another holder holds.
    pub fn copy_from(&mut self, other: &Holder)
        ensures { self.new ≡ other.now }
    {
        self.kind = other.kind;
        self.key = other.key;
    }

    /// Another holder of the same.
    pub fn copy(&self) -> Holder
        ensures { result ≡ self.now }
    {
        Holder {
            kind: self.kind,
            key: self.key,
        }
    }
}
