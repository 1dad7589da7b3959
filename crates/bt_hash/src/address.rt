//! The key under which an entry stands.

ghost use Rattle.std.specs.Prelude.{◌≡◌};

use bt_mapkind::Bytes;
use std::marker::Model;

/// The key under which an entry stands: a key as it is lent, or one that was made of it.
#[derive(Drop)]
pub struct Address<'k> {
    lent: &'k Bytes,
    made: Option<Bytes>,
}

impl<'k> Model for Address<'k> {
    ghost use Rattle.std.specs.Prelude.{List, ℕ, unwrap_or};

    ghost Value = { List ℕ };

    ghost view = { λ a. unwrap_or a.made a.lent.now };
}

impl<'k> Address<'k> {
    /// A key itself.
    pub fn lent(key: &'k Bytes) -> Address<'k>
        ensures { result ≡ key.now }
    {
        Address {
            lent: key,
            made: None,
        }
    }

    /// What was made of a key.
    pub fn made(key: &'k Bytes, stored: Bytes) -> Address<'k>
        ensures { result ≡ stored }
    {
        Address {
            lent: key,
            made: Some(stored),
        }
    }

    /// The bytes.
    pub fn bytes(&self) -> &Bytes
        ensures { result.now ≡ self.now }
    {
        match &self.made {
            Some(made) => made,
            None => self.lent,
        }
    }

    /// Bytes of its own.
    pub fn into_bytes(self) -> Bytes
        ensures { result ≡ self.entry }
    {
        match self.made {
            Some(made) => made,
            None => self.lent.copy(),
        }
    }
}
