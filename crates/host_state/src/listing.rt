//! A list that contracts see as one.

ghost use Rattle.std.specs.Prelude.{◌≡◌};

use std::marker::Model;

/// A list, which contracts see as the list of its elements.
#[derive(Debug, Drop)]
pub struct Listing<T> {
    elements: Vec<T>,
}

impl<T> Model for Listing<T> {
    ghost use Rattle.std.specs.Prelude.{List};

    ghost Value = { List T };

    ghost view = { λ l. l.elements.items };
}

impl<T> Listing<T> {
    /// A list of these.
    pub fn of(elements: Vec<T>) -> Listing<T>
        ensures { result ≡ elements.items }
    {
        Listing { elements }
    }

    /// Its elements.
    pub fn as_slice(&self) -> &[T]
        ensures { result.now ≡ self.now }
    {
        self.elements.as_slice()
    }
}

impl<T: PartialEq> PartialEq for Listing<T> {
    ghost use Rattle.std.specs.Cmp.Lexicographic.{pointwise, lists_per};

    ghost eq = { pointwise T.eq };

    ghost laws = { lists_per T.laws };

    fn eq(&self, other: &Listing<T>) -> bool {
        self.elements == other.elements
    }
}

impl<T: Eq> Eq for Listing<T> {
    ghost use Rattle.std.specs.Cmp.Lexicographic.{lists_equiv};

    ghost laws = { lists_equiv T.Eq.laws };
}
