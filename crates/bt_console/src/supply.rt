//! Where the boxes for new maps come from.

ghost use Rattle.std.specs.Prelude.{◌≡◌, ◌<◌, ℕ, true, Result, Err};
ghost use Rattle.std.specs.Vec.Iter.{into_iter_items};
ghost use Rattle.bt_mapkind.specs.Attributes.{good};
ghost use Rattle.bt_mapkind.specs.declared.attr.MapAttr.{MapAttr};
ghost use Rattle.bt_console.specs.declared.supply.NoBox.{NoBox};
ghost use Rattle.bt_console.specs.Stock.{TakesFirst};

use bt_mapkind::MapAttr;
use std::alloc::Global;
use std::vec::IntoIter;

/// Why a supplier gives no box.
#[derive(Clone, Copy, PartialEq, Eq, Debug)]
pub enum NoBox {
    /// Its stock is at its end.
    AtEnd,
    /// Memory was refused to the making of a box.
    NoMemory,
    /// No box was made, for it would be charged this many bytes, and the budget leaves fewer.
    TooLarge(u64),
}

/// A supplier of boxes for the maps that a script makes.
///
/// The console asks it once at each `map create` of good attributes, when the line is read, in the order of the lines, and
/// at no other time. The line owns the box, and drops it if the book refuses the map.
pub trait Supply<K> {
    /// What it may tell when it is asked for a box of these attributes, and what becomes of it.
    ghost gives: { Self → MapAttr → Result K NoBox → Self → Type 0 };

    /// A box for a new map of these attributes, or why there is none. `room` is how many bytes the budget leaves. A supplier
    /// that knows that the box would be charged more may tell that charge and make none: the line is then refused as it
    /// would be with the box.
    fn supply(&mut self, attr: MapAttr, room: u64) -> Result<K, NoBox>
        requires { good attr ≡ true }
        ensures gives { gives self.old attr result self.new }
        ensures large { (charge : ℕ) → result ≡ Err (NoBox.TooLarge charge) → room < charge };
}

/// A stock of boxes that were made beforehand gives the first that is left, whatever its attributes. The others move up, so
/// a long stock is better handed in as its `into_iter()`.
impl<K> Supply<K> for Vec<K> {
    ghost gives = { λ from attr told to. TakesFirst from.items told to.items };

    fn supply(&mut self, _attr: MapAttr, _room: u64) -> Result<K, NoBox> {
        if self.is_empty() {
            Err(NoBox::AtEnd)
        } else {
            Ok(self.remove(0))
        }
    }
}

/// The boxes of a stock that are left, the first one first.
impl<K> Supply<K> for IntoIter<K, Global> {
    ghost gives = { λ from attr told to. TakesFirst (into_iter_items from) told (into_iter_items to) };

    fn supply(&mut self, _attr: MapAttr, _room: u64) -> Result<K, NoBox> {
        match self.next() {
            Some(kind) => Ok(kind),
            None => Err(NoBox::AtEnd),
        }
    }
}
