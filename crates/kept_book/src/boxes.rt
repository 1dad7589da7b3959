//! Where the boxes for maps that are made again come from.

ghost use Rattle.std.specs.Prelude.{◌≡◌, true, IfOk};
ghost use Rattle.bt_mapkind.specs.Attributes.{good};
ghost use Rattle.kept_book.specs.Boxes.{IsNewBox};

use bt_mapkind::{MapAttr, MapKind};
use host_words::NoMemory;

/// A maker of boxes. It is asked once for each map that is made again, in the order in which they were made.
pub trait MakeBox<K: MapKind> {
    /// A fresh box for a map of these attributes, which charges what [`MapAttr::charge`] says. Takes memory.
    fn make_box(&mut self, attr: MapAttr) -> Result<K, NoMemory>
        requires { good attr ≡ true }
        ensures { IfOk result (λ kind. IsNewBox (K.seen kind) attr) };
}
