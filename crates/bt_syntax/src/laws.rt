//! What follows of all lines.

ghost use Rattle.std.specs.Prelude.{◌≡◌, ◌↔◌, ℕ, List, Some};
ghost use Rattle.bt_mapkind.specs.declared.attr.MapAttr.{MapAttr};
ghost use Rattle.bt_syntax.specs.Needs.{need_of, Makes};

/// A line needs a map of some attributes just when it is a well-formed `map create` with these, and they are good.
pub fn only_a_good_create_needs_a_map()
    ensures { (line : List ℕ) (attr : MapAttr) → (need_of line ≡ Some attr) ↔ Makes line attr }
{}
