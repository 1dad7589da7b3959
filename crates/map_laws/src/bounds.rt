//! What a map of any type holds is made of bytes and of ids of 32 bits, and stays so: each law the contract of a function
//! that does nothing.

ghost use Rattle.std.specs.Prelude.{ℕ, List};
ghost use Rattle.map_laws.specs.Bounded.{BeginsBounded, TurnsBounded, ChangesBounded, IsIndexOfOne};
ghost use Rattle.bt_mapkind.specs.Contents.{Contents};
ghost use Rattle.bt_mapkind.specs.Step.{Changed};
ghost use Rattle.bt_mapkind.specs.declared.attr.MapAttr.{MapAttr};
ghost use Rattle.bt_mapkind.specs.declared.exchange.Back.{Back};
ghost use Rattle.bt_mapkind.specs.declared.request.MapOp.{MapOp};

/// What a new map holds is bounded.
pub fn a_new_map_is_bounded()
    ensures { (a : MapAttr) → BeginsBounded a }
{}

/// Bounded contents and a bounded exchange are bounded after they have changed places.
pub fn a_turning_leaves_what_is_bounded()
    ensures { (c : Contents) (b : Back) → TurnsBounded c b }
{}

/// A bounded operation that the table accepts leaves bounded contents, and a bounded exchange takes it back.
pub fn a_change_leaves_what_is_bounded()
    ensures { (a : MapAttr) (c : Contents) (op : MapOp) (changed : Changed) → ChangesBounded a c op changed }
{}

/// Two keys of four bytes that are the same index are the same key.
pub fn an_index_is_of_one_key()
    ensures { (key other : List ℕ) → IsIndexOfOne key other }
{}
