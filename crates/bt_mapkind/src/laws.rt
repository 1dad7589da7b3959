//! The laws that every type of map keeps, each the contract of a function that does nothing.

ghost use Rattle.std.specs.Prelude.{ℕ, List};
ghost use Rattle.bt_mapkind.specs.Laws.{TurnsBack, StaysTurnable, ChangesByTurning, ChangesBack, BeginsWell, FindsLongest};
ghost use Rattle.bt_mapkind.specs.Contents.{Contents, ByKey};
ghost use Rattle.bt_mapkind.specs.Reply.{RepliesWith};
ghost use Rattle.bt_mapkind.specs.Step.{Changed};
ghost use Rattle.bt_mapkind.specs.declared.attr.MapAttr.{MapAttr};
ghost use Rattle.bt_mapkind.specs.declared.exchange.Back.{Back};
ghost use Rattle.bt_mapkind.specs.declared.request.MapOp.{MapOp};

/// An exchange that fits, turned twice, leaves the contents and itself as they were.
pub fn turning_twice_is_nothing()
    ensures { (a : MapAttr) (c : Contents) (b : Back) → TurnsBack a c b }
{}

/// An exchange that is turned leaves contents that the map can hold, and can be turned again.
pub fn what_is_turned_can_be_turned_again()
    ensures { (a : MapAttr) (c : Contents) (b : Back) → StaysTurnable a c b }
{}

/// Every operation that the table accepts is the turning of an exchange that fits.
pub fn every_change_is_a_turning()
    ensures { (a : MapAttr) (c : Contents) (op : MapOp) (changed : Changed) → ChangesByTurning a c op changed }
{}

/// The exchange that the table gives for an operation fits what the operation leaves, and leads back.
pub fn every_change_can_be_taken_back()
    ensures { (a : MapAttr) (c : Contents) (op : MapOp) (changed : Changed) → ChangesBack a c op changed }
{}

/// The reply of every operation that the table accepts follows from the exchange that takes the operation back.
pub fn every_reply_follows_from_the_exchange()
    ensures { (a : MapAttr) (c : Contents) (op : MapOp) (changed : Changed) → RepliesWith a c op changed }
{}

/// A new map holds what such a map can hold.
pub fn a_new_map_is_well()
    ensures { (a : MapAttr) → BeginsWell a }
{}

/// A look-up in an LPM trie finds the longest of the stored prefixes that match its key.
pub fn the_longest_prefix_is_found()
    ensures { (entries : ByKey (List ℕ)) (key : List ℕ) → FindsLongest entries key }
{}
