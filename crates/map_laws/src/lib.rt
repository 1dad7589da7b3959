//! The places in a map that exchanges and operations touch, the keys that walks and dumps go over, and the bounds of what a
//! map holds: what holds of them for every type of map, each the contract of a function that does nothing.
#![tactic(auto)]

pub mod bounds;

ghost use Rattle.std.specs.Prelude.{ℕ, List};
ghost use Rattle.map_laws.specs.Laws.{ExchangesApart, ChangesAtItsPlace, OperationApart, FitsAfter, LeavesRoom, TellsNew, StaysBeside, PutsAgain, ValueStands, IdStands, OthersStay, LooksUpItsPlace, WalksItsKeys, KeysRise, DumpsItsKeys};
ghost use Rattle.map_laws.specs.Place.{Place};
ghost use Rattle.bt_mapkind.specs.Contents.{Contents};
ghost use Rattle.bt_mapkind.specs.Step.{Changed};
ghost use Rattle.bt_mapkind.specs.declared.attr.MapAttr.{MapAttr};
ghost use Rattle.bt_mapkind.specs.declared.exchange.Back.{Back};
ghost use Rattle.bt_mapkind.specs.declared.request.MapOp.{MapOp};

/// Every operation that the table accepts is a turning at the operation's place, forth and back.
pub fn every_change_is_at_its_place()
    ensures { (a : MapAttr) (c : Contents) (op : MapOp) (changed : Changed) → ChangesAtItsPlace a c op changed }
{}

/// Two exchanges at different places of a map commute, and each gives what it gives alone.
pub fn exchanges_at_different_places_commute()
    ensures { (a : MapAttr) (c : Contents) (b other : Back) → ExchangesApart a c b other }
{}

/// An operation answers the same, and gives the same exchange, after an exchange at another place; if it adds a key, the
/// map must be as full after the exchange as before.
pub fn an_operation_answers_the_same_after_an_exchange_elsewhere()
    ensures { (a : MapAttr) (c : Contents) (b : Back) (op : MapOp) → OperationApart a c b op }
{}

/// An exchange fits after an exchange at another place; if it puts a key that is not there, the map must have room then.
pub fn an_exchange_fits_after_one_elsewhere()
    ensures { (a : MapAttr) (c : Contents) (b other : Back) → FitsAfter a c b other }
{}

/// An exchange that puts no new key leaves room if there was room.
pub fn an_exchange_without_a_new_key_leaves_room()
    ensures { (a : MapAttr) (c : Contents) (b : Back) → LeavesRoom a c b }
{}

/// The exchange of every operation on a map of bytes tells whether its key is new, and then there was room for one more.
pub fn a_new_key_is_told_by_the_exchange()
    ensures { (a : MapAttr) (c : Contents) (op : MapOp) (changed : Changed) → TellsNew a c op changed }
{}

/// An operation answers the same after an exchange at another place of a map of bytes by key, which fits after it and
/// exchanges what it would have before; if the exchange puts a key back, the operation must have no new key.
pub fn an_operation_stays_beside_an_exchange()
    ensures { (a : MapAttr) (c : Contents) (u : Back) (op : MapOp) (changed : Changed) → StaysBeside a c u op changed }
{}

/// What does an accepted operation on a map of bytes by key again puts something there, unless it was a delete.
pub fn what_does_an_operation_again_puts_something()
    ensures { (a : MapAttr) (c : Contents) (op : MapOp) (changed : Changed) → PutsAgain a c op changed }
{}

/// A value that was put stands at the place of its key's address.
pub fn a_value_that_was_put_stands_at_its_place()
    ensures { (a : MapAttr) (c : Contents) (key value : List ℕ) (flag : ℕ) (changed : Changed) → ValueStands a c key value flag changed }
{}

/// An id that was put stands at the place of its key.
pub fn an_id_that_was_put_stands_at_its_place()
    ensures { (a : MapAttr) (c : Contents) (key : List ℕ) (id flag : ℕ) (changed : Changed) → IdStands a c key id flag changed }
{}

/// What stands at any other place is as it was before the operation.
pub fn what_stands_elsewhere_stays()
    ensures { (a : MapAttr) (c : Contents) (op : MapOp) (changed : Changed) (p : Place) → OthersStay a c op changed p }
{}

/// A look-up in any map but an LPM trie finds what stands at the place of its key.
pub fn a_look_up_finds_what_stands_at_its_place()
    ensures { (a : MapAttr) (c : Contents) (key : List ℕ) → LooksUpItsPlace a c key }
{}

/// A walk by `next` from no key on goes over a map's keys, each once: indices from 0 on, or stored keys as they ascend.
pub fn a_walk_goes_over_the_keys()
    ensures { (a : MapAttr) (c : Contents) → WalksItsKeys a c }
{}

/// The keys of that walk rise: an index by its number, a stored key by its bytes.
pub fn the_keys_of_a_walk_rise()
    ensures { (a : MapAttr) (c : Contents) (i j : ℕ) (key other : List ℕ) → KeysRise a c i j key other }
{}

/// A dump lists the keys of that walk; of a map of ids by index, those under which an id stands.
pub fn a_dump_lists_the_keys_of_the_walk()
    ensures { (a : MapAttr) (c : Contents) (n : ℕ) → DumpsItsKeys a c n }
{}
