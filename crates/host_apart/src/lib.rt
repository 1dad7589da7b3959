//! When a later change is apart from an earlier one, and what holds of both then: each law is the contract of a function that
//! does nothing.
#![tactic(auto)]

ghost use Rattle.std.specs.Prelude.{ℕ, List};
ghost use Rattle.host_apart.specs.Alike.{LeavesFirst, DoesAlikeBeside};
ghost use Rattle.host_apart.specs.Laws.{TurnsWell, RetiresNothing};
ghost use Rattle.host_apart.specs.Refilled.{ActsElsewhere, JoinsElsewhere};
ghost use Rattle.bt_mapkind.specs.Contents.{Contents};
ghost use Rattle.host_state.specs.State.{State};
ghost use Rattle.host_state.specs.World.{Ready};
ghost use Rattle.bt_mapkind.specs.declared.request.MapOp.{MapOp};
ghost use Rattle.bt_roots.specs.declared.target.Target.{Target};
ghost use Rattle.host_state.specs.declared.change.Change.{Change};
ghost use Rattle.host_state.specs.declared.change.Origin.{Origin};
ghost use Rattle.host_state.specs.declared.reply.Reply.{Reply};
ghost use Rattle.host_undoing.specs.declared.undoing.Part.{Part};
ghost use Rattle.host_undoing.specs.declared.undoing.Undoing.{Undoing};

/// Turning an undoing that fits leaves maps that hold what they can hold.
pub fn a_turning_leaves_maps_well()
    ensures { (ready : Ready) (s : State) (u : Undoing) → TurnsWell ready s u }
{}

/// An accepted operation that is taken back by an exchange of one key of a map of bytes retires nothing.
pub fn a_change_of_one_key_retires_nothing()
    ensures { (s t : State) (origin : Origin) (id : ℕ) (op : MapOp) (reply : Reply) (part : Part) (targets : List Target) → RetiresNothing s t origin id op reply part targets }
{}

/// A change that asks nothing of what a map holds does the same when the map holds something else, with the same ids in it.
pub fn a_change_elsewhere_does_the_same()
    ensures { (s : State) (id : ℕ) (f : Contents → Contents) (change : Change) → ActsElsewhere s id f change }
{}

/// Two states that an undoing joins are joined by it when a map that it asks nothing of holds something else in both, with the
/// same ids in it.
pub fn a_turning_elsewhere_joins_the_same()
    ensures { (ready : Ready) (s t : State) (id : ℕ) (f : Contents → Contents) (v forth : Undoing) → JoinsElsewhere ready s t id f v forth }
{}

/// What takes back a change of one key of a map of bytes retired nothing, and does again what the change did: it puts something,
/// unless the change was a delete.
pub fn a_change_of_one_key_is_done_again()
    ensures { (s t : State) (change : Change) (reply : Reply) (u : Undoing) → LeavesFirst s t change reply u }
{}

/// A later change that is apart from one of one key of a map of bytes answers the same without it, with the same exchange of
/// its own; and the first can be turned above it as below.
pub fn a_later_change_that_is_apart_does_alike()
    ensures { (ready : Ready) (s t : State) (change : Change) (u forth : Undoing) (later : Change) (reply : Reply) (v : Undoing) → DoesAlikeBeside ready s t change u forth later reply v }
{}
