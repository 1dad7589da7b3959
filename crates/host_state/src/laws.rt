//! Laws of changes, each the contract of a function that does nothing.

ghost use Rattle.std.specs.Prelude.{ℕ, List};
ghost use Rattle.host_state.specs.State.{State};
ghost use Rattle.host_state.specs.World.{ActsWithout};
ghost use Rattle.host_state.specs.declared.change.Change.{Change};
ghost use Rattle.host_state.specs.declared.reply.Reply.{Reply};

/// A change that is accepted gets the same reply when objects that are live neither before nor after it are dropped, and
/// leaves what is left of the state after it.
pub fn what_has_retired_is_not_missed()
    ensures { (maps progs : List ℕ) (before after : State) (change : Change) (reply : Reply) → ActsWithout maps progs before after change reply }
{}
