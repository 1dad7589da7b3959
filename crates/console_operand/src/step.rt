//! A step of what a line has come to.

ghost use Rattle.std.specs.Prelude.{◌≡◌, false};
ghost use Rattle.console_operand.specs.Automaton.{GoesOn};

/// Goes on to the next state; false, and nothing changes, if there is none.
pub fn go_to<S: Drop>(state: &mut S, next: Option<S>) -> bool
    ensures goes_on { GoesOn result next state.new }
    ensures stays { result ≡ false → state.new ≡ state.old }
{
    match next {
        Some(next) => {
            *state = next;
            true
        }
        None => false,
    }
}
