//! `unpin FILE`.

ghost use Rattle.std.specs.Prelude.{◌≡◌};
ghost use Rattle.console_operand.specs.Automaton.{GoesOn};
ghost use Rattle.bt_syntax.specs.UnpinSteps.{unpin_step, unpin_finish};

use console_operand::{LineWord, go_to};
use std::mem;

/// What the words after `unpin` have come to.
#[derive(Drop)]
pub enum UnpinState<'a> {
    /// The path comes next.
    Path,
    Done(LineWord<'a>),
}

impl<'a> UnpinState<'a> {
    /// What one more word makes of it; `None` if no line goes on so.
    fn after(self, word: &'a [u8]) -> Option<UnpinState<'a>>
        ensures { result ≡ unpin_step self.entry word.now }
    {
        match self {
            UnpinState::Path => Some(UnpinState::Done(LineWord::new(word))),
            UnpinState::Done(_) => None,
        }
    }

    /// Reads one more word; false if no line goes on so, and then what is left says nothing.
    pub fn go_on(&mut self, word: &'a [u8]) -> bool
        ensures { GoesOn result (unpin_step self.old word.now) self.new }
    {
        let next = mem::replace(self, UnpinState::Path).after(word);
        go_to(self, next)
    }

    /// The path, if the line may end here.
    pub fn finish(self) -> Option<LineWord<'a>>
        ensures { result ≡ unpin_finish self.entry }
    {
        match self {
            UnpinState::Path => None,
            UnpinState::Done(path) => Some(path),
        }
    }
}
