//! `batch file FILE`.

ghost use Rattle.std.specs.Prelude.{◌≡◌};
ghost use Rattle.console_operand.specs.Automaton.{GoesOn};
ghost use Rattle.bt_syntax.specs.BatchSteps.{batch_step, batch_finish};

use console_operand::{LineWord, go_to};
use std::mem;

/// What the words after `batch` have come to.
#[derive(Drop)]
pub enum BatchState<'a> {
    /// `file` comes next.
    File,
    /// The path comes next.
    Path,
    Done(LineWord<'a>),
}

impl<'a> BatchState<'a> {
    /// What one more word makes of it; `None` if no line goes on so.
    fn after(self, word: &'a [u8]) -> Option<BatchState<'a>>
        ensures { result ≡ batch_step self.entry word.now }
    {
        match self {
            BatchState::File => {
                if word == b"file".as_slice() {
                    Some(BatchState::Path)
                } else {
                    None
                }
            }
            BatchState::Path => Some(BatchState::Done(LineWord::new(word))),
            BatchState::Done(_) => None,
        }
    }

    /// Reads one more word; false if no line goes on so, and then what is left says nothing.
    pub fn go_on(&mut self, word: &'a [u8]) -> bool
        ensures { GoesOn result (batch_step self.old word.now) self.new }
    {
        let next = mem::replace(self, BatchState::File).after(word);
        go_to(self, next)
    }

    /// The path, if the line may end here.
    pub fn finish(self) -> Option<LineWord<'a>>
        ensures { result ≡ batch_finish self.entry }
    {
        match self {
            BatchState::Done(path) => Some(path),
            _ => None,
        }
    }
}
