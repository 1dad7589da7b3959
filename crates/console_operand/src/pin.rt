//! What comes after `pin`: the object, and the path at which it is pinned.

ghost use Rattle.std.specs.Prelude.{◌≡◌};
ghost use Rattle.console_operand.specs.Automaton.{GoesOn};
ghost use Rattle.console_operand.specs.PinSteps.{named_pin, pin_step, pin_finish};

use crate::reference::{LineReference, Named, Naming};
use crate::step::go_to;
use crate::words::LineWord;
use std::mem;

/// What the words after `pin` have come to.
#[derive(Drop)]
pub enum PinState<'a> {
    Object(Naming),
    /// The path comes next.
    Path(LineReference<'a>),
    Done(LineReference<'a>, LineWord<'a>),
}

impl<'a> PinState<'a> {
    fn of(named: Named<'a>) -> PinState<'a>
        ensures { result ≡ named_pin named.entry }
    {
        match named {
            Named::Going(naming) => PinState::Object(naming),
            Named::Found(object) => PinState::Path(object),
        }
    }

    /// What one more word makes of it; `None` if no line goes on so.
    pub fn after(self, word: &'a [u8]) -> Option<PinState<'a>>
        ensures { result ≡ pin_step self.entry word.now }
    {
        match self {
            PinState::Object(naming) => naming.after(word).map(PinState::of),
            PinState::Path(object) => Some(PinState::Done(object, LineWord::new(word))),
            PinState::Done(_, _) => None,
        }
    }

    /// Reads one more word; false if no line goes on so, and then what is left says nothing.
    pub fn go_on(&mut self, word: &'a [u8]) -> bool
        ensures { GoesOn result (pin_step self.old word.now) self.new }
    {
        let next = mem::replace(self, PinState::Object(Naming::Form)).after(word);
        go_to(self, next)
    }

    /// The object and the path, if the line may end here.
    pub fn finish(self) -> Option<(LineReference<'a>, LineWord<'a>)>
        ensures { result ≡ pin_finish self.entry }
    {
        match self {
            PinState::Done(object, path) => Some((object, path)),
            _ => None,
        }
    }
}
