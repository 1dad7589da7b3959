//! `map push|enqueue MAP value VALUE`.

ghost use Rattle.std.specs.Prelude.{◌≡◌, false, IfOk};
ghost use Rattle.console_operand.specs.Automaton.{GoesOn, GoesOver};
ghost use Rattle.console_map_syntax.specs.PushSteps.{named_pushing, front_step, push_step, push_finish};

use crate::NoMemory;
use crate::command::MapCommand;
use console_operand::{LineReference, Named, Naming, Unread, ValueState, go_to};
use std::alloc::Global;

/// What the words after `push` have come to.
#[derive(Drop)]
pub enum PushState<'a> {
    Map(Naming),
    Given(LineReference<'a>),
    Value(LineReference<'a>, ValueState<'a>),
}

impl<'a> PushState<'a> {
    fn of(named: Named<'a>) -> PushState<'a>
        ensures { result ≡ named_pushing named.entry }
    {
        match named {
            Named::Going(naming) => PushState::Map(naming),
            Named::Found(map) => PushState::Given(map),
        }
    }

    /// What a word in front of the value leads to; `None` if no line goes on so.
    fn next(&self, word: &'a [u8]) -> Option<PushState<'a>>
        ensures { result ≡ front_step self.now word.now }
    {
        match self {
            PushState::Map(naming) => naming.after(word).map(PushState::of),
            PushState::Given(map) => {
                if word == b"value".as_slice() {
                    Some(PushState::Value(map.again(), ValueState::First))
                } else {
                    None
                }
            }
            PushState::Value(_, _) => None,
        }
    }

    /// Reads one more word in front of the value; false if no line goes on so.
    fn begin(&mut self, word: &'a [u8]) -> bool
        ensures { GoesOn result (front_step self.old word.now) self.new }
    {
        let next = self.next(word);
        go_to(self, next)
    }

    /// Reads one more word, and words that come next; false if no line goes on so.
    pub fn go_on(
        &mut self,
        alloc: Global,
        word: &'a [u8],
        unread: &mut Unread<'a>,
    ) -> Result<bool, NoMemory>
        ensures goes_on { IfOk result (λ goes. GoesOver push_step goes self.old word.now unread.old self.new unread.new) }
        ensures stays { IfOk result (λ goes. goes ≡ false → unread.new ≡ unread.old) }
    {
        match self {
            PushState::Value(_, read) => read.go_on(alloc, word, unread),
            _ => Ok(self.begin(word)),
        }
    }

    /// The command, if the line may end here.
    pub fn finish(self, alloc: Global) -> Result<Option<MapCommand>, NoMemory>
        ensures { IfOk result (λ command. command ≡ push_finish self.entry) }
    {
        match self {
            PushState::Value(map, mut read) => match read.finish(alloc) {
                Some(value) => Ok(Some(MapCommand::Push {
                    map: map.copy(alloc)?,
                    value: value.copy(alloc)?,
                })),
                None => Ok(None),
            },
            _ => Ok(None),
        }
    }
}
