//! `map show|list [MAP]`, `map dump|peek|pop|dequeue|freeze MAP`.

ghost use Rattle.std.specs.Prelude.{◌≡◌, IfOk};
ghost use Rattle.console_operand.specs.Automaton.{GoesOn};
ghost use Rattle.console_map_syntax.specs.WholeSteps.{without_map, of_map, named_whole, whole_step, whole_finish};

use crate::NoMemory;
use crate::command::MapCommand;
use console_operand::{LineReference, Named, Naming, Reference, go_to};
use std::alloc::Global;

/// A command on a whole map.
#[derive(Clone, Copy)]
pub enum WholeVerb {
    Show,
    Dump,
    Peek,
    Pop,
    Freeze,
}

impl WholeVerb {
    /// The command without a map, if it may be missing.
    fn without(self) -> Option<MapCommand>
        ensures { result ≡ without_map self }
    {
        match self {
            WholeVerb::Show => Some(MapCommand::Show { map: None }),
            _ => None,
        }
    }

    fn command(self, map: Reference) -> MapCommand
        ensures { result ≡ of_map self map }
    {
        match self {
            WholeVerb::Show => MapCommand::Show { map: Some(map) },
            WholeVerb::Dump => MapCommand::Dump { map },
            WholeVerb::Peek => MapCommand::Peek { map },
            WholeVerb::Pop => MapCommand::Pop { map },
            WholeVerb::Freeze => MapCommand::Freeze { map },
        }
    }
}

/// What the words after such a verb have come to.
#[derive(Drop)]
pub enum WholeState<'a> {
    /// No word is read yet.
    Bare(WholeVerb),
    Map(WholeVerb, Naming),
    Given(WholeVerb, LineReference<'a>),
}

impl<'a> WholeState<'a> {
    fn of(verb: WholeVerb, named: Named<'a>) -> WholeState<'a>
        ensures { result ≡ named_whole verb named.entry }
    {
        match named {
            Named::Going(naming) => WholeState::Map(verb, naming),
            Named::Found(map) => WholeState::Given(verb, map),
        }
    }

    /// What one more word makes of it; `None` if no line goes on so.
    fn after(&self, word: &'a [u8]) -> Option<WholeState<'a>>
        ensures { result ≡ whole_step self.now word.now }
    {
        let (verb, naming) = match self {
            WholeState::Bare(verb) => (*verb, Naming::Form),
            WholeState::Map(verb, naming) => (*verb, *naming),
            WholeState::Given(_, _) => return None,
        };
        let named = naming.after(word)?;
        Some(WholeState::of(verb, named))
    }

    /// Reads one more word; false if no line goes on so.
    pub fn go_on(&mut self, word: &'a [u8]) -> bool
        ensures { GoesOn result (whole_step self.old word.now) self.new }
    {
        let next = self.after(word);
        go_to(self, next)
    }

    /// The command, if the line may end here.
    pub fn finish(&self, alloc: Global) -> Result<Option<MapCommand>, NoMemory>
        ensures { IfOk result (λ command. command ≡ whole_finish self.now) }
    {
        match self {
            WholeState::Bare(verb) => Ok(verb.without()),
            WholeState::Map(_, _) => Ok(None),
            WholeState::Given(verb, map) => Ok(Some(verb.command(map.copy(alloc)?))),
        }
    }
}
