//! `map lookup|getnext MAP [key DATA]`, `map delete MAP key DATA`.

ghost use Rattle.std.specs.Prelude.{◌≡◌, false, IfOk};
ghost use Rattle.console_operand.specs.Automaton.{GoesOn, GoesOver};
ghost use Rattle.console_map_syntax.specs.KeySteps.{without_key, of_key, named_keyed, front_step, key_step, key_finish};

use crate::NoMemory;
use crate::command::MapCommand;
use console_operand::{Data, DataBytes, LineReference, Named, Naming, Reference, Unread, go_to};
use std::alloc::Global;

/// A command on a map and a key.
#[derive(Clone, Copy)]
pub enum KeyVerb {
    Lookup,
    GetNext,
    Delete,
}

impl KeyVerb {
    /// The command without a key, if that may be missing.
    fn without(self, map: Reference) -> Option<MapCommand>
        ensures { result ≡ without_key self map }
    {
        match self {
            KeyVerb::Lookup => Some(MapCommand::Lookup { map, key: None }),
            KeyVerb::GetNext => Some(MapCommand::GetNext { map, key: None }),
            KeyVerb::Delete => None,
        }
    }

    fn command(self, map: Reference, key: DataBytes) -> MapCommand
        ensures { result ≡ of_key self map key }
    {
        match self {
            KeyVerb::Lookup => MapCommand::Lookup {
                map,
                key: Some(key),
            },
            KeyVerb::GetNext => MapCommand::GetNext {
                map,
                key: Some(key),
            },
            KeyVerb::Delete => MapCommand::Delete { map, key },
        }
    }
}

/// What the words after such a verb have come to.
#[derive(Drop)]
pub enum KeyState<'a> {
    Map(KeyVerb, Naming),
    Given(KeyVerb, LineReference<'a>),
    Key(KeyVerb, LineReference<'a>, Data),
}

impl<'a> KeyState<'a> {
    fn of(verb: KeyVerb, named: Named<'a>) -> KeyState<'a>
        ensures { result ≡ named_keyed verb named.entry }
    {
        match named {
            Named::Going(naming) => KeyState::Map(verb, naming),
            Named::Found(map) => KeyState::Given(verb, map),
        }
    }

    /// What a word in front of the key leads to; `None` if no line goes on so.
    fn next(&self, alloc: Global, word: &'a [u8]) -> Option<KeyState<'a>>
        ensures { result ≡ front_step self.now word.now }
    {
        match self {
            KeyState::Map(verb, naming) => Some(KeyState::of(*verb, naming.after(word)?)),
            KeyState::Given(verb, map) => {
                if word == b"key".as_slice() {
                    Some(KeyState::Key(*verb, map.again(), Data::new(alloc)))
                } else {
                    None
                }
            }
            KeyState::Key(_, _, _) => None,
        }
    }

    /// Reads one more word in front of the key; false if no line goes on so.
    fn begin(&mut self, alloc: Global, word: &'a [u8]) -> bool
        ensures { GoesOn result (front_step self.old word.now) self.new }
    {
        let next = self.next(alloc, word);
        go_to(self, next)
    }

    /// Reads one more word, and words that come next; false if no line goes on so.
    pub fn go_on(
        &mut self,
        alloc: Global,
        word: &'a [u8],
        unread: &mut Unread<'a>,
    ) -> Result<bool, NoMemory>
        ensures goes_on { IfOk result (λ goes. GoesOver key_step goes self.old word.now unread.old self.new unread.new) }
        ensures stays { IfOk result (λ goes. goes ≡ false → unread.new ≡ unread.old) }
    {
        match self {
            KeyState::Key(_, _, read) => read.go_on(word, unread),
            _ => Ok(self.begin(alloc, word)),
        }
    }

    /// The command, if the line may end here.
    pub fn finish(self, alloc: Global) -> Result<Option<MapCommand>, NoMemory>
        ensures { IfOk result (λ command. command ≡ key_finish self.entry) }
    {
        match self {
            KeyState::Map(_, _) => Ok(None),
            KeyState::Given(verb, map) => Ok(verb.without(map.copy(alloc)?)),
            KeyState::Key(verb, map, mut read) => match read.finish(alloc) {
                Some(key) => Ok(Some(verb.command(map.copy(alloc)?, key))),
                None => Ok(None),
            },
        }
    }
}
