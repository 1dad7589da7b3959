//! The words after `map`.

ghost use Rattle.std.specs.Prelude.{◌≡◌, false, IfOk, codes};
ghost use Rattle.std.specs.Str.{bytes_eq};
ghost use Rattle.std.specs.Option.{option_map};
ghost use Rattle.console_operand.specs.Word.{spelled_by};
ghost use Rattle.console_operand.specs.Automaton.{GoesOn, GoesOver};
ghost use Rattle.console_map_syntax.specs.MapSteps.{verb_word, verbs, on_key, on_map, after_verb, pinned_map, map_step, map_finish};
ghost use Rattle.console_operand.specs.PinSteps.{pin_finish};

use crate::NoMemory;
use crate::command::MapCommand;
use crate::create::CreateState;
use crate::key::{KeyState, KeyVerb};
use crate::push::PushState;
use crate::update::UpdateState;
use crate::whole::{WholeState, WholeVerb};
use console_operand::{Naming, PinState, Unread};
use std::alloc::Global;
use std::mem;

/// A word after `map`.
#[derive(Clone, Copy)]
pub enum MapVerb {
    Show,
    List,
    Create,
    Dump,
    Update,
    Lookup,
    GetNext,
    Delete,
    Peek,
    Push,
    Enqueue,
    Pop,
    Dequeue,
    Freeze,
    Pin,
}

/// Whether the word is the one that most lines have.
fn is_update(word: &[u8]) -> bool
    ensures { result ≡ bytes_eq word.now (codes "update") }
{
    matches!(word, b"update")
}

impl MapVerb {
    fn of(word: &[u8]) -> Option<MapVerb>
        ensures { result ≡ spelled_by verb_word verbs word.now }
    {
        if is_update(word) {
            Some(MapVerb::Update)
        } else if word == b"lookup".as_slice() {
            Some(MapVerb::Lookup)
        } else if word == b"delete".as_slice() {
            Some(MapVerb::Delete)
        } else if word == b"push".as_slice() {
            Some(MapVerb::Push)
        } else if word == b"enqueue".as_slice() {
            Some(MapVerb::Enqueue)
        } else if word == b"pop".as_slice() {
            Some(MapVerb::Pop)
        } else if word == b"dequeue".as_slice() {
            Some(MapVerb::Dequeue)
        } else if word == b"peek".as_slice() {
            Some(MapVerb::Peek)
        } else if word == b"getnext".as_slice() {
            Some(MapVerb::GetNext)
        } else if word == b"dump".as_slice() {
            Some(MapVerb::Dump)
        } else if word == b"show".as_slice() {
            Some(MapVerb::Show)
        } else if word == b"list".as_slice() {
            Some(MapVerb::List)
        } else if word == b"create".as_slice() {
            Some(MapVerb::Create)
        } else if word == b"freeze".as_slice() {
            Some(MapVerb::Freeze)
        } else if word == b"pin".as_slice() {
            Some(MapVerb::Pin)
        } else {
            None
        }
    }
}

/// What the words after `map` have come to.
#[derive(Drop)]
pub enum MapState<'a> {
    Verb,
    Create(CreateState<'a>),
    Update(UpdateState<'a>),
    Key(KeyState<'a>),
    Push(PushState<'a>),
    Whole(WholeState<'a>),
    Pin(PinState<'a>),
}

fn on_key<'a>(verb: KeyVerb) -> MapState<'a>
    ensures { result ≡ on_key verb }
{
    MapState::Key(KeyState::Map(verb, Naming::Form))
}

fn on_map<'a>(verb: WholeVerb) -> MapState<'a>
    ensures { result ≡ on_map verb }
{
    MapState::Whole(WholeState::Bare(verb))
}

/// The command that pins a map, if the line may end here.
fn pin(alloc: Global, state: PinState<'_>) -> Result<Option<MapCommand>, NoMemory>
    ensures { IfOk result (λ command. command ≡ option_map pinned_map (pin_finish state.entry)) }
{
    match state.finish() {
        Some((map, path)) => Ok(Some(MapCommand::Pin {
            map: map.copy(alloc)?,
            path: path.copy(alloc)?,
        })),
        None => Ok(None),
    }
}

impl<'a> MapState<'a> {
    fn of(verb: MapVerb) -> MapState<'a>
        ensures { result ≡ after_verb verb }
    {
        match verb {
            MapVerb::Show | MapVerb::List => on_map(WholeVerb::Show),
            MapVerb::Create => MapState::Create(CreateState::Path),
            MapVerb::Dump => on_map(WholeVerb::Dump),
            MapVerb::Update => MapState::Update(UpdateState::Map(Naming::Form)),
            MapVerb::Lookup => on_key(KeyVerb::Lookup),
            MapVerb::GetNext => on_key(KeyVerb::GetNext),
            MapVerb::Delete => on_key(KeyVerb::Delete),
            MapVerb::Peek => on_map(WholeVerb::Peek),
            MapVerb::Push | MapVerb::Enqueue => MapState::Push(PushState::Map(Naming::Form)),
            MapVerb::Pop | MapVerb::Dequeue => on_map(WholeVerb::Pop),
            MapVerb::Freeze => on_map(WholeVerb::Freeze),
            MapVerb::Pin => MapState::Pin(PinState::Object(Naming::Form)),
        }
    }

    /// Reads the word after `map`; false if no line goes on so.
    fn begin(&mut self, word: &[u8]) -> bool
        ensures { GoesOn result (option_map after_verb (spelled_by verb_word verbs word.now)) self.new }
    {
        match MapVerb::of(word) {
            Some(verb) => {
                *self = MapState::of(verb);
                true
            }
            None => false,
        }
    }

    /// Reads one more word, and words that come next; false if no line goes on so, and then what is left
    /// says nothing.
    pub fn go_on(
        &mut self,
        alloc: Global,
        word: &'a [u8],
        unread: &mut Unread<'a>,
    ) -> Result<bool, NoMemory>
        ensures goes_on { IfOk result (λ goes. GoesOver map_step goes self.old word.now unread.old self.new unread.new) }
        ensures stays { IfOk result (λ goes. goes ≡ false → unread.new ≡ unread.old) }
    {
        match self {
            MapState::Verb => Ok(self.begin(word)),
            MapState::Create(state) => Ok(state.go_on(word)),
            MapState::Update(state) => state.go_on(alloc, word, unread),
            MapState::Key(state) => state.go_on(alloc, word, unread),
            MapState::Push(state) => state.go_on(alloc, word, unread),
            MapState::Whole(state) => Ok(state.go_on(word)),
            MapState::Pin(state) => Ok(state.go_on(word)),
        }
    }

    /// The command, if the line may end here and is no update.
    fn finish_other(self, alloc: Global) -> Result<Option<MapCommand>, NoMemory>
        ensures { IfOk result (λ command. command ≡ map_finish self.entry) }
    {
        match self {
            MapState::Verb => Ok(None),
            MapState::Create(state) => state.finish(alloc),
            MapState::Update(mut state) => state.finish(alloc),
            MapState::Key(state) => state.finish(alloc),
            MapState::Push(state) => state.finish(alloc),
            MapState::Whole(state) => state.finish(alloc),
            MapState::Pin(state) => pin(alloc, state),
        }
    }

    /// The command, if the line may end here. What is left says nothing.
    pub fn finish(&mut self, alloc: Global) -> Result<Option<MapCommand>, NoMemory>
        ensures { IfOk result (λ command. command ≡ map_finish self.old) }
    {
        match self {
            MapState::Update(state) => state.finish(alloc),
            _ => mem::replace(self, MapState::Verb).finish_other(alloc),
        }
    }
}
