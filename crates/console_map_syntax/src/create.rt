//! `map create FILE {type T, key NUM, value NUM, entries NUM, name NAME, flags NUM, inner_map MAP}`.

ghost use Rattle.std.specs.Prelude.{◌≡◌, IfOk};
ghost use Rattle.std.specs.Option.{option_and_then};
ghost use Rattle.console_operand.specs.Automaton.{GoesOn};
ghost use Rattle.console_map_syntax.specs.Made.{map_made};
ghost use Rattle.console_operand.specs.Word.{spelled_by};
ghost use Rattle.console_map_syntax.specs.MapGrammar.{type_of, is_set, set_to, with_inner, unset, attr_of, created};
ghost use Rattle.console_map_syntax.specs.CreateSteps.{create_word, create_words, setting_step, named_inner, create_step, create_finish};

use crate::NoMemory;
use crate::command::MapCommand;
use bt_mapkind::{MapAttr, MapType};
use console_operand::number::number_of;
use console_operand::{LineReference, LineWord, Named, Naming, Reference, go_to};
use std::alloc::Global;
use std::mem;

/// The type that a word names.
fn map_type(word: &[u8]) -> Option<MapType>
    ensures { result ≡ type_of word.now }
{
    if word == b"array".as_slice() {
        Some(MapType::Array)
    } else if word == b"hash".as_slice() {
        Some(MapType::Hash)
    } else if word == b"lpm_trie".as_slice() {
        Some(MapType::LpmTrie)
    } else if word == b"queue".as_slice() {
        Some(MapType::Queue)
    } else if word == b"stack".as_slice() {
        Some(MapType::Stack)
    } else if word == b"array_of_maps".as_slice() {
        Some(MapType::ArrayOfMaps)
    } else if word == b"prog_array".as_slice() {
        Some(MapType::ProgArray)
    } else if word == b"hash_of_maps".as_slice() {
        Some(MapType::HashOfMaps)
    } else {
        None
    }
}

/// A setting of a new map.
#[derive(Clone, Copy)]
pub enum Setting {
    Type,
    Key,
    Value,
    Entries,
    Name,
    Flags,
}

/// A word after the path of a new map.
#[derive(Clone, Copy)]
pub enum CreateWord {
    Setting(Setting),
    InnerMap,
}

impl CreateWord {
    fn of(word: &[u8]) -> Option<CreateWord>
        ensures { result ≡ spelled_by create_word create_words word.now }
    {
        if word == b"type".as_slice() {
            Some(CreateWord::Setting(Setting::Type))
        } else if word == b"key".as_slice() {
            Some(CreateWord::Setting(Setting::Key))
        } else if word == b"value".as_slice() {
            Some(CreateWord::Setting(Setting::Value))
        } else if word == b"entries".as_slice() {
            Some(CreateWord::Setting(Setting::Entries))
        } else if word == b"name".as_slice() {
            Some(CreateWord::Setting(Setting::Name))
        } else if word == b"flags".as_slice() {
            Some(CreateWord::Setting(Setting::Flags))
        } else if word == b"inner_map".as_slice() {
            Some(CreateWord::InnerMap)
        } else {
            None
        }
    }
}

/// A new map as far as its settings were read.
#[derive(Drop)]
pub struct Creating<'a> {
    pub path: LineWord<'a>,
    pub kind: Option<MapType>,
    pub key_size: Option<u32>,
    pub value_size: Option<u32>,
    pub max_entries: Option<u32>,
    pub name: Option<LineWord<'a>>,
    pub flags: Option<u32>,
    pub inner_map: Option<LineReference<'a>>,
}

/// The inner map with a path of its own, if one is given.
fn inner_map(alloc: Global, map: Option<LineReference<'_>>) -> Result<Option<Reference>, NoMemory>
    ensures { IfOk result (λ kept. kept ≡ map.entry) }
{
    match map {
        Some(map) => Ok(Some(map.copy(alloc)?)),
        None => Ok(None),
    }
}

impl<'a> Creating<'a> {
    fn new(path: LineWord<'a>) -> Creating<'a>
        ensures { result ≡ unset path.entry }
    {
        Creating {
            path,
            kind: None,
            key_size: None,
            value_size: None,
            max_entries: None,
            name: None,
            flags: None,
            inner_map: None,
        }
    }

    fn is_set(&self, setting: Setting) -> bool
        ensures { result ≡ is_set self.now setting }
    {
        match setting {
            Setting::Type => self.kind.is_some(),
            Setting::Key => self.key_size.is_some(),
            Setting::Value => self.value_size.is_some(),
            Setting::Entries => self.max_entries.is_some(),
            Setting::Name => self.name.is_some(),
            Setting::Flags => self.flags.is_some(),
        }
    }

    /// What the word leads to; each may come once.
    fn next(self, word: CreateWord) -> Option<CreateState<'a>>
        ensures { result ≡ setting_step self.entry word }
    {
        match word {
            CreateWord::Setting(setting) => {
                if self.is_set(setting) {
                    return None;
                }
                Some(CreateState::Value(self, setting))
            }
            CreateWord::InnerMap => {
                if self.inner_map.is_some() {
                    return None;
                }
                Some(CreateState::InnerMap(self, Naming::Form))
            }
        }
    }

    fn with_inner(mut self, map: LineReference<'a>) -> Creating<'a>
        ensures { result ≡ with_inner self.entry map.entry }
    {
        self.inner_map = Some(map);
        self
    }

    /// The setting with the value that the word spells.
    fn set(mut self, setting: Setting, word: &'a [u8]) -> Option<Creating<'a>>
        ensures { result ≡ set_to self.entry setting word.now }
    {
        match setting {
            Setting::Type => self.kind = Some(map_type(word)?),
            Setting::Key => self.key_size = Some(number_of(word)?),
            Setting::Value => self.value_size = Some(number_of(word)?),
            Setting::Entries => self.max_entries = Some(number_of(word)?),
            Setting::Name => self.name = Some(LineWord::new(word)),
            Setting::Flags => self.flags = Some(number_of(word)?),
        }
        Some(self)
    }

    /// The attributes, if all that they need is set.
    fn attr(&self) -> Option<MapAttr>
        ensures { result ≡ attr_of self.now }
    {
        Some(MapAttr {
            kind: self.kind?,
            key_size: self.key_size.unwrap_or(0),
            value_size: self.value_size?,
            max_entries: self.max_entries?,
            flags: self.flags.unwrap_or(0),
        })
    }

    /// The attributes, if all that is required is set and they are good.
    fn good_attr(&self) -> Option<MapAttr>
        ensures { result ≡ option_and_then map_made (created self.now) }
    {
        let attr = self.attr()?;
        if self.name.is_some() && attr.good() {
            Some(attr)
        } else {
            None
        }
    }

    /// The command, if all that is required is set.
    fn command(self, alloc: Global) -> Result<Option<MapCommand>, NoMemory>
        ensures { IfOk result (λ command. command ≡ created self.entry) }
    {
        match (self.attr(), self.name) {
            (Some(attr), Some(name)) => Ok(Some(MapCommand::Create {
                path: self.path.copy(alloc)?,
                attr,
                name: name.copy(alloc)?,
                inner_map: inner_map(alloc, self.inner_map)?,
            })),
            _ => Ok(None),
        }
    }
}

/// What the words after `map create` have come to. It takes no memory.
#[derive(Drop)]
pub enum CreateState<'a> {
    Path,
    Settings(Creating<'a>),
    Value(Creating<'a>, Setting),
    InnerMap(Creating<'a>, Naming),
}

impl<'a> CreateState<'a> {
    fn of(creating: Creating<'a>, named: Named<'a>) -> CreateState<'a>
        ensures { result ≡ named_inner creating.entry named.entry }
    {
        match named {
            Named::Going(naming) => CreateState::InnerMap(creating, naming),
            Named::Found(map) => CreateState::Settings(creating.with_inner(map)),
        }
    }

    /// What one more word makes of it; `None` if no line goes on so.
    pub fn after(self, word: &'a [u8]) -> Option<CreateState<'a>>
        ensures { result ≡ create_step self.entry word.now }
    {
        match self {
            CreateState::Path => Some(CreateState::Settings(Creating::new(LineWord::new(word)))),
            CreateState::Settings(creating) => creating.next(CreateWord::of(word)?),
            CreateState::Value(creating, setting) => {
                Some(CreateState::Settings(creating.set(setting, word)?))
            }
            CreateState::InnerMap(creating, naming) => {
                Some(CreateState::of(creating, naming.after(word)?))
            }
        }
    }

    /// Reads one more word; false if no line goes on so, and then what is left says nothing.
    pub fn go_on(&mut self, word: &'a [u8]) -> bool
        ensures { GoesOn result (create_step self.old word.now) self.new }
    {
        let next = mem::replace(self, CreateState::Path).after(word);
        go_to(self, next)
    }

    /// The command, if the line may end here.
    pub fn finish(self, alloc: Global) -> Result<Option<MapCommand>, NoMemory>
        ensures { IfOk result (λ command. command ≡ create_finish self.entry) }
    {
        match self {
            CreateState::Settings(creating) => creating.command(alloc),
            _ => Ok(None),
        }
    }

    /// The attributes of the map, if the line may end here and they are good.
    pub fn good_attr(&self) -> Option<MapAttr>
        ensures { result ≡ option_and_then map_made (create_finish self.now) }
    {
        match self {
            CreateState::Settings(creating) => creating.good_attr(),
            _ => None,
        }
    }
}
