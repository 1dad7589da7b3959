//! `map update MAP {key DATA, value VALUE, any|exist|noexist}`.

ghost use Rattle.std.specs.Prelude.{◌≡◌, false, IfOk};
ghost use Rattle.std.specs.Option.{option_map};
ghost use Rattle.console_operand.specs.Word.{spelled_by};
ghost use Rattle.console_map_syntax.specs.MapGrammar.{ungiven, updated};
ghost use Rattle.console_operand.specs.Automaton.{GoesOn, GoesOver, Takes};
ghost use Rattle.console_map_syntax.specs.UpdateSteps.{update_word, update_words, behind, at, given_step, part_step, takes_any_word, closed, turned, update_step, update_finish};
ghost use Rattle.console_map_syntax.specs.declared.update.UpdatePart.TheVariants.{Nothing};
ghost use Rattle.console_map_syntax.specs.declared.update.UpdateState.TheVariants.{Given};

use crate::NoMemory;
use crate::command::{MapCommand, UpdateFlag};
use console_operand::{
    Data, DataBytes, Form, LineReference, LineValue, Named, Naming, Unread, ValueState, go_to,
};
use std::alloc::Global;

/// A word after the map.
#[derive(Clone, Copy)]
pub enum UpdateWord {
    Key,
    Value,
    Flag(UpdateFlag),
}

impl UpdateWord {
    fn of(word: &[u8]) -> Option<UpdateWord>
        ensures { result ≡ spelled_by update_word update_words word.now }
    {
        match word {
            b"key" => Some(UpdateWord::Key),
            b"value" => Some(UpdateWord::Value),
            b"any" => Some(UpdateWord::Flag(UpdateFlag::Any)),
            b"exist" => Some(UpdateWord::Flag(UpdateFlag::Exist)),
            _ if word == b"noexist".as_slice() => Some(UpdateWord::Flag(UpdateFlag::NoExist)),
            _ => None,
        }
    }
}

/// The part of an update that is being read, which goes on as long as it can.
#[derive(Drop)]
pub enum UpdatePart<'a> {
    Nothing,
    Key(Data),
    Value(ValueState<'a>),
}

impl<'a> UpdatePart<'a> {
    /// Whether any word may come next, as the path or the name of an object.
    fn takes_any_word(&self) -> bool
        ensures { result ≡ takes_any_word self.now }
    {
        matches!(
            self,
            UpdatePart::Value(ValueState::Object(Naming::Object(Form::Pinned | Form::Name)))
        )
    }

    /// Reads one more word, and words that come next; false, and nothing changes, if the word is no part of
    /// it.
    fn go_on(
        &mut self,
        alloc: Global,
        word: &'a [u8],
        unread: &mut Unread<'a>,
    ) -> Result<bool, NoMemory>
        ensures goes_on { IfOk result (λ goes. GoesOver part_step goes self.old word.now unread.old self.new unread.new) }
        ensures stays { IfOk result (λ goes. goes ≡ false → (self.new ≡ self.old) × (unread.new ≡ unread.old)) }
    {
        match self {
            UpdatePart::Nothing => Ok(false),
            UpdatePart::Key(read) => read.go_on(word, unread),
            UpdatePart::Value(read) => read.go_on(alloc, word, unread),
        }
    }

    /// Reads words that come next.
    fn take(&mut self, alloc: Global, unread: &mut Unread<'a>) -> Result<(), NoMemory>
        ensures { IfOk result (λ _. Takes part_step self.old unread.old self.new unread.new) }
    {
        match self {
            UpdatePart::Nothing => Ok(()),
            UpdatePart::Key(read) => read.take(unread),
            UpdatePart::Value(read) => read.take(alloc, unread),
        }
    }
}

/// An update as far as it was read.
#[derive(Drop)]
pub struct Updating<'a> {
    pub map: LineReference<'a>,
    pub key: Option<DataBytes>,
    pub value: Option<LineValue<'a>>,
    pub flag: Option<UpdateFlag>,
}

impl<'a> Updating<'a> {
    fn new(map: LineReference<'a>) -> Updating<'a>
        ensures { result ≡ ungiven map.entry }
    {
        Updating {
            map,
            key: None,
            value: None,
            flag: None,
        }
    }

    /// The part that a word begins; each may come once.
    fn open(&mut self, alloc: Global, word: UpdateWord) -> Option<UpdatePart<'a>>
        ensures { given_step self.old word ≡ option_map (at self.new) result }
    {
        match word {
            UpdateWord::Key if self.key.is_none() => Some(UpdatePart::Key(Data::new(alloc))),
            UpdateWord::Value if self.value.is_none() => Some(UpdatePart::Value(ValueState::First)),
            UpdateWord::Flag(flag) if self.flag.is_none() => {
                self.flag = Some(flag);
                Some(UpdatePart::Nothing)
            }
            _ => None,
        }
    }

    /// The command, if there is a value. What is left says nothing.
    fn command(&mut self, alloc: Global) -> Result<Option<MapCommand>, NoMemory>
        ensures { IfOk result (λ command. command ≡ updated self.old) }
    {
        match self.value.take() {
            Some(value) => Ok(Some(MapCommand::Update {
                map: self.map.copy(alloc)?,
                key: self.key.take(),
                value: value.copy(alloc)?,
                flag: self.flag.unwrap_or(UpdateFlag::Any),
            })),
            None => Ok(None),
        }
    }
}

/// What is given, and the part after it that is being read.
#[derive(Drop)]
pub struct Giving<'a> {
    pub given: Updating<'a>,
    pub part: UpdatePart<'a>,
}

impl<'a> Giving<'a> {
    fn new(map: LineReference<'a>) -> Giving<'a>
        ensures { result ≡ behind (ungiven map.entry) Nothing }
    {
        Giving {
            given: Updating::new(map),
            part: UpdatePart::Nothing,
        }
    }

    /// Takes what was read of the part; false if that can't end here. What is left of the part says nothing.
    fn close(&mut self, alloc: Global) -> bool
        ensures { GoesOn result (closed self.old) self.new.given }
    {
        match &mut self.part {
            UpdatePart::Nothing => true,
            UpdatePart::Key(read) => match read.finish(alloc) {
                Some(key) => {
                    self.given.key = Some(key);
                    true
                }
                None => false,
            },
            UpdatePart::Value(read) => match read.finish(alloc) {
                Some(value) => {
                    self.given.value = Some(value);
                    true
                }
                None => false,
            },
        }
    }

    /// Reads a word after the part; false if no line goes on so, and then what is left says nothing.
    fn turn(&mut self, alloc: Global, word: UpdateWord) -> bool
        ensures { GoesOn result (turned self.old word) (Given self.new) }
    {
        if !self.close(alloc) {
            return false;
        }
        let opened = self.given.open(alloc, word);
        go_to(&mut self.part, opened)
    }

    /// Reads one more word, and words that come next; false if no line goes on so, and then what is left
    /// says nothing. No word that begins a part is a byte, so that it ends the part before it, save where any word may come next.
    fn go_on(
        &mut self,
        alloc: Global,
        word: &'a [u8],
        unread: &mut Unread<'a>,
    ) -> Result<bool, NoMemory>
        ensures goes_on { IfOk result (λ goes. GoesOver update_step goes (Given self.old) word.now unread.old (Given self.new) unread.new) }
        ensures stays { IfOk result (λ goes. goes ≡ false → unread.new ≡ unread.old) }
    {
        match UpdateWord::of(word) {
            Some(next) if !self.part.takes_any_word() => {
                if !self.turn(alloc, next) {
                    return Ok(false);
                }
                self.part.take(alloc, unread)?;
                Ok(true)
            }
            _ => self.part.go_on(alloc, word, unread),
        }
    }

    /// The command, if the line may end here. What is left says nothing.
    fn finish(&mut self, alloc: Global) -> Result<Option<MapCommand>, NoMemory>
        ensures { IfOk result (λ command. command ≡ update_finish (Given self.old)) }
    {
        if self.close(alloc) {
            self.given.command(alloc)
        } else {
            Ok(None)
        }
    }
}

/// What the words after `map update` have come to.
#[derive(Drop)]
pub enum UpdateState<'a> {
    Map(Naming),
    Given(Giving<'a>),
}

impl<'a> UpdateState<'a> {
    /// Reads one more word, and words that come next; false if no line goes on so, and then what is left
    /// says nothing.
    pub fn go_on(
        &mut self,
        alloc: Global,
        word: &'a [u8],
        unread: &mut Unread<'a>,
    ) -> Result<bool, NoMemory>
        ensures goes_on { IfOk result (λ goes. GoesOver update_step goes self.old word.now unread.old self.new unread.new) }
        ensures stays { IfOk result (λ goes. goes ≡ false → unread.new ≡ unread.old) }
    {
        match self {
            UpdateState::Map(naming) => match naming.after(word) {
                Some(Named::Going(next)) => {
                    *naming = next;
                    Ok(true)
                }
                Some(Named::Found(map)) => {
                    *self = UpdateState::Given(Giving::new(map));
                    Ok(true)
                }
                None => Ok(false),
            },
            UpdateState::Given(giving) => giving.go_on(alloc, word, unread),
        }
    }

    /// The command, if the line may end here. What is left says nothing.
    pub fn finish(&mut self, alloc: Global) -> Result<Option<MapCommand>, NoMemory>
        ensures { IfOk result (λ command. command ≡ update_finish self.old) }
    {
        match self {
            UpdateState::Map(_) => Ok(None),
            UpdateState::Given(giving) => giving.finish(alloc),
        }
    }
}
