//! VALUE: DATA, or a reference to the object that a map of ids is to hold.

ghost use Rattle.std.specs.Prelude.{◌≡◌, false, IfOk};
ghost use Rattle.std.specs.Option.{option_map};
ghost use Rattle.console_operand.specs.Automaton.{GoesOn, GoesOver, Takes};
ghost use Rattle.console_operand.specs.ReferenceSteps.{naming_step};
ghost use Rattle.console_operand.specs.ValueSteps.{named_value, value_step, value_finish};
ghost use Rattle.console_operand.specs.declared.value.ValueState.TheVariants.{First};

use crate::NoMemory;
use crate::data_words::{Data, DataBytes, RUN_MAX};
use crate::reference::{Form, LineReference, Named, Naming, Reference};
use crate::step::go_to;
use crate::unread::Unread;
use crate::words::LineWord;
use host_words::Word;
use std::alloc::Global;

/// What a command puts into a map.
#[derive(PartialEq, Eq, Debug, Drop)]
pub enum Value<P = Word> {
    Data(DataBytes),
    /// The id of this object, into a map of ids.
    Object(Reference<P>),
}

/// A value where it stands in its line.
pub type LineValue<'a> = Value<LineWord<'a>>;

impl<'a> Value<LineWord<'a>> {
    /// The value with a path or a name that it owns. NoMemory if none is left for it.
    pub fn copy(self, alloc: Global) -> Result<Value, NoMemory>
        ensures { IfOk result (λ value. value ≡ self.entry) }
    {
        match self {
            Value::Data(bytes) => Ok(Value::Data(bytes)),
            Value::Object(object) => Ok(Value::Object(object.copy(alloc)?)),
        }
    }
}

/// VALUE as far as it was read.
#[derive(Drop)]
pub enum ValueState<'a> {
    /// Its first word comes next.
    First,
    Data(Data),
    Object(Naming),
    Found(LineReference<'a>),
}

impl<'a> ValueState<'a> {
    fn of(named: Named<'a>) -> ValueState<'a>
        ensures { result ≡ named_value named.entry }
    {
        match named {
            Named::Going(naming) => ValueState::Object(naming),
            Named::Found(object) => ValueState::Found(object),
        }
    }

    /// Reads the first word, and words that come next; false, and nothing changes, if no VALUE begins so.
    fn begin(
        &mut self,
        alloc: Global,
        word: &[u8],
        unread: &mut Unread<'_>,
    ) -> Result<bool, NoMemory>
        requires { self.old ≡ First }
        ensures goes_on { IfOk result (λ goes. GoesOver value_step goes self.old word.now unread.old self.new unread.new) }
        ensures stays { IfOk result (λ goes. goes ≡ false → (self.new ≡ self.old) × (unread.new ≡ unread.old)) }
    {
        if let Some(form) = Form::of(word) {
            *self = ValueState::Object(Naming::Object(form));
            return Ok(true);
        }
        let mut read = Data::new(alloc);
        if !read.go_on(word, unread)? {
            return Ok(false);
        }
        *self = ValueState::Data(read);
        Ok(true)
    }

    /// Reads one more word of a reference; false, and nothing changes, if the word is no part of it.
    fn name(&mut self, naming: Naming, word: &'a [u8]) -> bool
        ensures goes_on { GoesOn result (option_map named_value (naming_step naming word.now)) self.new }
        ensures stays { result ≡ false → self.new ≡ self.old }
    {
        let next = naming.after(word).map(ValueState::of);
        go_to(self, next)
    }

    /// Begins with the bytes that come next, as far as they are decimal, written as most are, and one run holds them; else
    /// nothing changes.
    fn begin_run(&mut self, alloc: Global, unread: &mut Unread<'_>) -> Result<(), NoMemory>
        requires { self.old ≡ First }
        ensures { IfOk result (λ _. Takes value_step self.old unread.old self.new unread.new) }
    {
        let mut run = [0; RUN_MAX];
        let count = unread.short_bytes(false, RUN_MAX, &mut run);
        if count > 0 {
            *self = ValueState::Data(Data::of(alloc, &run[..count])?);
        }
        Ok(())
    }

    /// Reads words that come next, if VALUE begins.
    pub fn take(&mut self, alloc: Global, unread: &mut Unread<'_>) -> Result<(), NoMemory>
        ensures { IfOk result (λ _. Takes value_step self.old unread.old self.new unread.new) }
    {
        match self {
            ValueState::First => self.begin_run(alloc, unread),
            _ => Ok(()),
        }
    }

    /// Reads one more word, and words that come next; false, and nothing changes, if the word is no part of
    /// it.
    pub fn go_on(
        &mut self,
        alloc: Global,
        word: &'a [u8],
        unread: &mut Unread<'a>,
    ) -> Result<bool, NoMemory>
        ensures goes_on { IfOk result (λ goes. GoesOver value_step goes self.old word.now unread.old self.new unread.new) }
        ensures stays { IfOk result (λ goes. goes ≡ false → (self.new ≡ self.old) × (unread.new ≡ unread.old)) }
    {
        match self {
            ValueState::First => self.begin(alloc, word, unread),
            ValueState::Data(read) => read.go_on(word, unread),
            ValueState::Object(naming) => {
                let naming = *naming;
                Ok(self.name(naming, word))
            }
            ValueState::Found(_) => Ok(false),
        }
    }

    /// The value, if it may end here. What is left says nothing.
    pub fn finish(&mut self, alloc: Global) -> Option<LineValue<'a>>
        ensures { result ≡ value_finish self.old }
    {
        match self {
            ValueState::First => None,
            ValueState::Data(read) => match read.finish(alloc) {
                Some(bytes) => Some(Value::Data(bytes)),
                None => None,
            },
            ValueState::Object(_) => None,
            ValueState::Found(object) => Some(Value::Object(object.again())),
        }
    }
}
