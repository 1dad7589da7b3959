//! The words after `prog`.

ghost use Rattle.std.specs.Prelude.{◌≡◌, IfOk};
ghost use Rattle.std.specs.Option.{option_map};
ghost use Rattle.console_operand.specs.Word.{spelled_by};
ghost use Rattle.console_operand.specs.Automaton.{GoesOn};
ghost use Rattle.console_operand.specs.Object.{object_of};
ghost use Rattle.console_operand.specs.PinSteps.{pin_finish};
ghost use Rattle.console_operand.specs.ReferenceSteps.{naming_step};
ghost use Rattle.bt_syntax.specs.ProgSteps.{verb_word, verbs, after_verb, asked, named_prog, xlated_step, pinned_prog, prog_step, prog_finish};

use super::command::ProgCommand;
use crate::NoMemory;
use console_operand::{LineReference, LineWord, Named, Naming, Object, PinState, Reference, go_to};
use std::alloc::Global;
use std::mem;

/// A word after `prog`.
#[derive(Clone, Copy)]
pub enum ProgVerb {
    Show,
    List,
    Dump,
    Pin,
    Load,
}

impl ProgVerb {
    fn of(word: &[u8]) -> Option<ProgVerb>
        ensures { result ≡ spelled_by verb_word verbs word.now }
    {
        if word == b"show".as_slice() {
            Some(ProgVerb::Show)
        } else if word == b"list".as_slice() {
            Some(ProgVerb::List)
        } else if word == b"dump".as_slice() {
            Some(ProgVerb::Dump)
        } else if word == b"pin".as_slice() {
            Some(ProgVerb::Pin)
        } else if word == b"load".as_slice() {
            Some(ProgVerb::Load)
        } else {
            None
        }
    }
}

/// What is asked of a program.
#[derive(Clone, Copy)]
pub enum ProgQuestion {
    Show,
    Dump,
}

impl ProgQuestion {
    fn command(self, prog: Reference) -> ProgCommand
        ensures { result ≡ asked self prog }
    {
        match self {
            ProgQuestion::Show => ProgCommand::Show { prog: Some(prog) },
            ProgQuestion::Dump => ProgCommand::Dump { prog },
        }
    }
}

/// What the words after `prog` have come to.
#[derive(Drop)]
pub enum ProgState<'a> {
    Verb,
    /// A program may come next.
    Show,
    /// `xlated` comes next.
    Dump,
    Prog(ProgQuestion, Naming),
    Given(ProgQuestion, LineReference<'a>),
    Pin(PinState<'a>),
    /// What is loaded comes next.
    Load,
    Path(Object),
    Loaded(Object, LineWord<'a>),
}

/// What the word after `dump` leads to.
fn xlated<'a>(word: &[u8]) -> Option<ProgState<'a>>
    ensures { result ≡ xlated_step word.now }
{
    if word == b"xlated".as_slice() {
        Some(ProgState::Prog(ProgQuestion::Dump, Naming::Form))
    } else {
        None
    }
}

/// What the word after `load` leads to.
fn load<'a>(alloc: Global, word: &[u8]) -> Result<Option<ProgState<'a>>, NoMemory>
    ensures { IfOk result (λ next. next ≡ option_map ProgState.Path (object_of word.now)) }
{
    match Object::of(alloc, word)? {
        Some(object) => Ok(Some(ProgState::Path(object))),
        None => Ok(None),
    }
}

/// The command that pins a program, if the line may end here.
fn pin(alloc: Global, state: PinState<'_>) -> Result<Option<ProgCommand>, NoMemory>
    ensures { IfOk result (λ command. command ≡ option_map pinned_prog (pin_finish state.entry)) }
{
    match state.finish() {
        Some((prog, path)) => Ok(Some(ProgCommand::Pin {
            prog: prog.copy(alloc)?,
            path: path.copy(alloc)?,
        })),
        None => Ok(None),
    }
}

impl<'a> ProgState<'a> {
    fn of(verb: ProgVerb) -> ProgState<'a>
        ensures { result ≡ after_verb verb }
    {
        match verb {
            ProgVerb::Show | ProgVerb::List => ProgState::Show,
            ProgVerb::Dump => ProgState::Dump,
            ProgVerb::Pin => ProgState::Pin(PinState::Object(Naming::Form)),
            ProgVerb::Load => ProgState::Load,
        }
    }

    /// What one more word makes of a reference that is asked about.
    fn named(question: ProgQuestion, naming: Naming, word: &'a [u8]) -> Option<ProgState<'a>>
        ensures { result ≡ option_map (named_prog question) (naming_step naming word.now) }
    {
        match naming.after(word)? {
            Named::Going(naming) => Some(ProgState::Prog(question, naming)),
            Named::Found(prog) => Some(ProgState::Given(question, prog)),
        }
    }

    /// What one more word makes of it; `None` if no line goes on so.
    fn after(self, alloc: Global, word: &'a [u8]) -> Result<Option<ProgState<'a>>, NoMemory>
        ensures { IfOk result (λ next. next ≡ prog_step self.entry word.now) }
    {
        match self {
            ProgState::Verb => match ProgVerb::of(word) {
                Some(verb) => Ok(Some(ProgState::of(verb))),
                None => Ok(None),
            },
            ProgState::Show => Ok(ProgState::named(ProgQuestion::Show, Naming::Form, word)),
            ProgState::Dump => Ok(xlated(word)),
            ProgState::Prog(question, naming) => Ok(ProgState::named(question, naming, word)),
            ProgState::Given(_, _) => Ok(None),
            ProgState::Pin(state) => Ok(state.after(word).map(ProgState::Pin)),
            ProgState::Load => load(alloc, word),
            ProgState::Path(object) => Ok(Some(ProgState::Loaded(object, LineWord::new(word)))),
            ProgState::Loaded(_, _) => Ok(None),
        }
    }

    /// Reads one more word; false if no line goes on so, and then what is left says nothing.
    pub fn go_on(&mut self, alloc: Global, word: &'a [u8]) -> Result<bool, NoMemory>
        ensures { IfOk result (λ goes. GoesOn goes (prog_step self.old word.now) self.new) }
    {
        let next = mem::replace(self, ProgState::Verb).after(alloc, word)?;
        Ok(go_to(self, next))
    }

    /// The command, if the line may end here.
    pub fn finish(self, alloc: Global) -> Result<Option<ProgCommand>, NoMemory>
        ensures { IfOk result (λ command. command ≡ prog_finish self.entry) }
    {
        match self {
            ProgState::Show => Ok(Some(ProgCommand::Show { prog: None })),
            ProgState::Given(question, prog) => Ok(Some(question.command(prog.copy(alloc)?))),
            ProgState::Pin(state) => pin(alloc, state),
            ProgState::Loaded(object, path) => Ok(Some(ProgCommand::Load {
                object,
                path: path.copy(alloc)?,
            })),
            _ => Ok(None),
        }
    }
}
