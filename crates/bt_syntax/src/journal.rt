//! The commands on the journal: `journal mark NAME`, `journal undo [NAME]`, `journal redo`, `journal list`,
//! `journal forget NAME`, `journal without NUM`.

ghost use Rattle.std.specs.Prelude.{◌≡◌, IfOk};
ghost use Rattle.console_operand.specs.Word.{spelled_by};
ghost use Rattle.console_operand.specs.Automaton.{GoesOn};
ghost use Rattle.bt_syntax.specs.JournalSteps.{verb_word, verbs, bare_command, command_with, journal_step, journal_finish};

use crate::NoMemory;
use console_operand::go_to;
use console_operand::number::number;
use host_words::Word;
use std::alloc::Global;
use std::mem;

/// A command on the journal.
#[derive(PartialEq, Eq, Debug, Drop)]
pub enum JournalCommand {
    /// Notes where the journal stands, under a name.
    Mark(Word),
    /// Takes back what came after the mark of this name; without a name, the last moment.
    Undo(Option<Word>),
    /// Brings back the first of the moments that were undone.
    Redo,
    /// Asks for the changes and the marks.
    List,
    /// Gives up what came before the mark of this name.
    Forget(Word),
    /// Takes out the change of this serial, and keeps what came after it.
    Without(u64),
}

#[derive(Clone, Copy)]
pub enum JournalVerb {
    Mark,
    Undo,
    Redo,
    List,
    Forget,
    Without,
}

impl JournalVerb {
    fn of(word: &[u8]) -> Option<JournalVerb>
        ensures { result ≡ spelled_by verb_word verbs word.now }
    {
        if word == b"mark".as_slice() {
            Some(JournalVerb::Mark)
        } else if word == b"undo".as_slice() {
            Some(JournalVerb::Undo)
        } else if word == b"redo".as_slice() {
            Some(JournalVerb::Redo)
        } else if word == b"list".as_slice() {
            Some(JournalVerb::List)
        } else if word == b"forget".as_slice() {
            Some(JournalVerb::Forget)
        } else if word == b"without".as_slice() {
            Some(JournalVerb::Without)
        } else {
            None
        }
    }

    /// The command, if nothing more needs to be said.
    fn bare(self) -> Option<JournalCommand>
        ensures { result ≡ bare_command self }
    {
        match self {
            JournalVerb::Mark => None,
            JournalVerb::Undo => Some(JournalCommand::Undo(None)),
            JournalVerb::Redo => Some(JournalCommand::Redo),
            JournalVerb::List => Some(JournalCommand::List),
            JournalVerb::Forget => None,
            JournalVerb::Without => None,
        }
    }

    /// The command with one more word, a name or a serial; `None` if it takes none, or the word spells no serial.
    fn with(self, alloc: Global, word: &[u8]) -> Result<Option<JournalCommand>, NoMemory>
        ensures { IfOk result (λ command. command ≡ command_with self word.now) }
    {
        match self {
            JournalVerb::Mark => Ok(Some(JournalCommand::Mark(Word::new(alloc, word)?))),
            JournalVerb::Undo => Ok(Some(JournalCommand::Undo(Some(Word::new(alloc, word)?)))),
            JournalVerb::Redo => Ok(None),
            JournalVerb::List => Ok(None),
            JournalVerb::Forget => Ok(Some(JournalCommand::Forget(Word::new(alloc, word)?))),
            JournalVerb::Without => Ok(number(word).map(JournalCommand::Without)),
        }
    }
}

/// What the words after `journal` have come to.
#[derive(Drop)]
pub enum JournalState {
    Verb,
    /// A name or a serial may come next.
    Bare(JournalVerb),
    Done(JournalCommand),
}

impl JournalState {
    /// What one more word makes of it; `None` if no line goes on so.
    fn after(self, alloc: Global, word: &[u8]) -> Result<Option<JournalState>, NoMemory>
        ensures { IfOk result (λ next. next ≡ journal_step self word.now) }
    {
        match self {
            JournalState::Verb => Ok(JournalVerb::of(word).map(JournalState::Bare)),
            JournalState::Bare(verb) => Ok(verb.with(alloc, word)?.map(JournalState::Done)),
            JournalState::Done(_) => Ok(None),
        }
    }

    /// Reads one more word; false if no line goes on so, and then what is left says nothing.
    pub fn go_on(&mut self, alloc: Global, word: &[u8]) -> Result<bool, NoMemory>
        ensures { IfOk result (λ goes. GoesOn goes (journal_step self.old word.now) self.new) }
    {
        let next = mem::replace(self, JournalState::Verb).after(alloc, word)?;
        Ok(go_to(self, next))
    }

    /// The command, if the line may end here.
    pub fn finish(self) -> Option<JournalCommand>
        ensures { result ≡ journal_finish self }
    {
        match self {
            JournalState::Verb => None,
            JournalState::Bare(verb) => verb.bare(),
            JournalState::Done(command) => Some(command),
        }
    }
}
