//! The commands on runs that are begun by hand: `run start dev NAME hex:DIGITS`, `run step NUM`.

ghost use Rattle.std.specs.Prelude.{◌≡◌, IfOk};
ghost use Rattle.console_operand.specs.Word.{spelled_by};
ghost use Rattle.console_operand.specs.Automaton.{GoesOn};
ghost use Rattle.bt_syntax.specs.RunSteps.{verb_word, verbs, after_verb, run_step, run_finish};

use crate::NoMemory;
use crate::frame::{Frame, FrameState};
use console_operand::go_to;
use console_operand::number::number;
use std::alloc::Global;
use std::mem;

/// A command on runs.
#[derive(PartialEq, Eq, Debug, Drop)]
pub enum RunCommand {
    /// Begins a run of the program at the frame's device.
    Start(Frame),
    /// Takes the run of this number to its next access of a map, or to its end.
    Step(u64),
}

#[derive(Clone, Copy)]
pub enum RunVerb {
    Start,
    Step,
}

impl RunVerb {
    fn of(word: &[u8]) -> Option<RunVerb>
        ensures { result ≡ spelled_by verb_word verbs word.now }
    {
        if word == b"start".as_slice() {
            Some(RunVerb::Start)
        } else if word == b"step".as_slice() {
            Some(RunVerb::Step)
        } else {
            None
        }
    }
}

/// What the words after `run` have come to.
#[derive(Drop)]
pub enum RunState<'a> {
    Verb,
    Start(FrameState<'a>),
    /// The run's number comes next.
    Step,
    Stepped(u64),
}

impl<'a> RunState<'a> {
    fn of(verb: RunVerb) -> RunState<'a>
        ensures { result ≡ after_verb verb }
    {
        match verb {
            RunVerb::Start => RunState::Start(FrameState::Dev),
            RunVerb::Step => RunState::Step,
        }
    }

    /// What one more word makes of it; `None` if no line goes on so.
    fn after(self, alloc: Global, word: &'a [u8]) -> Result<Option<RunState<'a>>, NoMemory>
        ensures { IfOk result (λ next. next ≡ run_step self.entry word.now) }
    {
        match self {
            RunState::Verb => match RunVerb::of(word) {
                Some(verb) => Ok(Some(RunState::of(verb))),
                None => Ok(None),
            },
            RunState::Start(state) => match state.after(alloc, word)? {
                Some(state) => Ok(Some(RunState::Start(state))),
                None => Ok(None),
            },
            RunState::Step => match number(word) {
                Some(run) => Ok(Some(RunState::Stepped(run))),
                None => Ok(None),
            },
            RunState::Stepped(_) => Ok(None),
        }
    }

    /// Reads one more word; false if no line goes on so, and then what is left says nothing.
    pub fn go_on(&mut self, alloc: Global, word: &'a [u8]) -> Result<bool, NoMemory>
        ensures { IfOk result (λ goes. GoesOn goes (run_step self.old word.now) self.new) }
    {
        let next = mem::replace(self, RunState::Verb).after(alloc, word)?;
        Ok(go_to(self, next))
    }

    /// The command, if the line may end here.
    pub fn finish(self, alloc: Global) -> Result<Option<RunCommand>, NoMemory>
        ensures { IfOk result (λ command. command ≡ run_finish self.entry) }
    {
        match self {
            RunState::Verb => Ok(None),
            RunState::Start(state) => Ok(state.finish(alloc)?.map(RunCommand::Start)),
            RunState::Step => Ok(None),
            RunState::Stepped(run) => Ok(Some(RunCommand::Step(run))),
        }
    }
}
