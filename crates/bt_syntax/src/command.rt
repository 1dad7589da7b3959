//! A command, and a line as far as it was read.

ghost use Rattle.std.specs.Prelude.{◌≡◌, false, IfOk};
ghost use Rattle.std.specs.Option.{option_map};
ghost use Rattle.console_operand.specs.Word.{spelled_by};
ghost use Rattle.console_operand.specs.Automaton.{GoesOn, GoesOver};
ghost use Rattle.bt_syntax.specs.Steps.{family_word, families, after_family, step, finish};

use crate::NoMemory;
use crate::batch::BatchState;
use crate::frame::{Frame, FrameState};
use crate::journal::{JournalCommand, JournalState};
use crate::net::{NetCommand, NetState};
use crate::prog::{ProgCommand, ProgState};
use crate::run::{RunCommand, RunState};
use crate::unpin::UnpinState;
use console_map_syntax::{MapCommand, MapState};
use console_operand::Unread;
use host_words::Word;
use std::alloc::Global;
use std::mem;

/// What one line of a script asks for.
#[derive(PartialEq, Eq, Debug, Drop)]
pub enum Command {
    Map(MapCommand),
    Prog(ProgCommand),
    Net(NetCommand),
    /// Runs the lines of the file of this path.
    Batch(Word),
    /// Takes the pin at this path away.
    Unpin(Word),
    /// Runs the program at a frame's device on it.
    Frame(Frame),
    Run(RunCommand),
    Journal(JournalCommand),
}

/// A family of commands, by the first word of the line.
#[derive(Clone, Copy)]
pub enum Family {
    Map,
    Prog,
    Net,
    Batch,
    Unpin,
    Frame,
    Run,
    Journal,
}

impl Family {
    fn of(word: &[u8]) -> Option<Family>
        ensures { result ≡ spelled_by family_word families word.now }
    {
        if word == b"map".as_slice() {
            Some(Family::Map)
        } else if word == b"prog".as_slice() {
            Some(Family::Prog)
        } else if word == b"net".as_slice() {
            Some(Family::Net)
        } else if word == b"batch".as_slice() {
            Some(Family::Batch)
        } else if word == b"unpin".as_slice() {
            Some(Family::Unpin)
        } else if word == b"frame".as_slice() {
            Some(Family::Frame)
        } else if word == b"run".as_slice() {
            Some(Family::Run)
        } else if word == b"journal".as_slice() {
            Some(Family::Journal)
        } else {
            None
        }
    }
}

/// What the words of a line have come to.
#[derive(Drop)]
pub enum State<'a> {
    Start,
    Map(MapState<'a>),
    Prog(ProgState<'a>),
    Net(NetState<'a>),
    Batch(BatchState<'a>),
    Unpin(UnpinState<'a>),
    Frame(FrameState<'a>),
    Run(RunState<'a>),
    Journal(JournalState),
}

impl<'a> State<'a> {
    fn of(family: Family) -> State<'a>
        ensures { result ≡ after_family family }
    {
        match family {
            Family::Map => State::Map(MapState::Verb),
            Family::Prog => State::Prog(ProgState::Verb),
            Family::Net => State::Net(NetState::Verb),
            Family::Batch => State::Batch(BatchState::File),
            Family::Unpin => State::Unpin(UnpinState::Path),
            Family::Frame => State::Frame(FrameState::Dev),
            Family::Run => State::Run(RunState::Verb),
            Family::Journal => State::Journal(JournalState::Verb),
        }
    }

    /// Begins with the first word; false if no line begins so.
    fn begin(&mut self, word: &[u8]) -> bool
        ensures { GoesOn result (option_map after_family (spelled_by family_word families word.now)) self.new }
    {
        match Family::of(word) {
            Some(family) => {
                *self = State::of(family);
                true
            }
            None => false,
        }
    }

    /// Reads one more word, and words that come next; false if no line goes on so, and then what is left
    /// says nothing.
    pub fn go_on(
        &mut self,
        alloc: Global,
        word: &'a [u8],
        unread: &mut Unread<'a>,
    ) -> Result<bool, NoMemory>
        ensures goes_on { IfOk result (λ goes. GoesOver step goes self.old word.now unread.old self.new unread.new) }
        ensures stays { IfOk result (λ goes. goes ≡ false → unread.new ≡ unread.old) }
    {
        match self {
            State::Start => Ok(self.begin(word)),
            State::Map(state) => state.go_on(alloc, word, unread),
            State::Prog(state) => state.go_on(alloc, word),
            State::Net(state) => Ok(state.go_on(word)),
            State::Batch(state) => Ok(state.go_on(word)),
            State::Unpin(state) => Ok(state.go_on(word)),
            State::Frame(state) => state.go_on(alloc, word),
            State::Run(state) => state.go_on(alloc, word),
            State::Journal(state) => state.go_on(alloc, word),
        }
    }

    /// The command, if the line may end here. What is left says nothing.
    pub fn finish(&mut self, alloc: Global) -> Result<Option<Command>, NoMemory>
        ensures { IfOk result (λ command. command ≡ finish self.old) }
    {
        match self {
            State::Map(state) => Ok(state.finish(alloc)?.map(Command::Map)),
            _ => mem::replace(self, State::Start).finish_other(alloc),
        }
    }

    /// The command, if the line may end here and is none on maps.
    fn finish_other(self, alloc: Global) -> Result<Option<Command>, NoMemory>
        ensures { IfOk result (λ command. command ≡ finish self.entry) }
    {
        match self {
            State::Start => Ok(None),
            State::Map(mut state) => Ok(state.finish(alloc)?.map(Command::Map)),
            State::Prog(state) => Ok(state.finish(alloc)?.map(Command::Prog)),
            State::Net(state) => Ok(state.finish(alloc)?.map(Command::Net)),
            State::Batch(state) => match state.finish() {
                Some(path) => Ok(Some(Command::Batch(path.copy(alloc)?))),
                None => Ok(None),
            },
            State::Unpin(state) => match state.finish() {
                Some(path) => Ok(Some(Command::Unpin(path.copy(alloc)?))),
                None => Ok(None),
            },
            State::Frame(state) => Ok(state.finish(alloc)?.map(Command::Frame)),
            State::Run(state) => Ok(state.finish(alloc)?.map(Command::Run)),
            State::Journal(state) => Ok(state.finish().map(Command::Journal)),
        }
    }
}
