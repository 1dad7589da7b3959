//! The words after `net`.

ghost use Rattle.std.specs.Prelude.{◌≡◌, IfOk};
ghost use Rattle.std.specs.Option.{option_map};
ghost use Rattle.console_operand.specs.Word.{spelled_by};
ghost use Rattle.console_operand.specs.Automaton.{GoesOn};
ghost use Rattle.bt_syntax.specs.DeviceSteps.{device_step, device_finish};
ghost use Rattle.bt_syntax.specs.NetSteps.{verb_word, verbs, after_verb, of_device, detach_step, net_step, net_finish};

use super::attach::AttachState;
use super::command::NetCommand;
use crate::NoMemory;
use crate::device::DeviceState;
use console_operand::go_to;
use host_words::Word;
use std::alloc::Global;
use std::mem;

/// A word after `net`.
#[derive(Clone, Copy)]
pub enum NetVerb {
    Show,
    List,
    Attach,
    Detach,
}

impl NetVerb {
    fn of(word: &[u8]) -> Option<NetVerb>
        ensures { result ≡ spelled_by verb_word verbs word.now }
    {
        if word == b"show".as_slice() {
            Some(NetVerb::Show)
        } else if word == b"list".as_slice() {
            Some(NetVerb::List)
        } else if word == b"attach".as_slice() {
            Some(NetVerb::Attach)
        } else if word == b"detach".as_slice() {
            Some(NetVerb::Detach)
        } else {
            None
        }
    }
}

/// A command on one device.
#[derive(Clone, Copy)]
pub enum DeviceVerb {
    Show,
    Detach,
}

impl DeviceVerb {
    fn command(self, device: Word) -> NetCommand
        ensures { result ≡ of_device self device }
    {
        match self {
            DeviceVerb::Show => NetCommand::Show {
                device: Some(device),
            },
            DeviceVerb::Detach => NetCommand::Detach { device },
        }
    }
}

/// What the words after `net` have come to.
#[derive(Drop)]
pub enum NetState<'a> {
    Verb,
    /// A device may come next.
    Show,
    /// `xdp` comes next.
    Detach,
    Device(DeviceVerb, DeviceState<'a>),
    Attach(AttachState<'a>),
}

/// What the word after `detach` leads to.
fn detach<'a>(word: &[u8]) -> Option<NetState<'a>>
    ensures { result ≡ detach_step word.now }
{
    if word == b"xdp".as_slice() {
        Some(NetState::Device(DeviceVerb::Detach, DeviceState::Dev))
    } else {
        None
    }
}

/// The command on a device, if the line may end here.
fn on_device(
    alloc: Global,
    verb: DeviceVerb,
    state: DeviceState<'_>,
) -> Result<Option<NetCommand>, NoMemory>
    ensures { IfOk result (λ command. command ≡ option_map (of_device verb) (device_finish state.entry)) }
{
    match state.finish() {
        Some(name) => Ok(Some(verb.command(name.copy(alloc)?))),
        None => Ok(None),
    }
}

impl<'a> NetState<'a> {
    fn of(verb: NetVerb) -> NetState<'a>
        ensures { result ≡ after_verb verb }
    {
        match verb {
            NetVerb::Show | NetVerb::List => NetState::Show,
            NetVerb::Attach => NetState::Attach(AttachState::Xdp),
            NetVerb::Detach => NetState::Detach,
        }
    }

    /// What one more word makes of a device.
    fn device(verb: DeviceVerb, state: DeviceState<'a>, word: &'a [u8]) -> Option<NetState<'a>>
        ensures { result ≡ option_map (NetState.Device verb) (device_step state.entry word.now) }
    {
        let state = state.after(word)?;
        Some(NetState::Device(verb, state))
    }

    /// What one more word makes of it; `None` if no line goes on so.
    fn after(self, word: &'a [u8]) -> Option<NetState<'a>>
        ensures { result ≡ net_step self.entry word.now }
    {
        match self {
            NetState::Verb => {
                let verb = NetVerb::of(word)?;
                Some(NetState::of(verb))
            }
            NetState::Show => NetState::device(DeviceVerb::Show, DeviceState::Dev, word),
            NetState::Detach => detach(word),
            NetState::Device(verb, state) => NetState::device(verb, state, word),
            NetState::Attach(state) => state.after(word).map(NetState::Attach),
        }
    }

    /// Reads one more word; false if no line goes on so, and then what is left says nothing.
    pub fn go_on(&mut self, word: &'a [u8]) -> bool
        ensures { GoesOn result (net_step self.old word.now) self.new }
    {
        let next = mem::replace(self, NetState::Verb).after(word);
        go_to(self, next)
    }

    /// The command, if the line may end here.
    pub fn finish(self, alloc: Global) -> Result<Option<NetCommand>, NoMemory>
        ensures { IfOk result (λ command. command ≡ net_finish self.entry) }
    {
        match self {
            NetState::Verb => Ok(None),
            NetState::Show => Ok(Some(NetCommand::Show { device: None })),
            NetState::Detach => Ok(None),
            NetState::Device(verb, state) => on_device(alloc, verb, state),
            NetState::Attach(state) => state.finish(alloc),
        }
    }
}
