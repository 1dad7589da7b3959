//! `net attach xdp PROG dev NAME [overwrite]`.

ghost use Rattle.std.specs.Prelude.{◌≡◌, IfOk};
ghost use Rattle.bt_syntax.specs.AttachSteps.{named_attach, attach_step, attach_finish};

use super::command::NetCommand;
use crate::NoMemory;
use console_operand::{LineReference, LineWord, Named, Naming};
use std::alloc::Global;

/// What the words after `attach` have come to.
#[derive(Drop)]
pub enum AttachState<'a> {
    /// `xdp` comes next.
    Xdp,
    Prog(Naming),
    /// `dev` comes next.
    Given(LineReference<'a>),
    Name(LineReference<'a>),
    /// `overwrite` may come next.
    Device(LineReference<'a>, LineWord<'a>),
    Overwrite(LineReference<'a>, LineWord<'a>),
}

impl<'a> AttachState<'a> {
    fn of(named: Named<'a>) -> AttachState<'a>
        ensures { result ≡ named_attach named.entry }
    {
        match named {
            Named::Going(naming) => AttachState::Prog(naming),
            Named::Found(prog) => AttachState::Given(prog),
        }
    }

    /// What one more word makes of it; `None` if no line goes on so.
    pub fn after(self, word: &'a [u8]) -> Option<AttachState<'a>>
        ensures { result ≡ attach_step self.entry word.now }
    {
        match self {
            AttachState::Xdp => {
                if word == b"xdp".as_slice() {
                    return Some(AttachState::Prog(Naming::Form));
                }
                None
            }
            AttachState::Prog(naming) => naming.after(word).map(AttachState::of),
            AttachState::Given(prog) => {
                if word == b"dev".as_slice() {
                    return Some(AttachState::Name(prog));
                }
                None
            }
            AttachState::Name(prog) => Some(AttachState::Device(prog, LineWord::new(word))),
            AttachState::Device(prog, device) => {
                if word == b"overwrite".as_slice() {
                    return Some(AttachState::Overwrite(prog, device));
                }
                None
            }
            AttachState::Overwrite(_, _) => None,
        }
    }

    /// The command, if the line may end here.
    pub fn finish(self, alloc: Global) -> Result<Option<NetCommand>, NoMemory>
        ensures { IfOk result (λ command. command ≡ attach_finish self.entry) }
    {
        let (prog, device, overwrite) = match self {
            AttachState::Device(prog, device) => (prog, device, false),
            AttachState::Overwrite(prog, device) => (prog, device, true),
            _ => return Ok(None),
        };
        Ok(Some(NetCommand::Attach {
            prog: prog.copy(alloc)?,
            device: device.copy(alloc)?,
            overwrite,
        }))
    }
}
