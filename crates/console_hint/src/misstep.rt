//! What an instruction did that aborted its program.

ghost use Rattle.std.specs.Prelude.{◌≡◌};
ghost use Rattle.console_hint.specs.Missteps.{insn_at};

use crate::misuse::{write_outside, write_wrong_kind};
use bt_insn::Insn;
use console_answer::Abort;
use program_machine::Reason;
use std::fmt;

/// What a program did that aborted it.
#[derive(Clone, Copy)]
pub struct Misstep {
    pub abort: Abort,
    /// The instruction that did it, if the host still has it.
    pub insn: Option<Insn>,
}

/// The instruction of which this slot of a program is part, counted from 0; `None` past the last.
pub fn insn_at(insns: &[Insn], slot: usize) -> Option<Insn>
    ensures { result ≡ insn_at slot insns.now }
{
    let mut left = slot;
    let mut rest = insns;
    while let Some((insn, after)) = rest.split_first() {
        let slots = insn.slots();
        if left < slots {
            return Some(*insn);
        }
        left -= slots;
        rest = after;
    }
    None
}

// What an instruction did that a program was aborted by, if nothing more is known of it.
fn reason_text(reason: Reason) -> &'static str {
    match reason {
        Reason::Gone => "used a map that is not live, or a value whose entry went meanwhile",
        Reason::OutOfRange => "used bytes outside the stack, the frame or a value",
        Reason::WrongKind => {
            "used a pointer as a number or the other way round, or handed a helper a map of another type"
        }
        Reason::Refused => {
            "was refused a look-up, or a write through a pointer: the journal is full, the serials are spent or memory ran out"
        }
        Reason::WrongReply => "got an answer that does not fit",
    }
}

impl fmt::Display for Misstep {
    fn fmt<W: fmt::Write>(&self, f: &mut fmt::Formatter<W>) -> fmt::Result {
        let Abort { reason, prog, slot } = self.abort;
        write!(f, "slot {slot} of program {prog} ")?;
        match (reason, self.insn) {
            (Reason::OutOfRange, Some(insn)) => write_outside(f, insn),
            (Reason::WrongKind, Some(insn)) => write_wrong_kind(f, insn),
            _ => f.write_str(reason_text(reason)),
        }
    }
}
