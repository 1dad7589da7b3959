//! Why bytes are no program.

ghost use Rattle.std.specs.Prelude.{◌≡◌};
ghost use Rattle.bt_insn.specs.declared.fault.DecodeFault.TheVariants.{NoMemory};

use std::alloc::AllocError;
use thiserror::Error;

/// The first fault of bytes that are decoded. Slots of eight bytes are counted from 0.
#[derive(Clone, Copy, Debug, PartialEq, Eq, Error)]
pub enum DecodeFault {
    /// The length is no multiple of 8.
    #[error("length is no multiple of 8")]
    BadLength,
    /// There are more than 4,096 slots.
    #[error("more than 4096 slots")]
    TooLong,
    /// The opcode in this slot is in no legal form.
    #[error("bad opcode in slot {0}")]
    BadOpcode(usize),
    /// Another field of the instruction that begins in this slot is not as its form has it.
    #[error("bad field in slot {0}")]
    BadField(usize),
    /// The wide instruction in this slot, the last one, has no second slot.
    #[error("half a wide instruction in slot {0}")]
    HalfWide(usize),
    /// There is no memory for the instructions.
    #[error("no memory")]
    NoMemory,
}

impl From<AllocError> for DecodeFault {
    ghost from_gives = { λ _ e. e ≡ NoMemory };

    fn from(_error: AllocError) -> DecodeFault {
        DecodeFault::NoMemory
    }
}
