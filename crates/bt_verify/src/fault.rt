//! Why a program is not run.

ghost use Rattle.std.specs.Prelude.{◌≡◌};
ghost use Rattle.bt_verify.specs.declared.fault.VerifyFault.TheVariants.{NoMemory};

use bt_insn::Register;
use std::alloc::AllocError;
use thiserror::Error;

/// The first fault of a program that is verified. Slots of eight bytes are counted from 0, and a
/// fault names the slot in which its instruction begins.
#[derive(Clone, Copy, Debug, PartialEq, Eq, Error)]
pub enum VerifyFault {
    /// There are more than 4,096 slots.
    #[error("more than 4096 slots")]
    TooLong,
    /// R10, the frame pointer, is written.
    #[error("R10 is written in slot {0}")]
    WritesFrame(usize),
    /// There is no helper function with the number that is called.
    #[error("no such helper, called in slot {0}")]
    NoHelper(usize),
    /// There is no map with the id that is named.
    #[error("no map {1}, named in slot {0}")]
    NoMap(usize, u32),
    /// A jump leads before slot 0 or past the last slot.
    #[error("jump out of the program in slot {0}")]
    JumpOut(usize),
    /// A jump leads to the second slot of a wide instruction.
    #[error("jump into a wide instruction in slot {0}")]
    IntoWide(usize),
    /// A jump leads back, or to itself.
    #[error("jump back in slot {0}")]
    BackEdge(usize),
    /// There is no instruction, or the last one is not EXIT.
    #[error("no EXIT at the end")]
    FallsOff,
    /// This register is read, and on some path from slot 0 it is not written before.
    #[error("{1:?} is read in slot {0} and may be unwritten")]
    Uninit(usize, Register),
    /// There is no memory to verify the program.
    #[error("no memory")]
    NoMemory,
}

impl From<AllocError> for VerifyFault {
    ghost from_gives = { λ _ e. e ≡ NoMemory };

    fn from(_error: AllocError) -> VerifyFault {
        VerifyFault::NoMemory
    }
}
