//! Why the roots stay as they are.
ghost use Rattle.std.specs.Prelude.{◌≡◌};
ghost use Rattle.bt_roots.specs.declared.fault.RootFault.TheVariants as fault;

use host_words::NoMemory;

/// Why a call changed nothing.
#[derive(Clone, Copy, PartialEq, Eq, Debug)]
pub enum RootFault {
    /// `pin`: the path is not spelled as a path (EINVAL).
    BadPath,
    /// `pin`: something is pinned at the path (EEXIST).
    Exists,
    /// `unpin`: nothing is pinned at the path; `detach`: nothing is attached to the device (ENOENT).
    NoEntry,
    /// `attach` and `detach`: no device has the name (ENOENT).
    NoDevice,
    /// `attach`: a program is attached to the device, and is not to be overwritten (EBUSY).
    Busy,
    /// An allocation failed. Nothing else in this list was at fault.
    NoMemory,
}

impl From<NoMemory> for RootFault {
    ghost from_gives = { λ _ e. e ≡ fault.NoMemory };

    fn from(_refused: NoMemory) -> RootFault {
        RootFault::NoMemory
    }
}
