//! The errors of the bpf system call that a map answers with.

ghost use Rattle.std.specs.Prelude.{◌≡◌};
ghost use Rattle.bt_mapkind.specs.ErrnoNumber.{number_of};

/// An error by its Linux name (errno(3), bpf(2)).
#[derive(Clone, Copy, PartialEq, Eq, Debug)]
pub enum Errno {
    /// 1: a frozen map is written.
    EPERM,
    /// 2: what is named is not there.
    ENOENT,
    /// 7: an index past the end, or a map that is full.
    E2BIG,
    /// 12: lack of memory.
    ENOMEM,
    /// 16: in use.
    EBUSY,
    /// 17: there already.
    EEXIST,
    /// 22: an argument of the wrong form.
    EINVAL,
    /// 28: a full LPM trie.
    ENOSPC,
}

impl Errno {
    /// The number of the error, as bpf(2) gives it below zero.
    pub fn number(self) -> u32
        ensures { result ≡ number_of self }
    {
        match self {
            Errno::EPERM => 1,
            Errno::ENOENT => 2,
            Errno::E2BIG => 7,
            Errno::ENOMEM => 12,
            Errno::EBUSY => 16,
            Errno::EEXIST => 17,
            Errno::EINVAL => 22,
            Errno::ENOSPC => 28,
        }
    }
}
