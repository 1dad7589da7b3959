//! Where files are read.

ghost use Rattle.std.specs.Prelude.{◌<◌, ◌-◌, ◌^◌, ℕ, List, Result, Ok, Err, MatchResult};
ghost use Rattle.console_input.specs.declared.fault.ReadFault.{ReadFault};

use crate::fault::ReadFault;
use crate::source::read_file;
use std::rt::Files;

/// Where files are read. The runtime reads them.
pub trait FileReader {
    // What a read of a path may come to, if so many bytes are read at most.
    ghost may_read: { Self → List ℕ → ℕ → Result (List ℕ) ReadFault → Type 0 } = { λ _ _ _ _. Unit {0} };

    /// All bytes of a file.
    ///
    /// # Errors
    /// `Unread` if it cannot be opened, a read fails or there are more bytes than so many.
    fn read_whole(&self, path: &str, most: u64) -> Result<Vec<u8>, ReadFault>
        requires { most < 2 ^ 64 - 1 }
        ensures { MatchResult result (λ bytes. may_read self.now path.now most (Ok bytes.items)) (λ fault. may_read self.now path.now most (Err fault)) };
}

impl<R: Files + AllocGlobal> FileReader for R {
    fn read_whole(&self, path: &str, most: u64) -> Result<Vec<u8>, ReadFault> {
        read_file(self, path, most)
    }
}
