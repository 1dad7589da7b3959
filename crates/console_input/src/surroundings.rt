//! Where the environment names a book.

ghost use Rattle.std.specs.Prelude.{Option, Result};
ghost use Rattle.std.specs.declared.alloc.Global.{Global};
ghost use Rattle.std.specs.declared.string.String.{String};
ghost use Rattle.console_input.specs.declared.fault.ArgsFault.{ArgsFault};

use crate::fault::{ArgsFault, ReadFault};
use std::env;
use std::env::VarError;
use std::rt::Env;

// The environment variable that names the file of a book.
const BOOK: &str = "BPFCON_BOOK";

/// Where the environment names a book. The runtime knows it.
pub trait Surroundings {
    // What may be found there.
    ghost may_name: { Self → Result (Option (String Global)) ArgsFault → Type 0 } = { λ _ _. Unit {0} };

    /// The file that the environment variable `BPFCON_BOOK` names, if it is set and not empty.
    ///
    /// # Errors
    /// `BadBook` if the name is not UTF-8, and `Read` if there is no memory for it.
    fn book_named(&self) -> Result<Option<String>, ArgsFault>
        ensures { may_name self.now result };
}

impl<R: Env + AllocGlobal> Surroundings for R {
    fn book_named(&self) -> Result<Option<String>, ArgsFault> {
        match env::var(self, BOOK) {
            Ok(file) => {
                if file.is_empty() {
                    Ok(None)
                } else {
                    Ok(Some(file))
                }
            }
            Err(VarError::NotPresent) => Ok(None),
            Err(VarError::NotUnicode) => Err(ArgsFault::BadBook),
            Err(VarError::OutOfMemory) => Err(ArgsFault::Read(ReadFault::NoMemory)),
        }
    }
}
