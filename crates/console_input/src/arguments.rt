//! The arguments that the program is called with.

ghost use Rattle.std.specs.Prelude.{◌≡◌, ◌↔◌, false, List, Result, Ok, Err, MatchResult};
ghost use Rattle.std.specs.IoError.{error_kind};
ghost use Rattle.std.specs.Vec.Iter.{into_iter_items};
ghost use Rattle.std.specs.declared.alloc.Global.{Global};
ghost use Rattle.std.specs.declared.io.ErrorKind.TheVariants.{InvalidData};
ghost use Rattle.std.specs.declared.string.String.{String};
ghost use Rattle.console_input.specs.declared.fault.ArgsFault.{ArgsFault};
ghost use Rattle.console_input.specs.declared.fault.ArgsFault.TheVariants.{Usage};

use crate::fault::ArgsFault;
use crate::source::read_fault;
use std::env::FillError;
use std::rt::Env;
use std::vec::IntoIter;
use std::{env, io};

/// Where the program's arguments come from. The runtime has them.
pub trait Arguments {
    // What may be found there.
    ghost may_be: { Self → Result (List (String Global)) ArgsFault → Type 0 } = { λ _ _. Unit {0} };

    /// The arguments, the program's name in front.
    ///
    /// # Errors
    /// `Read` if they can't be read, and `Usage` if just the one after the name can't, which is no verb.
    fn arguments(&self) -> Result<IntoIter<String>, ArgsFault>
        ensures { MatchResult result (λ args. may_be self.now (Ok (into_iter_items args))) (λ fault. may_be self.now (Err fault)) };
}

impl<R: Env + AllocGlobal> Arguments for R {
    fn arguments(&self) -> Result<IntoIter<String>, ArgsFault> {
        match env::args(self) {
            Ok(args) => Ok(args),
            Err(error) => Err(args_fault(error, has_arg(self, 2))),
        }
    }
}

// Whether the argument of this number is there. The program's name is number 0.
fn has_arg<R: Env>(rt: &R, number: usize) -> bool {
    !matches!(rt.arg(number, &mut []), Err(FillError::NotPresent))
}

// What an argument that is not UTF-8 comes to: no verb is such, and no file is found by such a name.
fn args_fault(error: io::Error, has_path: bool) -> ArgsFault
    ensures { (result ≡ Usage) ↔ ((error_kind error ≡ InvalidData) × (has_path ≡ false)) }
{
    if error.kind() == io::ErrorKind::InvalidData && !has_path {
        ArgsFault::Usage
    } else {
        ArgsFault::Read(read_fault(error))
    }
}
