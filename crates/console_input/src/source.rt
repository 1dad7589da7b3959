//! Files and readers, read whole.

ghost use Rattle.std.specs.Prelude.{◌≡◌, ◌<◌, ◌≤◌, ◌-◌, ◌^◌, ◌↔◌, ◌≢◌, ℕ, length, Err, IfOk, IfSome};
ghost use Rattle.std.specs.IoError.{error_kind};
ghost use Rattle.std.specs.declared.io.ErrorKind.TheVariants.{OutOfMemory};
ghost use Rattle.console_input.specs.declared.fault.Cause.TheVariants.{Failed, TooLong};
ghost use Rattle.console_input.specs.declared.fault.ReadFault.TheVariants.{NoMemory, Unread};

use crate::fault::{Cause, ReadFault};
use std::alloc::Global;
use std::io::Read;
use std::rt::Files;
use std::{fs, io};

/// How many bytes a script, or a file that it names, has at most.
pub const MOST_SCRIPT: u64 = 16_777_216;

/// How many bytes the text of frames has at most: 65,536 lines of 8,213 bytes, which a frame of 4,096 bytes has on a device
/// whose name has 15.
pub const MOST_FRAMES: u64 = 538_247_168;

/// Why a read failed.
pub fn read_fault(error: io::Error) -> ReadFault
    ensures memory { (result ≡ NoMemory) ↔ (error_kind error ≡ OutOfMemory) }
    ensures other { error_kind error ≢ OutOfMemory → result ≡ Unread (Failed error) }
{
    if error.kind() == io::ErrorKind::OutOfMemory {
        ReadFault::NoMemory
    } else {
        ReadFault::Unread(Cause::Failed(error))
    }
}

/// All bytes of the reader; `Unread` if a read fails or there are more than so many. A read that was interrupted is tried
/// again.
pub fn read_all<R: Read + Drop>(alloc: Global, reader: R, most: u64) -> Result<Vec<u8>, ReadFault>
    requires { most < 2 ^ 64 - 1 }
    ensures whole { IfOk result (λ bytes. IfSome (R.remaining reader) (λ all. bytes.items ≡ all)) }
    ensures at_most { IfOk result (λ bytes. length bytes.items ≤ most) }
    ensures longer { (limit : ℕ) → result ≡ Err (Unread (TooLong limit)) → (limit ≡ most) × IfSome (R.remaining reader) (λ all. most < length all) }
{
    let mut bytes = Vec::new(alloc);
    let mut front = reader.take(most + 1);
    match front.read_to_end(&mut bytes) {
        Ok(_) => {}
        Err(error) => return Err(read_fault(error)),
    }
    if bytes.len() as u64 <= most {
        Ok(bytes)
    } else {
        Err(ReadFault::Unread(Cause::TooLong(most)))
    }
}

/// All bytes of a file; `Unread` if it cannot be opened, too.
pub fn read_file<R: Files + AllocGlobal>(
    rt: &R,
    path: &str,
    most: u64,
) -> Result<Vec<u8>, ReadFault>
    requires { most < 2 ^ 64 - 1 }
    ensures at_most { IfOk result (λ bytes. length bytes.items ≤ most) }
{
    match fs::open(rt, path) {
        Ok(file) => read_all(rt.alloc(), file, most),
        Err(error) => Err(read_fault(error)),
    }
}
