//! What the program's host in a file begins with.

ghost use Rattle.std.specs.Prelude.{◌≡◌, IfOk};
ghost use Rattle.kept_host.specs.HostTerms.{kept_limits, host_terms};

use bt_syntax::NoMemory;
use console_script::{MOMENTS, devices, limits};
use journal_model::Limits;
use kept_file::Terms;
use std::alloc::Global;

// The last serial of a kept book: the greatest number of SQLite's integers.
const LAST_SERIAL: u64 = 9_223_372_036_854_775_807;

// The limits of a kept book, which are those of a host but for the last serial.
fn kept_limits() -> Limits
    ensures { result ≡ kept_limits }
{
    Limits {
        last_serial: LAST_SERIAL,
        ..limits(MOMENTS)
    }
}

/// What a new book begins with: the devices of a new host, and its limits but for the last serial.
///
/// # Errors
/// `NoMemory`.
pub fn host_terms(alloc: Global) -> Result<Terms, NoMemory>
    ensures { IfOk result (λ terms. terms ≡ host_terms) }
{
    let devices = match devices(alloc) {
        Ok(devices) => devices,
        Err(_) => return Err(NoMemory),
    };
    match Terms::new(devices, kept_limits()) {
        Some(terms) => Ok(terms),
        None => Err(NoMemory),
    }
}
