//! The program's host: its limits, its devices, and its book before the first line.

ghost use Rattle.std.specs.Prelude.{◌≡◌, ◌++◌, ◌∷◌, [], IfOk, IfErr, Ok};
ghost use Rattle.journal_model.specs.Book.{opened};
ghost use Rattle.console_script.specs.Host.{device_names, limits_of};
ghost use Rattle.console_script.specs.Faults.{TellsNone};
ghost use Rattle.console_script.specs.declared.fault.HostFault.TheVariants.{NoMemory, Write};

use crate::fault::HostFault;
use crate::kind::HostKind;
use bt_console::Book;
use host_words::Word;
use journal_model::Limits;
use std::alloc::Global;

/// How many moments the journal of a script's host keeps, and of a host in a file. A live host keeps as many as are asked for,
/// or `MOST_MOMENTS` of `console_input`.
pub const MOMENTS: u64 = 65_536;

/// The limits of a host: a journal of so many moments, maps of 64 MiB in all, and every id and serial that there is.
pub fn limits(moments: u64) -> Limits
    ensures { result ≡ limits_of moments }
{
    Limits {
        journal: moments,
        budget: 67_108_864,
        last_id: u32::MAX,
        last_serial: u64::MAX,
    }
}

// Adds a device after the others.
fn push(alloc: Global, devices: &mut Vec<Word>, name: &[u8]) -> Result<(), HostFault>
    ensures pushed { IfOk result (λ _. devices.new.items ≡ devices.old.items ++ (name.now ∷ [])) }
    ensures only { IfErr result (λ fault. fault ≡ NoMemory) }
{
    let Ok(name) = Word::new(alloc, name) else {
        return Err(HostFault::NoMemory);
    };
    match devices.push(name) {
        Ok(()) => Ok(()),
        Err(_) => Err(HostFault::NoMemory),
    }
}

/// The devices `eth0` and `eth1`, of interface indices 1 and 2.
///
/// # Errors
/// `NoMemory`.
pub fn devices(alloc: Global) -> Result<Vec<Word>, HostFault>
    ensures named { IfOk result (λ devices. devices.items ≡ device_names) }
    ensures only { IfErr result (λ fault. fault ≡ NoMemory) }
{
    let mut devices = Vec::new(alloc);
    push(alloc, &mut devices, b"eth0")?;
    push(alloc, &mut devices, b"eth1")?;
    Ok(devices)
}

/// The book of a host in which nothing was done, whose journal keeps so many moments.
///
/// # Errors
/// `BadLimits` for no moment or more than 1,000,000; and `NoMemory`.
pub fn new_book(alloc: Global, moments: u64) -> Result<Book<HostKind>, HostFault>
    ensures opens { IfOk result (λ book. opened device_names (limits_of moments) ≡ Ok book.plain) }
    ensures unwritten { IfErr result (λ fault. fault ≡ Write → ⊥) }
    ensures why { IfErr result (TellsNone moments) }
{
    let devices = devices(alloc)?;
    match Book::new(alloc, devices, limits(moments)) {
        Ok(book) => Ok(book),
        Err(fault) => Err(HostFault::from(fault)),
    }
}
