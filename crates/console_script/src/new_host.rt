//! A script on a host in which nothing was done.

ghost use Rattle.std.specs.Prelude.{◌≡◌, Err};
ghost use Rattle.console_script.specs.Supplied.{AreSupplied};
ghost use Rattle.console_script.specs.Anew.{RunsAnew};
ghost use Rattle.console_script.specs.Made.{IsMade, AllGetNew};
ghost use Rattle.console_script.specs.declared.fault.HostFault.TheVariants.{Write};

use crate::fault::HostFault;
use crate::script::run_script;
use crate::summary::Summary;
use crate::supply::HostSupply;
use bt_console::{Book, Supply};
use bt_mapkind::MapKind;
use bt_syntax::Script;
use console_text::Output;
use host_words::Word;
use journal_model::Limits;
use std::alloc::Global;
use std::mem::ManuallyDrop;

/// Runs a script on a new book of these devices and limits, with boxes of the supplier for the maps that it makes, and
/// writes its transcript. BadDevices, BadLimits or NoMemory if no book is made.
///
/// The book is given up with the process and not taken apart, which takes long if its journal is long.
pub fn run_on_new_book<K: MapKind, S: Supply<K>, W: Output>(
    alloc: Global,
    devices: Vec<Word>,
    limits: Limits,
    script: &Script,
    supply: &mut S,
    out: &mut W,
) -> Result<Summary, HostFault>
    ensures ran { RunsAnew (W.contents out.old) (W.contents out.new) devices.items limits
        (λ run. AreSupplied S.gives K.seen supply.old run supply.new) script.now.files.items script.now.text.items result }
    ensures refused { result ≡ Err Write → W.has_refused out.new }
{
    let mut book = Book::new(alloc, devices, limits)?;
    let ran = run_script(alloc, &mut book, script, supply, out);
    let _book = ManuallyDrop::new(book);
    match ran {
        Ok(summary) => Ok(summary),
        Err(_) => Err(HostFault::Write),
    }
}

// Runs a script on a new book, with boxes of a supplier that makes them when it is asked.
fn run_with_new_maps<K: MapKind, S: Supply<K>, W: Output>(
    alloc: Global,
    devices: Vec<Word>,
    limits: Limits,
    script: &Script,
    supply: &mut S,
    out: &mut W,
) -> Result<Summary, HostFault>
    requires { (from : _) (attr : _) (told : _) (to : _) → S.gives from attr told to → IsMade K.seen attr told }
    ensures ran { RunsAnew (W.contents out.old) (W.contents out.new) devices.items limits AllGetNew script.now.files.items script.now.text.items result }
    ensures refused { result ≡ Err Write → W.has_refused out.new }
{
    run_on_new_book(alloc, devices, limits, script, supply, out)
}

/// Runs a script on a new host of these devices and limits, and writes its transcript: how many of its lines were
/// accepted and refused. The box of a map is made when the script comes to its line, of this project's kind for its type.
pub fn run_on_new_host<W: Output>(
    alloc: Global,
    devices: Vec<Word>,
    limits: Limits,
    script: &Script,
    out: &mut W,
) -> Result<Summary, HostFault>
    ensures ran { RunsAnew (W.contents out.old) (W.contents out.new) devices.items limits AllGetNew script.now.files.items script.now.text.items result }
    ensures refused { result ≡ Err Write → W.has_refused out.new }
{
    let mut supply = HostSupply::new(alloc);
    run_with_new_maps(alloc, devices, limits, script, &mut supply, out)
}
