//! A script that runs on a new host.

ghost use Rattle.std.specs.Prelude.{IfOk, IfErr, Ok};
ghost use Rattle.console_script.specs.Anew.{RunsAnew};
ghost use Rattle.console_script.specs.Made.{AllGetNew};
ghost use Rattle.console_script.specs.Host.{device_names, limits};
ghost use Rattle.bpfcon.specs.Ends.{EndsLines};

use crate::fault::Fault;
use crate::lines::run_lines;
use bt_syntax::Script;
use console_input::FileReader;
use console_script::{HostSupply, MOMENTS, Summary, new_book};
use console_text::Output;
use std::mem::ManuallyDrop;

/// Runs a script of this name on a host in which nothing was done, with a new map for each that it makes, and tells on
/// standard error what is wrong with each line that is refused. The book is given up with the process.
pub fn run_on_host<R: FileReader + Eprint + AllocGlobal, W: Output>(
    rt: &R,
    file: &[u8],
    script: &Script,
    out: &mut W,
) -> Result<Summary, Fault>
    ensures ran { IfOk result (λ summary. RunsAnew (W.contents out.old) (W.contents out.new) device_names limits AllGetNew script.now.files.items script.now.text.items (Ok summary)) }
    ensures only { IfErr result (EndsLines (W.has_refused out.new)) }
{
    let alloc = rt.alloc();
    let mut book = match new_book(alloc, MOMENTS) {
        Ok(book) => book,
        Err(_) => return Err(Fault::NoMemory),
    };
    let mut supply = HostSupply::new(alloc);
    let ran = run_lines(rt, file, script, &mut book, &mut supply, out);
    let _book = ManuallyDrop::new(book);
    ran
}
