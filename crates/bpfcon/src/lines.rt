//! The lines of a script run in order, with a hint on each that was refused.

ghost use Rattle.std.specs.Prelude.{IfOk, IfErr, Ok};
ghost use Rattle.console_script.specs.Supplied.{AreSupplied};
ghost use Rattle.console_script.specs.Transcript.{RanAll};
ghost use Rattle.bpfcon.specs.Ends.{EndsLines};

use crate::answered::answer;
use crate::fault::Fault;
use bt_console::Supply;
use bt_journal::Book;
use bt_mapkind::MapKind;
use bt_syntax::{Script, first_line};
use console_hint::Place;
use console_input::FileReader;
use console_script::{Dialogue, Summary};
use console_text::Output;

/// Runs the lines of a script against a book, in order, writes the text of each answer, and tells on standard error what is
/// wrong with each that is refused. `file` is what the script is called.
pub fn run_lines<R: FileReader + Eprint + AllocGlobal, K: MapKind, S: Supply<K>, W: Output>(
    rt: &R,
    file: &[u8],
    script: &Script,
    book: &mut Book<K>,
    supply: &mut S,
    out: &mut W,
) -> Result<Summary, Fault>
    ensures ran { IfOk result (λ summary. RanAll (W.contents out.old) (W.contents out.new) book.old.plain
        (λ run. AreSupplied S.gives K.seen supply.old run supply.new) script.now.files.items script.now.text.items book.new.plain summary) }
    ensures only { IfErr result (EndsLines (W.has_refused out.new)) }
{
    let files = script.files.as_slice();
    let mut dialogue = Dialogue::new(rt.alloc());
    let mut rest = script.text.as_slice();
    let mut number = 0u64;
    'lines: while !rest.is_empty() {
        let (line, after) = first_line(rest);
        rest = after;
        number = number.saturating_add(1);
        let place = Place {
            file,
            number,
            line,
            beside: "",
        };
        answer(rt, book, &mut dialogue, supply, files, place, out)?;
    }
    Ok(dialogue.summary())
}
