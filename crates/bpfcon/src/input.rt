//! An input, whose lines are answered on a new host.

ghost use Rattle.std.specs.Prelude.{IfOk, IfErr, OnOk};
ghost use Rattle.console_talk.specs.Talk.{IsWhole, front};
ghost use Rattle.console_talk.specs.Anew.{TalkedAnew};
ghost use Rattle.bpfcon.specs.Ends.{EndsLines};

use crate::fault::Fault;
use crate::talk::answer_lines;
use console_input::{FileReader, MOST_SCRIPT, Terminal};
use console_script::{HostSupply, MOMENTS, Summary, new_book};
use console_talk::Manner;
use console_text::Output;
use std::io::{BufReader, Read};
use std::mem::ManuallyDrop;

/// Answers each line of an input when it is given, on a host in which nothing was done, with a new map for each that a line
/// makes. If standard input is a terminal, standard error says first that lines are read. The book is given up with the process.
///
/// # Errors
/// As [`answer_lines`], and `NoMemory` if there is none for the host. What was answered before stands on the output.
pub fn talk<R: FileReader + Terminal + Eprint + AllocGlobal, I: Read + Drop, W: Output>(
    rt: &R,
    manner: Manner,
    reader: I,
    out: &mut W,
) -> Result<Summary, Fault>
    ensures talked { IfOk result (λ summary. TalkedAnew (R.may_read rt.now) manner (front (I.remaining reader)) (W.contents out.old) (W.contents out.new) summary) }
    ensures whole { OnOk result (IsWhole manner (I.remaining reader)) }
    ensures only { IfErr result (EndsLines (W.has_refused out.new)) }
{
    let alloc = rt.alloc();
    let mut input = match BufReader::new(alloc, reader.take(MOST_SCRIPT + 1)) {
        Ok(input) => input,
        Err(_) => return Err(Fault::NoMemory),
    };
    let mut book = match new_book(alloc, MOMENTS) {
        Ok(book) => book,
        Err(_) => return Err(Fault::NoMemory),
    };
    let mut supply = HostSupply::new(alloc);
    manner.greet(rt);
    let talked = answer_lines(rt, manner, &mut book, &mut supply, &mut input, out);
    let _book = ManuallyDrop::new(book);
    talked
}
