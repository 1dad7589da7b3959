//! A line read into its command.

ghost use Rattle.std.specs.Prelude.{◌≡◌, ◌<◌, ◌≤◌, ◌↔◌, length, [], IfOk, IfSome, IsNone};
ghost use Rattle.console_operand.specs.Word.{words};
ghost use Rattle.bt_syntax.specs.Grammar.{Spells, IsFault, IfAt};
ghost use Rattle.bt_syntax.specs.Steps.{Answers, words_read, line_read};
ghost use Rattle.bt_syntax.specs.declared.command.Command.{Command};
ghost use Rattle.bt_syntax.specs.declared.command.State.TheVariants.{Start};

use crate::command::{Command, State};
use crate::fault::SyntaxFault;
use console_operand::Unread;
use std::alloc::Global;

/// How many bytes a line has at most, without its line feed and the carriage return before that.
pub const LINE_MAX: usize = 131_072;

/// What the words of a line come to, read from the start. What is left of the state says nothing.
fn read_from<'a>(
    alloc: Global,
    state: &mut State<'a>,
    line: &'a [u8],
) -> Result<Option<Command>, SyntaxFault>
    requires start { state.old ≡ Start }
    requires limit { length line.now ≤ LINE_MAX }
    ensures { Answers result (words_read (words line.now)) }
{
    let mut unread = Unread::new(line);
    while let Some(word) = unread.next() {
        if !state.go_on(alloc, word, &mut unread)? {
            return Err(SyntaxFault::At(unread.count()));
        }
    }
    if unread.count() == 0 {
        return Ok(None);
    }
    match state.finish(alloc)? {
        Some(command) => Ok(Some(command)),
        None => Err(SyntaxFault::At(unread.count() + 1)),
    }
}

/// What the words of a line come to.
fn read_words(alloc: Global, line: &[u8]) -> Result<Option<Command>, SyntaxFault>
    requires { length line.now ≤ LINE_MAX }
    ensures { Answers result (words_read (words line.now)) }
{
    let mut state = State::Start;
    read_from(alloc, &mut state, line)
}

/// The command that a line spells, without its line feed and the carriage return before that, as
/// [`first_line`](crate::first_line) gives it; `None` for a line without words. If there is none, the fault is
/// [`TooLong`](SyntaxFault::TooLong) above [`LINE_MAX`] bytes, and else [`At`](SyntaxFault::At) the first word that
/// can't stand where it does. [`NoMemory`](SyntaxFault::NoMemory) may come in place of any other answer, if an allocation
/// fails.
pub fn parse_line(alloc: Global, line: &[u8]) -> Result<Option<Command>, SyntaxFault>
    ensures exact { Answers result (line_read line.now) }
    ensures too_long { (result ≡ Err SyntaxFault.TooLong) ↔ (LINE_MAX < length line.now) }
    ensures command { IfOk result (λ found. IfSome found (Spells (words line.now))) }
    ensures only { length line.now ≤ LINE_MAX → (command : Command) → Spells (words line.now) command → Answers result (Ok (Some command)) }
    ensures empty { IfOk result (λ found. IsNone found ↔ (words line.now ≡ [])) }
    ensures fault { IfAt result (IsFault (words line.now)) }
{
    if line.len() > LINE_MAX {
        return Err(SyntaxFault::TooLong);
    }
    read_words(alloc, line)
}
