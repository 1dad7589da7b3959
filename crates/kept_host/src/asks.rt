//! Whether lines only ask.

ghost use Rattle.std.specs.Prelude.{◌≡◌, IfOk};
ghost use Rattle.console_operand.specs.Line.{lines_of};
ghost use Rattle.bt_syntax.specs.Steps.{line_read};
ghost use Rattle.kept_host.specs.Asks.{map_asks, prog_asks, command_asks, line_asks, only_ask};

use bt_syntax::{
    Command, JournalCommand, MapCommand, NetCommand, NoMemory, ProgCommand, SyntaxFault,
    first_line, parse_line,
};
use std::alloc::Global;

fn map_asks(command: &MapCommand) -> bool
    ensures { result ≡ map_asks command.now }
{
    matches!(
        command,
        MapCommand::Show { .. }
            | MapCommand::Dump { .. }
            | MapCommand::Lookup { .. }
            | MapCommand::GetNext { .. }
            | MapCommand::Peek { .. }
    )
}

fn prog_asks(command: &ProgCommand) -> bool
    ensures { result ≡ prog_asks command.now }
{
    matches!(command, ProgCommand::Show { .. } | ProgCommand::Dump { .. })
}

// Whether a command only asks.
fn command_asks(command: &Command) -> bool
    ensures { result ≡ command_asks command.now }
{
    match command {
        Command::Map(command) => map_asks(command),
        Command::Prog(command) => prog_asks(command),
        Command::Net(NetCommand::Show { .. }) => true,
        Command::Journal(JournalCommand::List) => true,
        _ => false,
    }
}

// Whether a line only asks, or is no command.
fn line_asks(alloc: Global, line: &[u8]) -> Result<bool, NoMemory>
    ensures { IfOk result (λ it. it ≡ line_asks (line_read line.now)) }
{
    match parse_line(alloc, line) {
        Ok(Some(command)) => Ok(command_asks(&command)),
        Ok(None) => Ok(true),
        Err(SyntaxFault::NoMemory) => Err(NoMemory),
        Err(_) => Ok(true),
    }
}

/// Whether each line of a text only asks, or is no command: whatever they answer, they change nothing. Takes memory.
pub fn only_ask(alloc: Global, text: &[u8]) -> Result<bool, NoMemory>
    ensures { IfOk result (λ it. it ≡ only_ask (lines_of text.now)) }
{
    let mut rest = text;
    'lines: while !rest.is_empty() {
        let (line, after) = first_line(rest);
        rest = after;
        if !line_asks(alloc, line)? {
            return Ok(false);
        }
    }
    Ok(true)
}
