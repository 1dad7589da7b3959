//! The files that lines name, and what stands in those that are at hand.

ghost use Rattle.std.specs.Prelude.{◌≡◌, ◌∷◌, [], false, None, IfOk, MatchOption, codes};
ghost use Rattle.std.specs.Option.{option_map};
ghost use Rattle.console_operand.specs.Line.{lines_of};
ghost use Rattle.console_operand.specs.Word.{words};
ghost use Rattle.bt_syntax.specs.Files.{file_at, file_of, loaded_from, file_named, file_in, files_of, batch_in, BeginsNoBatch, AreNotOne, opened_object, opened_prog, opened};
ghost use Rattle.bt_syntax.specs.Steps.{line_read};

use crate::NoMemory;
use crate::command::Command;
use crate::fault::SyntaxFault;
use crate::parse::{LINE_MAX, parse_line};
use crate::prog::ProgCommand;
use console_operand::{Object, behind_word, first_line, first_word};
use host_words::Word;
use std::alloc::{AllocError, Global};

/// What stands in a file.
#[derive(Debug, Drop)]
pub struct FileText {
    pub path: Word,
    pub bytes: Vec<u8>,
}

/// What stands in the file of a path, if it is at hand: the first of the path counts.
pub fn file_at<'s>(files: &'s [FileText], path: &[u8]) -> Option<&'s [u8]>
    ensures { option_map (λ bytes. bytes.now) result ≡ file_at files.now path.now }
{
    let mut rest = files;
    while let Some((file, after)) = rest.split_first() {
        rest = after;
        if file.path.as_slice() == path {
            return Some(file.bytes.as_slice());
        }
    }
    None
}

fn file_of(object: Object) -> Option<Word>
    ensures { result ≡ file_of object }
{
    match object {
        Object::Hex(_) => None,
        Object::File(path) => Some(path),
    }
}

fn loaded_from(command: ProgCommand) -> Option<Word>
    ensures { result ≡ loaded_from command }
{
    match command {
        ProgCommand::Load { object, path: _ } => file_of(object),
        _ => None,
    }
}

fn file_named(command: Command) -> Option<Word>
    ensures { result ≡ file_named command }
{
    match command {
        Command::Prog(command) => loaded_from(command),
        Command::Batch(path) => Some(path),
        _ => None,
    }
}

// Whether the first word of a line is one after which a file may be named.
fn may_name_file(line: &[u8]) -> bool
    ensures { result ≡ false → file_in (line_read line.now) ≡ None }
{
    match first_word(line) {
        Some((word, _)) => word == b"prog".as_slice() || word == b"batch".as_slice(),
        None => false,
    }
}

// The path of the file that a line names. Most lines name none, and these are told by their first word.
fn file_in(alloc: Global, line: &[u8]) -> Result<Option<Word>, NoMemory>
    ensures { IfOk result (λ path. path ≡ file_in (line_read line.now)) }
{
    if !may_name_file(line) {
        return Ok(None);
    }
    match parse_line(alloc, line) {
        Ok(Some(command)) => Ok(file_named(command)),
        Ok(None) => Ok(None),
        Err(SyntaxFault::TooLong) => Ok(None),
        Err(SyntaxFault::At(_)) => Ok(None),
        Err(SyntaxFault::NoMemory) => Err(AllocError),
    }
}

/// The paths of the files that the lines of a text name, in the order of the lines: those of `batch file`, and those of
/// `prog load` that are no `hex:`.
pub fn files_in(alloc: Global, text: &[u8]) -> Result<Vec<Word>, NoMemory>
    ensures { IfOk result (λ paths. paths.items ≡ files_of (lines_of text.now)) }
{
    let mut paths = Vec::new(alloc);
    let mut rest = text;
    while !rest.is_empty() {
        let (line, after) = first_line(rest);
        rest = after;
        if let Some(path) = file_in(alloc, line)? {
            paths.push(path)?;
        }
    }
    Ok(paths)
}

// What comes after `batch file`, if a line begins so.
fn behind_batch_file(line: &[u8]) -> Option<&[u8]>
    ensures { MatchOption result (BeginsNoBatch (words line.now)) (λ rest. words line.now ≡ codes "batch" ∷ codes "file" ∷ words rest.now) }
{
    behind_word(behind_word(line, b"batch")?, b"file")
}

// The word of a line that has just one.
fn only_word(line: &[u8]) -> Option<&[u8]>
    ensures { MatchOption result (AreNotOne (words line.now)) (λ word. words line.now ≡ word.now ∷ []) }
{
    let (word, rest) = first_word(line)?;
    match first_word(rest) {
        Some(_) => None,
        None => Some(word),
    }
}

/// The path of the file of the batch that a line runs, if it runs one. It takes no memory.
pub fn batch_path(line: &[u8]) -> Option<&[u8]>
    ensures { option_map (λ path. path.now) result ≡ batch_in (line_read line.now) }
{
    if line.len() > LINE_MAX {
        return None;
    }
    only_word(behind_batch_file(line)?)
}

fn opened_object(alloc: Global, files: &[FileText], object: Object) -> Result<Object, NoMemory>
    ensures { IfOk result (λ it. it ≡ opened_object files.now object) }
{
    match object {
        Object::Hex(bytes) => Ok(Object::Hex(bytes)),
        Object::File(path) => match file_at(files, path.as_slice()) {
            Some(bytes) => Ok(Object::Hex(Word::new(alloc, bytes)?)),
            None => Ok(Object::File(path)),
        },
    }
}

fn opened_prog(
    alloc: Global,
    files: &[FileText],
    command: ProgCommand,
) -> Result<ProgCommand, NoMemory>
    ensures { IfOk result (λ it. it ≡ opened_prog files.now command) }
{
    match command {
        ProgCommand::Load { object, path } => Ok(ProgCommand::Load {
            object: opened_object(alloc, files, object)?,
            path,
        }),
        command => Ok(command),
    }
}

/// The command with the bytes of its program in place of the file that these stand in, if that is at hand.
pub fn opened(alloc: Global, files: &[FileText], command: Command) -> Result<Command, NoMemory>
    ensures { IfOk result (λ it. it ≡ opened files.now command) }
{
    match command {
        Command::Prog(command) => Ok(Command::Prog(opened_prog(alloc, files, command)?)),
        command => Ok(command),
    }
}
