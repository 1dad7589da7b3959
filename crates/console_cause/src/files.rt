//! Why a file that a line names is not at hand, asked of the file: a refused line has not changed it.

use crate::refusal::NOTHING_CHANGED;
use bt_syntax::{Command, FileText, Object, ProgCommand};
use console_answer::{Fault, Mishap};
use console_hint::{FileFault, Hint, are_digits};
use console_input::{Cause, FileReader, MOST_NAMED, MOST_SCRIPT, ReadFault};
use host_words::NoMemory;

// Whether files leave room for one that is as long as a named file may be.
fn leave_room(files: &[FileText]) -> bool {
    let mut left = MOST_NAMED;
    for file in files {
        left = left.saturating_sub(file.bytes.len() as u64);
    }
    left >= MOST_SCRIPT
}

// Why the file of a path is not among these. Of a file that can be read it is how many bytes it has, and they need not be read.
fn file_fault<R: FileReader>(
    rt: &R,
    files: &[FileText],
    path: &[u8],
) -> Result<FileFault, NoMemory> {
    let Ok(name) = str::from_utf8(path) else {
        return Ok(FileFault::NoText);
    };
    match rt.read_whole(name, 0) {
        Err(ReadFault::NoMemory) => Err(NoMemory),
        Err(ReadFault::Unread(Cause::Failed(error))) => Ok(FileFault::Failed(error)),
        Ok(_) | Err(ReadFault::Unread(Cause::TooLong(_))) => {
            if leave_room(files) {
                Ok(FileFault::TooLong)
            } else {
                Ok(FileFault::TooMuch)
            }
        }
    }
}

// The path of the file that a command names; none if it is digits that lack `hex:`.
fn path_in(command: &Command) -> Option<&[u8]> {
    match command {
        Command::Batch(path) => Some(path.as_slice()),
        Command::Prog(
            ProgCommand::Load {
                object: Object::File(path),
                ..
            },
        ) if !are_digits(path.as_slice()) => Some(path.as_slice()),
        _ => None,
    }
}

/// Why the file that a command names is not at hand, if the command was refused for that; if memory is lacking to find
/// out, that the line changed nothing. `files` are those that are at hand.
pub fn file_hint<'a, R: FileReader>(
    rt: &R,
    files: &[FileText],
    command: &'a Command,
    mishap: Mishap,
) -> Option<Hint<'a>> {
    let Mishap::Refused(Fault::NoFile) = mishap else {
        return None;
    };
    let path = path_in(command)?;
    match file_fault(rt, files, path) {
        Ok(fault) => Some(Hint::File { path, fault }),
        Err(_) => Some(Hint::Plain(NOTHING_CHANGED)),
    }
}
