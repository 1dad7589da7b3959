//! The files that a script names.

ghost use Rattle.std.specs.Prelude.{◌≡◌, ◌+◌, ◌≤◌, ◌++◌, ◌∷◌, [], ◌||◌, is_some, option_map, vec_items, IfOk, All};
ghost use Rattle.bt_syntax.specs.declared.files.FileText.{FileText};
ghost use Rattle.console_input.specs.Named.{IsAtHand, text_at, texts, bytes_in, AddsAtMost, Adds, IsNamedIn, IsNamedInAny, AddsFile, AddsFiles, AreDeeper, AreFilesOf, Leaves};

use crate::fault::ReadFault;
use crate::reader::FileReader;
use crate::source::MOST_SCRIPT;
use bt_syntax::{FileText, NoMemory, file_at, files_in};
use host_words::Word;

/// How many bytes the files that a script names have in all at most.
pub const MOST_NAMED: u64 = 134_217_728;

// What stands in a file; `None` if it can't be read or has more bytes than a script has at most.
fn at_hand<R: FileReader>(rt: &R, path: &Word) -> Result<Option<Vec<u8>>, NoMemory>
    ensures { IfOk result (λ bytes. IsAtHand (R.may_read rt.now) path.now (option_map vec_items bytes)) }
{
    match str::from_utf8(path.as_slice()) {
        Ok(name) => match rt.read_whole(name, MOST_SCRIPT) {
            Ok(bytes) => Ok(Some(bytes)),
            Err(ReadFault::NoMemory) => Err(NoMemory),
            Err(ReadFault::Unread(_)) => Ok(None),
        },
        Err(_) => Ok(None),
    }
}

// Whether a file of this path is among these.
fn is_among(files: &[FileText], path: &Word) -> bool
    ensures { result ≡ is_some (text_at (texts files.now) path.now) }
{
    file_at(files, path.as_slice()).is_some()
}

// Whether a file of this path is among these, or among those that are known.
fn is_there(known: &[FileText], files: &[FileText], path: &Word) -> bool
    ensures { result ≡ (is_some (text_at (texts known.now) path.now) || is_some (text_at (texts files.now) path.now)) }
{
    is_among(known, path) || is_among(files, path)
}

// Adds a file after the others.
fn push(files: &mut Vec<FileText>, path: &Word, bytes: Vec<u8>) -> Result<(), NoMemory>
    ensures { IfOk result (λ _. (file : FileText) × (file.path ≡ path.now) × (file.bytes.items ≡ bytes.items) × (files.new.items ≡ files.old.items ++ (file ∷ []))) }
{
    let path = path.copy()?;
    files.push(FileText { path, bytes })?;
    Ok(())
}

// Adds files after the others.
fn append(files: &mut Vec<FileText>, more: Vec<FileText>) -> Result<(), NoMemory>
    ensures { IfOk result (λ _. files.new.items ≡ files.old.items ++ more.items) }
{
    for file in more {
        files.push(file)?;
    }
    Ok(())
}

// Adds the file of a path, if it is at hand, not among those that are known, and has no more bytes than are left; tells
// how many are left after it.
fn add<R: FileReader>(
    rt: &R,
    known: &[FileText],
    path: &Word,
    files: &mut Vec<FileText>,
    left: u64,
) -> Result<u64, NoMemory>
    requires { Leaves known.now files.old.items left }
    ensures named { IfOk result (λ _. AddsAtMost path.now files.old.items files.new.items) }
    ensures whole { IfOk result (λ _. AddsFile (IsAtHand (R.may_read rt.now)) known.now path.now files.old.items files.new.items) }
    ensures left { IfOk result (λ rest. Leaves known.now files.new.items rest) }
{
    if is_there(known, files.as_slice(), path) {
        return Ok(left);
    }
    let Some(bytes) = at_hand(rt, path)? else {
        return Ok(left);
    };
    match left.checked_sub(bytes.len() as u64) {
        Some(rest) => {
            push(files, path, bytes)?;
            Ok(rest)
        }
        None => Ok(left),
    }
}

// Adds the files that the lines of a text name, each once, save those that are known; tells how many bytes are left.
fn add_named<R: FileReader + AllocGlobal>(
    rt: &R,
    known: &[FileText],
    text: &[u8],
    files: &mut Vec<FileText>,
    left: u64,
) -> Result<u64, NoMemory>
    requires { Leaves known.now files.old.items left }
    ensures left { IfOk result (λ rest. Leaves known.now files.new.items rest) }
    ensures named { IfOk result (λ _. Adds (IsNamedIn text.now) files.old.items files.new.items) }
    ensures whole { IfOk result (λ _. AddsFiles (IsAtHand (R.may_read rt.now)) known.now text.now files.old.items files.new.items) }
{
    let paths = files_in(rt.alloc(), text)?;
    let mut left = left;
    for path in &paths {
        left = add(rt, known, path, files, left)?;
    }
    Ok(left)
}

// Reads the files that the lines of files name, each once, save these files themselves.
fn read_deeper<R: FileReader + AllocGlobal>(
    rt: &R,
    first: &[FileText],
    left: u64,
) -> Result<Vec<FileText>, NoMemory>
    requires { Leaves first.now [] left }
    ensures few { IfOk result (λ files. bytes_in (texts first.now) + bytes_in (texts files.items) ≤ MOST_NAMED) }
    ensures named { IfOk result (λ files. All (IsNamedInAny first.now) files.items) }
    ensures whole { IfOk result (λ files. AreDeeper (IsAtHand (R.may_read rt.now)) first.now files.items) }
{
    let mut deeper = Vec::new(rt.alloc());
    let mut left = left;
    for file in first {
        left = add_named(rt, first, file.bytes.as_slice(), &mut deeper, left)?;
    }
    Ok(deeper)
}

/// The files that a script names, and those that these name, no deeper, each once. One that can't be read, or has more than
/// 16,777,216 bytes, is left out, and so is one with which they would have more than 134,217,728 bytes in all.
pub fn read_named<R: FileReader + AllocGlobal>(
    rt: &R,
    text: &[u8],
) -> Result<Vec<FileText>, NoMemory>
    ensures { IfOk result (λ files. AreFilesOf (R.may_read rt.now) text.now files.items) }
{
    let mut files = Vec::new(rt.alloc());
    let left = add_named(rt, &[], text, &mut files, MOST_NAMED)?;
    let deeper = read_deeper(rt, files.as_slice(), left)?;
    append(&mut files, deeper)?;
    Ok(files)
}
