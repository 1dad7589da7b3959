//! A case that is run, and where what it prints first differs from what it is to print.

use crate::case_file::{Case, CaseFile};
use anyhow::{Context, Result};
use bt_syntax::{FileText, Script};
use console_script::run_on_new_host;
use host_words::Word;
use std::alloc::Global;
use std::fmt;

/// A line of a transcript, or that there is none.
#[derive(Clone, Copy)]
pub struct Quoted<'a>(pub Option<&'a [u8]>);

impl fmt::Display for Quoted<'_> {
    fn fmt<W: fmt::Write>(&self, f: &mut fmt::Formatter<W>) -> fmt::Result {
        match self.0 {
            Some(line) => {
                let text = str::from_utf8(line).unwrap_or("bytes that are no text");
                write!(f, "`{text}`")
            }
            None => write!(f, "nothing"),
        }
    }
}

/// Where a transcript first differs.
#[derive(Clone, Copy)]
pub struct Difference<'a> {
    /// The number of the line in the file.
    pub line: usize,
    pub wanted: Quoted<'a>,
    pub came: Quoted<'a>,
}

fn file_text(alloc: Global, file: &CaseFile<'_>) -> Result<FileText> {
    let path = Word::new(alloc, file.path.as_bytes())?;
    match file.bytes.clone() {
        Ok(bytes) => Ok(FileText { path, bytes }),
        Err(error) => Err(error.into()),
    }
}

// Appends the files that are at hand in a case.
fn push_files(alloc: Global, files: &mut Vec<FileText>, case: &Case<'_>) -> Result<()> {
    for file in &case.files {
        let file = file_text(alloc, file)?;
        files.push(file)?;
    }
    Ok(())
}

fn files(alloc: Global, case: &Case<'_>) -> Result<Vec<FileText>> {
    let mut files = Vec::new(alloc);
    match push_files(alloc, &mut files, case) {
        Ok(()) => Ok(files),
        Err(error) => Err(error),
    }
}

fn script(alloc: Global, case: &Case<'_>) -> Result<Script> {
    let files = files(alloc, case)?;
    match case.script.clone() {
        Ok(text) => Ok(Script { text, files }),
        Err(error) => Err(error.into()),
    }
}

// Runs a script on the host of a case.
fn run(alloc: Global, case: &Case<'_>, script: &Script, out: &mut Vec<u8>) -> Result<()> {
    let devices = case.setting.names(alloc)?;
    let name = case.name;
    run_on_new_host(alloc, devices, case.setting.limits, script, out).context(format_args!(
        "case {name}"
    ))?;
    Ok(())
}

/// What the script of a case prints.
pub fn printed(alloc: Global, case: &Case<'_>) -> Result<Vec<u8>> {
    let script = script(alloc, case)?;
    let mut out = Vec::new(alloc);
    match run(alloc, case, &script, &mut out) {
        Ok(()) => Ok(out),
        Err(error) => Err(error),
    }
}

/// Where what a case printed first differs, if it does.
pub fn first_difference<'a>(case: &'a Case<'_>, printed: &'a [u8]) -> Option<Difference<'a>> {
    let mut came = printed.split(|byte| *byte == b'\n');
    let mut last = case.line;
    for wanted in &case.transcript {
        let line = came.next();
        last = wanted.line;
        let wanted = Some(wanted.text.as_bytes());
        if line != wanted {
            return Some(Difference {
                line: last,
                wanted: Quoted(wanted),
                came: Quoted(line),
            });
        }
    }
    match (came.next(), came.next()) {
        (Some([]), None) => None,
        (line, _) => Some(Difference {
            line: last,
            wanted: Quoted(None),
            came: Quoted(line),
        }),
    }
}
