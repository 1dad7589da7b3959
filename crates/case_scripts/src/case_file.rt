//! A file of cases, a line at a time.
//!
//! | line | what it is |
//! |---|---|
//! | `# ..`, or nothing | a comment |
//! | `let NAME = TEXT`, `let NAME = COUNT * TEXT` | from here on `$NAME` in a given line stands for the text |
//! | `limits journal=N budget=N last_id=N last_serial=N` | limits of the book, some or all |
//! | `devices NAME ..` | the devices of the host |
//! | `case NAME` | here a case begins |
//! | `> LINE` | a line of its script |
//! | `file PATH` | here a file begins that is at hand |
//! | `\| LINE` | a line of that file |
//! | any other | a line that the script is to print |
//!
//! Limits and devices above the first case hold for each of the file, within a case for it alone.

use crate::given::{Definition, push_given};
use crate::setting::{Setting, USUAL};
use anyhow::{Context, Result, bail};
use std::alloc::Global;

/// What is wrong with a line of a script or of a transcript that no case owns.
const NO_CASE: &str = "this line stands above the first case";

/// What is wrong with a line of a file that no case owns.
const NO_FILE: &str = "this line stands in no file";

/// A line that is to be printed.
#[derive(Clone, Copy)]
pub struct Wanted<'a> {
    /// The number of its line in the file, from 1.
    pub line: usize,
    pub text: &'a str,
}

/// A file that is at hand.
#[derive(Drop)]
pub struct CaseFile<'a> {
    pub path: &'a str,
    pub bytes: Vec<u8>,
}

/// A script with the host that it runs on and what it is to print.
#[derive(Drop)]
pub struct Case<'a> {
    pub name: &'a str,
    /// The number of the line in the file at which it begins, from 1.
    pub line: usize,
    pub setting: Setting<'a>,
    pub script: Vec<u8>,
    pub transcript: Vec<Wanted<'a>>,
    pub files: Vec<CaseFile<'a>>,
}

// What a line gives to the script, if it does.
fn given_in(text: &str) -> Option<&str> {
    if text == ">" {
        return Some("");
    }
    text.strip_prefix("> ")
}

/// What was read of a file.
#[derive(Drop)]
struct Reader<'a> {
    usual: Setting<'a>,
    definitions: Vec<Definition<'a>>,
    cases: Vec<Case<'a>>,
}

impl<'a> Reader<'a> {
    // Sets limits for the last case, or for all.
    fn limit(&mut self, words: &str) -> Result<()> {
        match self.cases.last_mut() {
            Some(case) => case.setting.limit(words),
            None => self.usual.limit(words),
        }
    }

    // Names the devices for the last case, or for all.
    fn devices(&mut self, names: &'a str) {
        match self.cases.last_mut() {
            Some(case) => case.setting.devices = names,
            None => self.usual.devices = names,
        }
    }

    // Adds a line to the script of the last case.
    fn give(&mut self, text: &str) -> Result<()> {
        let case = self.cases.last_mut().context(NO_CASE)?;
        push_given(&mut case.script, &self.definitions, text)
    }

    // Begins a file of the last case.
    fn begin_file(&mut self, alloc: Global, path: &'a str) -> Result<()> {
        let case = self.cases.last_mut().context(NO_CASE)?;
        let bytes = Vec::new(alloc);
        case.files.push(CaseFile { path, bytes })?;
        Ok(())
    }

    // Adds a line to the last file.
    fn fill_file(&mut self, text: &str) -> Result<()> {
        let case = self.cases.last_mut().context(NO_CASE)?;
        let file = case.files.last_mut().context(NO_FILE)?;
        push_given(&mut file.bytes, &self.definitions, text)
    }

    // Adds a line to what the last case is to print.
    fn want(&mut self, line: usize, text: &'a str) -> Result<()> {
        let case = self.cases.last_mut().context(NO_CASE)?;
        case.transcript.push(Wanted { line, text })?;
        Ok(())
    }

    fn define(&mut self, alloc: Global, words: &'a str) -> Result<()> {
        let definition = Definition::of(alloc, words)?;
        self.definitions.push(definition)?;
        Ok(())
    }

    // Takes one line that is no comment.
    fn take(&mut self, alloc: Global, line: usize, text: &'a str) -> Result<()> {
        if let Some(given) = given_in(text) {
            self.give(given)
        } else if let Some(given) = text.strip_prefix("| ") {
            self.fill_file(given)
        } else if let Some(path) = text.strip_prefix("file ") {
            self.begin_file(alloc, path)
        } else if let Some(definition) = text.strip_prefix("let ") {
            self.define(alloc, definition)
        } else if let Some(limits) = text.strip_prefix("limits ") {
            self.limit(limits)
        } else if let Some(devices) = text.strip_prefix("devices ") {
            self.devices(devices);
            Ok(())
        } else if let Some(name) = text.strip_prefix("case ") {
            self.begin(alloc, line, name)
        } else {
            self.want(line, text)
        }
    }

    fn begin(&mut self, alloc: Global, line: usize, name: &'a str) -> Result<()> {
        self.cases.push(Case {
            name,
            line,
            setting: self.usual,
            script: Vec::new(alloc),
            transcript: Vec::new(alloc),
            files: Vec::new(alloc),
        })?;
        Ok(())
    }

    // Takes each line of a file's text.
    fn read(&mut self, alloc: Global, text: &'a str) -> Result<()> {
        let mut number: usize = 0;
        for line in text.lines() {
            number = number.saturating_add(1);
            if !line.is_empty() && !line.starts_with('#') {
                self.take(alloc, number, line)
                    .context(format_args!("line {number}"))?;
            }
        }
        Ok(())
    }
}

/// The cases of a file's text, in their order.
pub fn cases_of(alloc: Global, text: &str) -> Result<Vec<Case<'_>>> {
    let mut reader = Reader {
        usual: USUAL,
        definitions: Vec::new(alloc),
        cases: Vec::new(alloc),
    };
    match reader.read(alloc, text) {
        Ok(()) => Ok(reader.cases),
        Err(error) => Err(error),
    }
}
