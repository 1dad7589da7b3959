//! A table of operations, a line each: its name, its width and numbers, with tabs between them.
//!
//! | columns | of |
//! |---|---|
//! | `op width dst src result` | arithmetic; `src` is `-` if there is none |
//! | `op width dst src taken` | a jump: 1 if it is taken, else 0 |
//! | `op width memory src r0 memory src r0` | an atomic operation: what there is before it and after it |
//! | `DECODE class bytes outcome` | slots in hexadecimal: how many instructions they are, or the fault as `BadField(0)` |
//!
//! A number is decimal or `0x..`; one below 0 stands for its 64 bits. A line that begins with `#` is a comment, and an
//! empty one is nothing.

use crate::operation::Operation;
use crate::program::{NOTHING, number_of};
use crate::tally::Tally;
use anyhow::{Context, Result};
use bt_insn::decode;
use std::alloc::Global;

/// A line of the table.
#[derive(Clone, Copy)]
struct Line<'a> {
    name: &'a str,
    width: &'a str,
    numbers: &'a str,
}

/// Lines of one operation and width that stand together, and how many of them passed.
#[derive(Clone, Copy)]
struct Group<'a> {
    name: &'a str,
    width: &'a str,
    passed: u32,
}

impl<'a> Group<'a> {
    fn new(name: &'a str, width: &'a str) -> Group<'a> {
        Group {
            name,
            width,
            passed: 0,
        }
    }
}

fn number_of_digits(text: &str) -> Result<u64> {
    let number = match text.strip_prefix("0x") {
        Some(digits) => u64::from_str_radix(digits, 16),
        None => text.parse(),
    };
    number.context("a column is no number")
}

// The number that a column holds, 0 if it holds none.
fn number(text: &str) -> Result<u64> {
    match text.strip_prefix('-') {
        Some("") => Ok(0),
        Some(digits) => Ok(number_of_digits(digits)?.wrapping_neg()),
        None => number_of_digits(text),
    }
}

fn line_of(text: &str) -> Result<Line<'_>> {
    let (name, others) = text.split_once('\t').context("a line of one column")?;
    let (width, numbers) = others.split_once('\t').context("a line of two columns")?;
    Ok(Line {
        name,
        width,
        numbers,
    })
}

// How many instructions these bytes are, or why they are none.
fn decoding(alloc: Global, bytes: &[u8]) -> Result<String> {
    Ok(match decode(alloc, bytes) {
        Ok(insns) => insns.len().to_string(alloc)?,
        Err(fault) => format!(in alloc; "{fault:?}")?,
    })
}

impl Line<'_> {
    // What came of it, if that is not what is wanted.
    fn difference(&self, alloc: Global) -> Result<Option<String>> {
        if self.name == "DECODE" {
            let (bytes, wanted) = self.numbers.split_once('\t').context("no outcome")?;
            let came = decoding(alloc, &hex::decode(alloc, bytes)?)?;
            Ok(if came.as_str() == wanted {
                None
            } else {
                Some(came)
            })
        } else {
            self.wrong_number(alloc)
        }
    }

    // What the first program showed that did not leave the number that is wanted, if any.
    fn wrong_number(&self, alloc: Global) -> Result<Option<String>> {
        let mut numbers = Vec::new(alloc);
        for column in self.numbers.split('\t') {
            numbers.push(number(column)?)?;
        }
        for check in &Operation::new(self.name, self.width)?.checks(alloc, &numbers)? {
            let shows = check.shows;
            match number_of(alloc, &check.program, &NOTHING, check.wanted)? {
                Ok(came) if came == check.wanted => {}
                Ok(came) => return Ok(Some(format!(in alloc; "{came:#x} {shows}")?)),
                Err(end) => return Ok(Some(format!(in alloc; "{end} {shows}")?)),
            }
        }
        Ok(None)
    }
}

// Prints how many lines of a group passed, if it has any.
fn print_group<R: Print + AllocGlobal>(rt: &R, group: Group<'_>) -> Result<()> {
    let Group {
        name,
        width,
        passed,
    } = group;
    if passed > 0 {
        println!(rt; "ok {name} {width}: {passed}")?;
    }
    Ok(())
}

/// Runs each line of a table, and prints what comes of its groups and of lines that fail.
pub fn run_table<R: Print + AllocGlobal>(
    rt: &R,
    path: &str,
    text: &str,
    tally: &mut Tally,
) -> Result<()> {
    let mut group = Group::new("", "");
    let mut place: usize = 0;
    for text in text.lines() {
        place = place.saturating_add(1);
        if text.is_empty() || text.starts_with('#') {
            continue;
        }
        let line = line_of(text).context(format_args!("line {place}"))?;
        if line.name != group.name || line.width != group.width {
            print_group(rt, group)?;
            group = Group::new(line.name, line.width);
        }
        let difference = line.difference(rt.alloc());
        match difference.context(format_args!("line {place}"))? {
            None => {
                tally.pass();
                group.passed = group.passed.saturating_add(1);
            }
            Some(came) => {
                tally.fail();
                println!(rt; "FAILED {path}:{place} {text}: came {came}")?;
            }
        }
    }
    print_group(rt, group)
}
