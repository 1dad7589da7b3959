//! Cases of programs, read from files: each program is decoded, verified and run, and what comes of it is compared.
//!
//! `case_programs FILE..` takes files of programs on a frame (`NAME.programs`) and tables of operations (`NAME.tsv`). It
//! prints `ok NAME` for each program and a line for each operation and width of a table. For what fails it prints
//! `FAILED` with the file and the line, what was wanted and what came. The last line counts programs and table lines.
//! The status is 0 if none failed, 1 if one did, and 2 with a text on standard error if a file can't be read.
#![tactic(auto)]

mod case_file;
mod operation;
mod program;
mod slots;
mod table;
mod tally;

use anyhow::{Context, Result, bail};
use case_file::{Case, cases_of};
use std::process::ExitCode;
use std::rt::{Env, Files};
use std::{env, fs};
use table::run_table;
use tally::Tally;

// Runs a case, and prints how it went: whether it passed.
fn passes<R: Print + AllocGlobal>(rt: &R, path: &str, case: &Case<'_>) -> Result<bool> {
    let line = case.line;
    let came = case.run(rt.alloc()).context(format_args!("line {line}"))?;
    let came = came.as_str();
    let name = case.name;
    let wanted = case.wanted;
    if came == wanted {
        println!(rt; "ok {name}")?;
        Ok(true)
    } else {
        println!(rt; "FAILED {name} at {path}:{line}")?;
        println!(rt; "  wanted {wanted}")?;
        println!(rt; "  came   {came}")?;
        Ok(false)
    }
}

// Runs the programs of a file in their order.
fn run_programs<R: Print + AllocGlobal>(
    rt: &R,
    path: &str,
    text: &str,
    tally: &mut Tally,
) -> Result<()> {
    for case in &cases_of(rt.alloc(), text)? {
        if passes(rt, path, case)? {
            tally.pass();
        } else {
            tally.fail();
        }
    }
    Ok(())
}

// Runs all files that are named.
fn run<R: Env + Files + Print + AllocGlobal>(rt: &R) -> Result<Tally> {
    let mut tally = Tally::new();
    for path in env::args(rt)?.skip(1) {
        let path = path.as_str();
        let text = fs::read_to_string(rt, path).context(format_args!("cannot read {path}"))?;
        let text = text.as_str();
        let ran = if path.ends_with(".tsv") {
            run_table(rt, path, text, &mut tally)
        } else if path.ends_with(".programs") {
            run_programs(rt, path, text, &mut tally)
        } else {
            bail!("{path} is no name of a file of cases");
        };
        ran.context(format_args!("in {path}"))?;
    }
    println!(rt; "{tally}")?;
    Ok(tally)
}

fn main(rt: HostRuntime) -> ExitCode {
    match run(&rt) {
        Ok(tally) => {
            if tally.all_passed() {
                ExitCode::SUCCESS
            } else {
                ExitCode::FAILURE
            }
        }
        Err(error) => {
            let _ = eprintln!(rt; "case_programs: {error:#}");
            ExitCode::from(2)
        }
    }
}
