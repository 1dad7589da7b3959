//! Cases of scripts, read from files: each script runs on a new host, and what it prints is compared byte for byte.
//!
//! `case_scripts FILE..` prints `ok NAME` for each case of the files, in their order. For one that fails it prints
//! `FAILED NAME`, where it first differs, what was wanted there and what came. The last line counts them. The status is
//! 0 if none failed, 1 if one did, and 2 with a text on standard error if a file can't be read.
#![tactic(auto)]

mod case_file;
mod given;
mod setting;
mod verdict;

use anyhow::Context;
use case_file::{Case, cases_of};
use std::process::ExitCode;
use std::rt::{Env, Files};
use std::{env, fs};
use verdict::{Difference, first_difference, printed};

/// How many cases passed and failed.
#[derive(Clone, Copy)]
struct Count {
    passed: u64,
    failed: u64,
}

fn print_failed<R: Print>(
    rt: &R,
    path: &str,
    name: &str,
    difference: Difference<'_>,
) -> anyhow::Result<()> {
    let Difference { line, wanted, came } = difference;
    println!(rt; "FAILED {name} at {path}:{line}")?;
    println!(rt; "  wanted {wanted}")?;
    println!(rt; "  came   {came}")?;
    Ok(())
}

// Prints how a case went that printed this: whether it passed.
fn print_verdict<R: Print>(
    rt: &R,
    path: &str,
    case: &Case<'_>,
    printed: &[u8],
) -> anyhow::Result<bool> {
    let name = case.name;
    match first_difference(case, printed) {
        None => {
            println!(rt; "ok {name}")?;
            Ok(true)
        }
        Some(difference) => {
            print_failed(rt, path, name, difference)?;
            Ok(false)
        }
    }
}

// Runs a case, and prints how it went: whether it passed.
fn passes<R: Print + AllocGlobal>(rt: &R, path: &str, case: &Case<'_>) -> anyhow::Result<bool> {
    let printed = printed(rt.alloc(), case)?;
    print_verdict(rt, path, case, printed.as_slice())
}

// Runs cases of a file, and counts them.
fn run_cases<R: Print + AllocGlobal>(
    rt: &R,
    path: &str,
    cases: &[Case<'_>],
    count: &mut Count,
) -> anyhow::Result<()> {
    for case in cases {
        if passes(rt, path, case)? {
            count.passed = count.passed.saturating_add(1);
        } else {
            count.failed = count.failed.saturating_add(1);
        }
    }
    Ok(())
}

// Runs the cases of a file's text.
fn run_text<R: Print + AllocGlobal>(
    rt: &R,
    path: &str,
    text: &str,
    count: &mut Count,
) -> anyhow::Result<()> {
    let cases = cases_of(rt.alloc(), text).context(format_args!("in {path}"))?;
    run_cases(rt, path, cases.as_slice(), count)
}

// Runs the cases of a file.
fn run_file<R: Files + Print + AllocGlobal>(
    rt: &R,
    path: &str,
    count: &mut Count,
) -> anyhow::Result<()> {
    let text = fs::read_to_string(rt, path).context(format_args!("cannot read {path}"))?;
    run_text(rt, path, text.as_str(), count)
}

// Runs the cases of all files that are named: whether each passed.
fn run<R: Env + Files + Print + AllocGlobal>(rt: &R) -> anyhow::Result<bool> {
    let mut count = Count {
        passed: 0,
        failed: 0,
    };
    for path in env::args(rt)?.skip(1) {
        run_file(rt, path.as_str(), &mut count)?;
    }
    let Count { passed, failed } = count;
    println!(rt; "{passed} passed, {failed} failed")?;
    Ok(failed == 0)
}

fn main(rt: HostRuntime) -> ExitCode {
    match run(&rt) {
        Ok(true) => ExitCode::SUCCESS,
        Ok(false) => ExitCode::FAILURE,
        Err(error) => {
            let _ = eprintln!(rt; "case_scripts: {error:#}");
            ExitCode::from(2)
        }
    }
}
