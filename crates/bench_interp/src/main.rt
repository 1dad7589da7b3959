//! Runs programs of arithmetic, of loads and stores, and of accesses. What each does goes to standard output, how long
//! it takes to standard error.
#![tactic(auto)]

mod programs;

ghost use Rattle.bt_interp.specs.Runs as runs;

use bt_interp::Run;
use bt_verify::Program;
use program_access::{Access, AccessReply};
use program_step::Outcome;
use programs::{ARITHMETIC, COUNTS, PASSES, STACK, program, repeated};
use std::alloc::{AllocError, Global};
use std::env;
use std::rt::Clock;
use std::time::{Duration, Instant};

/// How often each program is run, if no argument says it.
const RUNS: u32 = 3;

// The reply of an array of one number.
fn reply(access: Access, number: &mut u64) -> AccessReply {
    match access {
        Access::Lookup { key, .. } => AccessReply::Found(key),
        Access::Atomic { op, operand, .. } => {
            *number = op.combined(*number, operand);
            AccessReply::Done
        }
        _ => AccessReply::Refused,
    }
}

// Takes a run to its end, or to its eighth access; the number of its action.
fn finish(run: &mut Run, number: &mut u64) -> u32 {
    for _ in 0..8 {
        match run.advance() {
            Outcome::Access(access) => {
                run.resume(reply(access, number));
            }
            Outcome::Done(action) => return action.number(),
            Outcome::Abort(_) => return 0,
        }
    }
    0
}

/// What a program came to.
#[derive(Drop)]
struct Measured {
    action: u32,
    steps: u32,
    number: u64,
    nanoseconds: u64,
}

// A program to be run once more.
fn again(program: &Program) -> Result<Program, AllocError> {
    Ok(Program {
        id: program.id,
        code: program.code.clone()?,
    })
}

// What has not run yet.
fn nothing() -> Measured {
    Measured {
        action: 0,
        steps: 0,
        number: 0,
        nanoseconds: 0,
    }
}

// Runs a program so often, each time on an empty frame, by one run that is restarted.
fn measure<R: Clock>(
    rt: &R,
    alloc: Global,
    program: &Program,
    runs: u32,
) -> anyhow::Result<Measured> {
    let mut measured = nothing();
    let mut run = Run::start(again(program)?, 1, Vec::new(alloc));
    let start = Instant::now(rt)?;
    for _ in 0..runs {
        run.restart(again(program)?, 1, Vec::new(alloc));
        measured.action = finish(&mut run, &mut measured.number);
        measured.steps = run.steps();
    }
    measured.nanoseconds = nanoseconds_in(start.elapsed(rt)?);
    Ok(measured)
}

fn nanoseconds_in(took: Duration) -> u64 {
    u64::try_from(took.as_nanos()).unwrap_or(u64::MAX)
}

// Measures as many runs, each made anew. No program calls another, so its own instructions are all.
fn measure_starts<R: Clock>(
    rt: &R,
    alloc: Global,
    program: &Program,
    runs: u32,
) -> anyhow::Result<Measured> {
    let mut measured = nothing();
    let start = Instant::now(rt)?;
    for _ in 0..runs {
        let mut run = Run::start(again(program)?, 1, Vec::new(alloc));
        measured.action = finish(&mut run, &mut measured.number);
        measured.steps = run.program_steps();
    }
    measured.nanoseconds = nanoseconds_in(start.elapsed(rt)?);
    Ok(measured)
}

fn print<R: Print + Eprint>(
    rt: &R,
    name: &str,
    measured: &Measured,
    runs: u32,
) -> anyhow::Result<()> {
    let Measured {
        action,
        steps,
        number,
        nanoseconds,
    } = measured;
    println!(rt; "{name}: action {action}, {steps} instructions, number {number}")?;
    eprintln!(rt; "{name}: {nanoseconds} ns in {runs} runs")?;
    Ok(())
}

fn main(rt: HostRuntime) -> anyhow::Result<()> {
    let alloc = rt.alloc();
    let runs = env::args(&rt)?
        .nth(1)
        .and_then(|word| word.parse().ok())
        .unwrap_or(RUNS);
    let arithmetic = repeated(alloc, ARITHMETIC, 1024)?;
    let more_arithmetic = repeated(alloc, ARITHMETIC, 4096)?;
    let stack = repeated(alloc, STACK, 1024)?;
    let rows: [(&str, &[u64]); 5] = [
        ("passes", PASSES),
        ("counts", COUNTS),
        ("arithmetic 1024", &arithmetic),
        ("arithmetic 4096", &more_arithmetic),
        ("stack 1024", &stack),
    ];
    for (name, slots) in rows {
        let program = program(alloc, slots)?;
        print(&rt, name, &measure(&rt, alloc, &program, runs)?, runs)?;
    }
    let program = program(alloc, PASSES)?;
    let measured = measure_starts(&rt, alloc, &program, runs)?;
    print(&rt, "passes, started anew", &measured, runs)
}
