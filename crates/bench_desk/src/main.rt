//! What a desk costs and keeps: threads that share one book, measured and replayed.
//!
//!     bench_desk                   each of these, with 1,000 calls or frames
//!     bench_desk frames FRAMES     frames that workers serve at a desk, and threads by a `Mutex`
//!     bench_desk soak CALLS        calls of eight threads by chance, replayed by one
//!     bench_desk waits CALLS       how long a call takes while two workers serve frames as fast as they can
//!
//! What came out goes to standard output, and is the same in each run; the nanoseconds go to standard error.
#![tactic(auto)]

mod frames;
mod host;
mod soak;
mod timed;
mod waits;

use std::{env, io};

/// How many calls or frames there are, if no argument says it.
const COUNT: u64 = 1_000;

/// What can be asked for.
#[derive(Clone, Copy, PartialEq, Eq, Debug)]
enum Part {
    All,
    Frames,
    Soak,
    Waits,
}

impl Part {
    // The part that a word names.
    fn named(word: &str) -> Option<Part> {
        match word {
            "frames" => Some(Part::Frames),
            "soak" => Some(Part::Soak),
            "waits" => Some(Part::Waits),
            _ => None,
        }
    }

    fn has(self, part: Part) -> bool {
        self == Part::All || self == part
    }
}

fn main(rt: HostRuntime) -> io::Result<()> {
    let mut words = env::args(&rt)?;
    let part = match words.nth(1) {
        Some(word) => Part::named(word.as_str()),
        None => Some(Part::All),
    };
    let count = words
        .next()
        .and_then(|word| word.parse().ok())
        .unwrap_or(COUNT);
    let Some(part) = part else {
        rt.eprintln("usage: bench_desk [frames|soak|waits] [COUNT]")?;
        return Err(io::ErrorKind::InvalidInput.into());
    };
    if part.has(Part::Frames) {
        frames::compare(&rt, count)?;
    }
    if part.has(Part::Soak) {
        soak::compare(&rt, count)?;
    }
    if part.has(Part::Waits) {
        waits::tell(&rt, count)?;
    }
    Ok(())
}
