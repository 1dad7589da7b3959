//! What a dialogue tells of a step of a run: the access that it went through.

use bt_console::Runs;
use console_operand::behind_word;
use program_access::Access;
use std::fmt;

// Where in its map an access goes.
#[derive(Clone, Copy)]
enum Spot<'a> {
    Key(&'a [u8]),
    Index(u32),
    // An end of a queue or a stack.
    End,
}

fn write_key<W: fmt::Write>(f: &mut fmt::Formatter<W>, key: &[u8]) -> fmt::Result {
    f.write_str(" key")?;
    for byte in key {
        let byte = *byte;
        write!(f, " {byte:02x}")?;
    }
    Ok(())
}

impl fmt::Display for Spot<'_> {
    fn fmt<W: fmt::Write>(&self, f: &mut fmt::Formatter<W>) -> fmt::Result {
        match *self {
            Spot::Key(key) => write_key(f, key),
            Spot::Index(index) => write!(f, " index {index}"),
            Spot::End => Ok(()),
        }
    }
}

// What an access does, in the console's word, to which map and where.
fn parts(access: &Access) -> (&'static str, u32, Spot<'_>) {
    match access {
        Access::Load { map, key, .. } => ("load", *map, Spot::Key(key.as_slice())),
        Access::Store { map, key, .. } => ("store", *map, Spot::Key(key.as_slice())),
        Access::Atomic { map, key, .. } => ("atomic", *map, Spot::Key(key.as_slice())),
        Access::Lookup { map, key, .. } => ("lookup", *map, Spot::Key(key.as_slice())),
        Access::Update { map, key, .. } => ("update", *map, Spot::Key(key.as_slice())),
        Access::Delete { map, key } => ("delete", *map, Spot::Key(key.as_slice())),
        Access::Push { map, .. } => ("push", *map, Spot::End),
        Access::Pop { map, .. } => ("pop", *map, Spot::End),
        Access::Peek { map, .. } => ("peek", *map, Spot::End),
        Access::Fetch { map, index } => ("tail call", *map, Spot::Index(*index)),
    }
}

// Whether a line steps a run.
fn steps_run(line: &[u8]) -> bool {
    match behind_word(line, b"run") {
        Some(rest) => behind_word(rest, b"step").is_some(),
        None => false,
    }
}

/// Tells on standard error, after a line that stepped a run, which access the run went through: what it did, to which map and
/// to which key. After another line, and if the run came to its end without an access, it tells nothing.
pub fn tell_step<R: Eprint>(rt: &R, runs: &Runs, line: &[u8]) {
    if !steps_run(line) {
        return;
    }
    if let Some(access) = runs.asked() {
        let (what, map, spot) = parts(access);
        let _ = eprintln!(rt; "bpfcon: access: {what} map {map}{spot}");
    }
}
