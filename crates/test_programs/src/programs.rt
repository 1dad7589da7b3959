//! Programs by their slots. A slot is written as its eight bytes in order: the opcode, the registers, two bytes of an
//! offset and four of an immediate, the lowest byte first.

ghost use Rattle.std.specs.Prelude.{◌≤◌, length};
ghost use Rattle.bt_interp.specs.Runs as runs;

use bt_insn::{Insn, decode};
use bt_interp::Run;
use bt_mapkind::{Bytes, MapAttr, MapType};
use bt_verify::{MapList, Program, verify};
use program_access::Access;
use program_machine::Reason;
use program_step::{Action, Outcome};
use std::alloc::Global;
use std::process::Abort;
use std::sync::Arc;

pub const EXIT: u64 = 0x95000000_00000000;

/// Puts 2 into R0.
pub const PASS: u64 = 0xb7000000_02000000;

pub fn bytes(rt: &impl Abort, alloc: Global, bytes: &[u8]) -> Bytes {
    Bytes::of(alloc, bytes).expect(rt, "at most 260 bytes")
}

/// A map of this type, with keys of 4 bytes and values of 8.
pub fn attr(kind: MapType) -> MapAttr {
    MapAttr {
        kind,
        key_size: 4,
        value_size: 8,
        max_entries: 1,
        flags: 0,
    }
}

/// Map 2 is an array, and map 1 is of this type.
pub fn maps(rt: &impl Abort, alloc: Global, kind: MapType) -> MapList {
    let mut pairs = Vec::new(alloc);
    pairs.push((2, attr(MapType::Array))).expect(rt, "a pair");
    pairs.push((1, attr(kind))).expect(rt, "a pair");
    MapList::new(pairs)
}

/// The bytes of these slots.
pub fn spelled(rt: &impl Abort, alloc: Global, slots: &[u64]) -> Vec<u8> {
    let mut bytes = Vec::new(alloc);
    for slot in slots {
        bytes
            .extend_from_slice(&slot.to_be_bytes())
            .expect(rt, "bytes");
    }
    bytes
}

/// The instructions of these slots.
pub fn decoded(rt: &impl Abort, alloc: Global, slots: &[u64]) -> Vec<Insn> {
    let bytes = spelled(rt, alloc, slots);
    decode(alloc, &bytes).expect(rt, "instructions")
}

/// The program of these slots, which may name map 1, of this type, and map 2.
pub fn program(rt: &impl Abort, alloc: Global, kind: MapType, slots: &[u64]) -> Program {
    let insns = decoded(rt, alloc, slots);
    let code = verify(alloc, insns, &maps(rt, alloc, kind)).expect(rt, "a verified program");
    Program {
        id: 1,
        code: Arc::new(alloc, code).expect(rt, "a shared program"),
    }
}

/// Its run on an empty frame that came in at interface 3.
pub fn run(rt: &impl Abort, alloc: Global, kind: MapType, slots: &[u64]) -> Run {
    Run::start(program(rt, alloc, kind, slots), 3, Vec::new(alloc))
}

/// The next access of a run, which then waits for its reply.
pub fn asked(rt: &impl Abort, run: &mut Run) -> Access
    ensures { runs.IsPending run.new.phase }
{
    match run.advance() {
        Outcome::Access(access) => access,
        _ => panic!(rt; "no access"),
    }
}

/// Whether a run ends, with this action.
pub fn is_done(run: &mut Run, action: Action) -> bool {
    let outcome = run.advance();
    matches!(&outcome, Outcome::Done(done) if *done == action)
}

/// Whether a run is aborted, for this reason.
pub fn is_aborted(run: &mut Run, reason: Reason) -> bool {
    let outcome = run.advance();
    matches!(&outcome, Outcome::Abort(why) if *why == reason)
}
