//! Whole runs that no script reaches: replies with a program, the last tail call, the longest program.

ghost use Rattle.bt_interp.specs.Runs as runs;

use crate::programs::{EXIT, PASS, asked, bytes, is_done, program, run};
use bt_interp::Run;
use bt_mapkind::MapType::{Array, ProgArray};
use bt_verify::Program;
use program_access::{Access, AccessReply};
use program_step::{Action, MAX_TAIL_CALLS};
use std::alloc::Global;
use std::process::Abort;
use std::test::*;

/// Adds 1 to the value under key 0 of map 2, calls the program at the last index of map 1, 0xffffffff, and drops the frame
/// if there is none.
pub const ADDS_AND_CALLS: &[u64] = &[
    0xbf160000_00000000,
    0x620afcff_00000000,
    0xbfa20000_00000000,
    0x07020000_fcffffff,
    0x18110000_02000000,
    0,
    0x85000000_01000000,
    0x15000200_00000000,
    0xb7010000_01000000,
    0xdb100000_00000000,
    0xbf610000_00000000,
    0x18120000_01000000,
    0,
    0xb7030000_ffffffff,
    0x85000000_0c000000,
    0xb7000000_01000000,
    EXIT,
];

/// Calls the program at index 0 of map 1, and drops the frame if none is called.
const CALLS: &[u64] = &[
    0x18120000_01000000,
    0,
    0xb7030000_00000000,
    0x85000000_0c000000,
    0xb7000000_01000000,
    EXIT,
];

/// The interface at which the frame came in is the action, but for what stands highest on the stack.
const TELLS_THE_INTERFACE: &[u64] = &[
    0x61100c00_00000000,
    0x79a2f8ff_00000000,
    0x0f200000_00000000,
    EXIT,
];

fn is_look_up(access: &Access) -> bool {
    matches!(access, Access::Lookup { map: 2, .. })
}

fn is_addition(access: &Access) -> bool {
    matches!(access, Access::Atomic { map: 2, .. })
}

// The run asks for a key of map 2, and waits for the reply.
fn looks_up(rt: &impl Abort, run: &mut Run)
    ensures { runs.IsPending run.new.phase }
{
    let access = asked(rt, run);
    assert!(rt; is_look_up(&access));
}

// The key that the run waits for is found, and it adds 1 to its value.
fn adds(rt: &impl Abort, alloc: Global, run: &mut Run)
    requires { runs.IsPending run.old.phase }
{
    let found = AccessReply::Found(bytes(rt, alloc, &[0; 4]));
    assert!(rt; run.resume(found).is_none());
    let access = asked(rt, run);
    assert!(rt; is_addition(&access));
    assert!(rt; run.resume(AccessReply::Done).is_none());
}

// The run looks the key up in map 2, finds it and adds 1, or finds nothing.
fn counts(rt: &impl Abort, alloc: Global, run: &mut Run, is_found: bool) {
    looks_up(rt, run);
    if is_found {
        adds(rt, alloc, run);
    } else {
        assert!(rt; run.resume(AccessReply::Nothing).is_none());
    }
}

fn is_fetch(access: &Access, wanted: u32) -> bool {
    matches!(access, Access::Fetch { map: 1, index } if *index == wanted)
}

// The run asks for a program, and is told one or none.
fn fetches(rt: &impl Abort, alloc: Global, run: &mut Run, is_found: bool) {
    let access = asked(rt, run);
    assert!(rt; is_fetch(&access, 0xffff_ffff));
    let called = if is_found {
        Some(program(rt, alloc, Array, TELLS_THE_INTERFACE))
    } else {
        None
    };
    assert!(rt; run.resume(AccessReply::Prog(called)).is_none());
}

/// Whether the key and the program are found, the action, and the instructions done in both programs.
const CALLS_AND_ENDS: [(bool, bool, Action, u32); 3] = [
    (true, true, Action::Tx, 17),
    (true, false, Action::Drop, 15),
    (false, false, Action::Drop, 13),
];

#[test]
fn counting_and_a_tail_call(rt: HostRuntime) {
    let alloc = rt.alloc();
    for (has_key, has_program, action, steps) in CALLS_AND_ENDS {
        let mut run = run(&rt, alloc, ProgArray, ADDS_AND_CALLS);
        counts(&rt, alloc, &mut run, has_key);
        fetches(&rt, alloc, &mut run, has_program);
        assert!(rt; is_done(&mut run, action));
        assert_eq!(rt; run.steps(), steps);
        assert_eq!(rt; run.prog(), 1);
    }
}

fn same(rt: &impl Abort, program: &Program) -> Program {
    Program {
        id: program.id,
        code: program.code.clone().expect(rt, "one more owner"),
    }
}

// The run asks for a program, and continues with this one.
fn tail_calls(rt: &impl Abort, run: &mut Run, program: &Program) {
    let access = asked(rt, run);
    assert!(rt; is_fetch(&access, 0));
    let found = AccessReply::Prog(Some(same(rt, program)));
    assert!(rt; run.resume(found).is_none());
}

/// A program that calls itself is found 33 times. The next call asks for none, and gives what is given if none is.
#[test]
fn the_last_tail_call(rt: HostRuntime) {
    let alloc = rt.alloc();
    let calls = program(&rt, alloc, ProgArray, CALLS);
    let mut run = Run::start(same(&rt, &calls), 3, Vec::new(alloc));
    for _ in 0..MAX_TAIL_CALLS {
        tail_calls(&rt, &mut run, &calls);
    }
    assert!(rt; is_done(&mut run, Action::Drop));
    assert_eq!(rt; run.steps(), 33 * 3 + 5);
}

/// 4,096 instructions are the most of one program.
#[test]
fn the_longest_program(rt: HostRuntime) {
    let mut slots = Vec::new(rt.alloc());
    for _ in 0..4095 {
        slots.push(PASS).expect(&rt, "a slot");
    }
    slots.push(EXIT).expect(&rt, "a slot");
    let mut run = run(&rt, rt.alloc(), Array, &slots);
    assert!(rt; is_done(&mut run, Action::Pass) && run.steps() == 4096);
    assert_eq!(rt; Action::Pass.number(), 2);
}
