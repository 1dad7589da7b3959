//! Which replies fit a use of a map, and how a run ends by the others. What a use asks of a real map is in scripts.

use crate::programs::{EXIT, PASS, asked, attr, bytes, is_aborted, is_done, run};
use bt_interp::Run;
use bt_mapkind::Errno;
use bt_mapkind::MapType::{self, ArrayOfMaps, Hash, ProgArray, Queue};
use program_access::AccessReply;
use program_machine::Reason;
use program_step::Action;
use std::alloc::Global;
use std::process::Abort;
use std::test::*;

/// The key of every use.
const KEY: &[u8] = &[0; 4];

/// Makes R1 the map and R2 point to the key, on the stack.
const KEYED: &[u64] = &[
    0xbfa20000_00000000,
    0x07020000_f0ffffff,
    0x18110000_01000000,
    0,
];

/// Makes R1 the map, R2 point to eight bytes of -1 and R3 the flag 2.
const VALUED: &[u64] = &[
    0x7a0af8ff_ffffffff,
    0xbfa20000_00000000,
    0x07020000_f8ffffff,
    0xb7030000_02000000,
    0x18110000_01000000,
    0,
];

/// Makes R1 the map, R2 point to the key, R3 to eight bytes of -1 and R4 the flag 2.
const KEYED_AND_VALUED: &[u64] = &[
    0x7a0af8ff_ffffffff,
    0xbfa20000_00000000,
    0x07020000_f0ffffff,
    0xbfa30000_00000000,
    0x07030000_f8ffffff,
    0xb7040000_02000000,
    0x18110000_01000000,
    0,
];

/// Makes R2 the map and R3 an index, of which the low half counts.
const INDEXED: &[u64] = &[
    0x18120000_01000000,
    0,
    0x18030000_05000000,
    0x00000000_01000000,
];

/// Looks the key up, and puts 6 into R1.
const FINDS: &[u64] = &[
    0xbfa20000_00000000,
    0x07020000_f0ffffff,
    0x18110000_01000000,
    0,
    0x85000000_01000000,
    0xb7010000_06000000,
];

/// The type of map 1, the slots before a use and its own, and for each of the replies below whether the run goes on (`.`),
/// or ends as gone (`G`), out of range (`O`), refused (`R`) or by a reply that does not fit (`W`).
const CALLS: [(MapType, &[u64], u64, &[u8; 14]); 8] = [
    (Hash, KEYED, 0x85000000_01000000, b"GWRWWWW..WWWWW"),
    (ArrayOfMaps, KEYED, 0x85000000_01000000, b"GWRWWWW.WW.WWW"),
    (
        Hash,
        KEYED_AND_VALUED,
        0x85000000_02000000,
        b"GWW..WWWWWWWWW",
    ),
    (Hash, KEYED, 0x85000000_03000000, b"GWW..WWWWWWWWW"),
    (Queue, VALUED, 0x85000000_57000000, b"GWW..WWWWWWWWW"),
    (Queue, VALUED, 0x85000000_58000000, b"GWW.WWWWWWW.WW"),
    (Queue, VALUED, 0x85000000_59000000, b"GWW.WWWWWWW.WW"),
    (ProgArray, INDEXED, 0x85000000_0c000000, b"GWW.WWWWWWWWW."),
];

/// A use of the value that a look-up found: a load of a byte, a store, an addition and an exchange.
const USES: [(u64, &[u8; 14]); 4] = [
    (0x71020000_00000000, b"GORWW.WWWWWWWW"),
    (0x72000000_09000000, b"GORW.WWWWWWWWW"),
    (0xdb100000_00000000, b"GORW.WWWWWWWWW"),
    (0xdb100000_e1000000, b"GORWW..WWWWWWW"),
];

/// Every sort of reply.
fn replies(rt: &impl Abort, alloc: Global) -> [AccessReply; 14] {
    [
        AccessReply::Gone,
        AccessReply::OutOfRange,
        AccessReply::Refused,
        AccessReply::Errno(Errno::EEXIST),
        AccessReply::Done,
        AccessReply::Number(255),
        AccessReply::Number(256),
        AccessReply::Nothing,
        AccessReply::Found(bytes(rt, alloc, KEY)),
        AccessReply::Found(bytes(rt, alloc, &[0; 5])),
        AccessReply::Map(7, attr(Hash)),
        AccessReply::Value(bytes(rt, alloc, &[1; 8])),
        AccessReply::Value(bytes(rt, alloc, &[0; 7])),
        AccessReply::Prog(None),
    ]
}

// The letters of the reasons.
const REASONS: [(u8, Reason); 4] = [
    (b'G', Reason::Gone),
    (b'O', Reason::OutOfRange),
    (b'R', Reason::Refused),
    (b'W', Reason::WrongReply),
];

// The reason that a letter stands for.
fn reason_of(letter: u8) -> Option<Reason> {
    for (of, reason) in REASONS {
        if of == letter {
            return Some(reason);
        }
    }
    None
}

// A run of these slots and of those after them.
fn run_of(rt: &impl Abort, alloc: Global, kind: MapType, slots: &[u64], behind: &[u64]) -> Run {
    let mut whole = Vec::from_slice(alloc, slots).expect(rt, "slots");
    whole.extend_from_slice(behind).expect(rt, "slots");
    run(rt, alloc, kind, &whole)
}

// The look-up before a use finds its key.
fn finds(rt: &impl Abort, alloc: Global, run: &mut Run) {
    asked(rt, run);
    let found = AccessReply::Found(bytes(rt, alloc, KEY));
    assert!(rt; run.resume(found).is_none());
}

// Whether a run ends as it did.
fn ends(run: &mut Run, end: Option<Reason>) -> bool {
    match end {
        Some(reason) => is_aborted(run, reason),
        None => is_done(run, Action::Pass),
    }
}

// Tells a run a reply: it ends, or goes on, as the letter says. Without one it asks the same again.
fn answers(rt: &impl Abort, run: &mut Run, reply: AccessReply, letter: u8) {
    let access = asked(rt, run);
    assert!(rt; asked(rt, run) == access);
    let end = run.resume(reply);
    assert!(rt;
        end == reason_of(letter) && ends(run, end) && ends(run, end),
        "{access:?}"
    );
}

#[test]
fn which_replies_fit_a_call(rt: HostRuntime) {
    let alloc = rt.alloc();
    for (kind, before, call, letters) in CALLS {
        for (reply, letter) in replies(&rt, alloc).into_iter().zip(letters) {
            let behind = [call, PASS, EXIT];
            let mut run = run_of(&rt, alloc, kind, before, &behind);
            answers(&rt, &mut run, reply, *letter);
        }
    }
}

#[test]
fn which_replies_fit_a_use_of_a_value(rt: HostRuntime) {
    let alloc = rt.alloc();
    for (slot, letters) in USES {
        for (reply, letter) in replies(&rt, alloc).into_iter().zip(letters) {
            let behind = [slot, PASS, EXIT];
            let mut run = run_of(&rt, alloc, Hash, FINDS, &behind);
            finds(&rt, alloc, &mut run);
            answers(&rt, &mut run, reply, *letter);
        }
    }
}

/// Errors that no map gives: R0 is -17, and what was to be taken out or looked at leaves its place, eight bytes of -1, as
/// it was. The last slots add 19 or 3 to the number, for 2.
const ERRORS: [(MapType, &[u64], &[u64]); 4] = [
    (
        ProgArray,
        INDEXED,
        &[0x85000000_0c000000, 0x07000000_13000000, EXIT],
    ),
    (
        Queue,
        VALUED,
        &[0x85000000_58000000, 0x07000000_13000000, EXIT],
    ),
    (
        Queue,
        VALUED,
        &[
            0x85000000_58000000,
            0x79a0f8ff_00000000,
            0x07000000_03000000,
            EXIT,
        ],
    ),
    (
        Queue,
        VALUED,
        &[
            0x85000000_59000000,
            0x79a0f8ff_00000000,
            0x07000000_03000000,
            EXIT,
        ],
    ),
];

#[test]
fn errors_that_no_map_gives(rt: HostRuntime) {
    let alloc = rt.alloc();
    for (kind, before, behind) in ERRORS {
        let mut run = run_of(&rt, alloc, kind, before, behind);
        asked(&rt, &mut run);
        let end = run.resume(AccessReply::Errno(Errno::EEXIST));
        assert!(rt; end.is_none() && is_done(&mut run, Action::Pass));
    }
}
