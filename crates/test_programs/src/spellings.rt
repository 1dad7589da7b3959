//! Programs as the bytes that spell them, which decoding and encoding leave as they are.

use crate::programs::{EXIT, PASS, decoded, spelled};
use crate::runs::ADDS_AND_CALLS;
use bt_insn::encode;

const PASSES: &[u64] = &[PASS, EXIT];

// Adds 1 to the value under key 0 of map 1, and passes the frame.
const COUNTS: &[u64] = &[
    0x620afcff_00000000,
    0xbfa20000_00000000,
    0x07020000_fcffffff,
    0x18110000_01000000,
    0,
    0x85000000_01000000,
    0x15000200_00000000,
    0xb7010000_01000000,
    0xdb100000_00000000,
    PASS,
    EXIT,
];

// Adds 1 as `COUNTS` does, and fetches what stood there.
const COUNTS_AND_FETCHES: &[u64] = &[
    0x620afcff_00000000,
    0xbfa20000_00000000,
    0x07020000_fcffffff,
    0x18110000_01000000,
    0,
    0x85000000_01000000,
    0x15000200_00000000,
    0xb7010000_01000000,
    0xdb100000_01000000,
    PASS,
    EXIT,
];

// Adds 1 to the value under key 0 of map 2, calls the program at index 0 of map 1, and drops the frame if there is none.
const COUNTS_AND_CALLS: &[u64] = &[
    0xbf160000_00000000,
    0x620afcff_00000000,
    0xbfa20000_00000000,
    0x07020000_fcffffff,
    0x18110000_02000000,
    0,
    0x85000000_01000000,
    0x15000200_00000000,
    0xb7010000_01000000,
    0xdb100000_00000000,
    0xbf610000_00000000,
    0x18120000_01000000,
    0,
    0xb7030000_00000000,
    0x85000000_0c000000,
    0xb7000000_01000000,
    EXIT,
];

// Names map 1, and passes the frame.
const NAMES_A_MAP: &[u64] = &[0x18110000_01000000, 0, PASS, EXIT];

// Reads R3 after a call, which leaves it unwritten.
const READS_AN_ARGUMENT: &[u64] = &[
    0xb7030000_00000000,
    0xb7020000_00000000,
    0x85000000_01000000,
    0xbf300000_00000000,
    EXIT,
];

#[test]
fn a_program_is_spelled_as_it_was_read(rt: HostRuntime) {
    for (name, slots) in [
        ("passes", PASSES),
        ("counts", COUNTS),
        ("counts and fetches", COUNTS_AND_FETCHES),
        ("counts and calls", COUNTS_AND_CALLS),
        ("counts and calls far", ADDS_AND_CALLS),
        ("names a map", NAMES_A_MAP),
        ("reads an argument", READS_AN_ARGUMENT),
    ] {
        let insns = decoded(&rt, rt.alloc(), slots);
        let bytes = encode(rt.alloc(), &insns).expect(&rt, "bytes");
        assert!(rt; bytes == spelled(&rt, rt.alloc(), slots), "{name}");
    }
}
