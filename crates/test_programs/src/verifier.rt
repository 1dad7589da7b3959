//! What a verified program holds, the limits of the verifier, and its texts.

use crate::programs::{EXIT, PASS, attr, decoded, maps, program};
use bt_insn::{Insn, Register};
use bt_mapkind::MapType;
use bt_verify::{Code, Helper, Slot, Verified, VerifyFault, verify};
use program_access::{Access, AccessReply, Expected};
use std::alloc::Global;
use std::process::Abort;
use std::test::*;

/// The first slot of an instruction that names map 1, and of one that names map 2.
const NAMES_1: u64 = 0x18110000_01000000;

const NAMES_2: u64 = 0x18110000_02000000;

/// Jumps over one slot if R1 is 0.
const BRANCH: u64 = 0x15010100_00000000;

fn verified(rt: &impl Abort, alloc: Global, slots: &[u64]) -> Result<Verified, VerifyFault> {
    let maps = maps(rt, alloc, MapType::Hash);
    verify(alloc, decoded(rt, alloc, slots), &maps)
}

/// A list keeps its order, and a program has the maps that it names by ascending id, also those of instructions that no
/// path reaches.
#[test]
fn what_a_program_holds(rt: HostRuntime) {
    let alloc = rt.alloc();
    let maps = maps(&rt, alloc, MapType::Hash);
    assert!(rt; maps.pairs().len() == 2 && maps.pairs()[0].0 == 2);
    let slots = [NAMES_2, 0, NAMES_1, 0, NAMES_2, 0, PASS, EXIT];
    let code = verified(&rt, alloc, &slots).expect(&rt, "verified");
    assert_eq!(rt; code.insns().len(), 5);
    assert_eq!(rt; code.slots().len(), 8);
    assert!(rt; code.slots()[1] == Slot::Second && code.slots()[7] == Slot::First(Insn::Exit));
    assert!(rt; code.maps().len() == 2 && code.maps()[0].0 == 1 && code.maps()[1].0 == 2);
    assert!(rt; code.map(1) == Some(attr(MapType::Hash)) && code.map(9).is_none());
    match code.rows() {
        [first, _, _, _, _, _, seventh, _] => {
            assert!(rt; first.code == Code::General);
            assert!(rt; seventh.code == Code::Mov64Immediate && seventh.immediate == 2);
        }
        _ => panic!(rt; "not eight rows"),
    }
    let unreached = [PASS, 0x05000200_00000000, NAMES_1, 0, EXIT];
    let code = verified(&rt, alloc, &unreached).expect(&rt, "verified");
    assert_eq!(rt; code.maps().len(), 1);
}

#[test]
fn a_slot_too_many(rt: HostRuntime) {
    let mut insns = Vec::new(rt.alloc());
    for _ in 0..4097 {
        insns.push(Insn::Exit).expect(&rt, "an instruction");
    }
    let refused = verify(rt.alloc(), insns, &maps(&rt, rt.alloc(), MapType::Hash)).err();
    assert_eq!(rt; refused, Some(VerifyFault::TooLong));
}

/// Of 4,093 branches each passes over the next slot or does not: so many paths are verified in one pass.
#[test]
fn more_paths_than_can_be_counted(rt: HostRuntime) {
    let mut slots = Vec::new(rt.alloc());
    slots.push(PASS).expect(&rt, "a slot");
    for _ in 0..4093 {
        slots.push(BRANCH).expect(&rt, "a slot");
    }
    slots.extend_from_slice(&[PASS, EXIT]).expect(&rt, "slots");
    let code = verified(&rt, rt.alloc(), &slots).expect(&rt, "verified");
    assert_eq!(rt; code.slots().len(), 4096);
}

#[test]
fn numbers_and_texts(rt: HostRuntime) {
    assert!(rt; Helper::new(89) == Some(Helper::MapPeekElem) && Helper::new(90).is_none());
    for (fault, want) in [
        (VerifyFault::NoMap(3, 1), "no map 1, named in slot 3"),
        (
            VerifyFault::Uninit(3, Register::R0),
            "R0 is read in slot 3 and may be unwritten",
        ),
    ] {
        let text = format!(in rt.alloc(); "{fault}").expect(&rt, "a text");
        assert_eq!(rt; text.as_str(), want);
    }
}

#[test]
fn a_program_is_shared(rt: HostRuntime) {
    let shared = program(&rt, rt.alloc(), MapType::Array, &[PASS, EXIT]);
    assert!(rt; shared.id == 1 && shared.verified().insns().len() == 2);
    assert_eq!(rt;
        Access::Pop {
            map: 1,
            value_size: 3
        }
        .expected(),
        Expected::Value(3)
    );
    assert!(rt; Expected::Changed.fits(&AccessReply::Done));
}
