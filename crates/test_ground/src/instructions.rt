//! The codec's round trips, its limit and its parts. Each opcode and field is in a table of `case_programs`.

ghost use Rattle.std.specs.Prelude.{◌≡◌, ◌≤◌, IfOk, MatchResult};
ghost use Rattle.bt_insn.specs.Spelling.{slots_in};

use bt_insn::*;
use std::alloc::Global;
use std::process::Abort;

/// The contracts of `encode` and `decode` give both round trips.
fn encoded_and_decoded(alloc: Global, insns: &[Insn]) -> Result<Vec<Insn>, DecodeFault>
    requires { slots_in insns.now ≤ 4096 }
    ensures { MatchResult result (λ v. v.items ≡ insns.now) (λ e. e ≡ DecodeFault.NoMemory) }
{
    let bytes = encode(alloc, insns)?;
    decode(alloc, &bytes)
}

fn decoded_and_encoded(alloc: Global, bytes: &[u8]) -> Result<Vec<u8>, DecodeFault>
    ensures { IfOk result (λ v. v.items ≡ bytes.now) }
{
    let insns = decode(alloc, bytes)?;
    Ok(encode(alloc, &insns)?)
}

fn exits(rt: &impl Abort, alloc: Global, count: u32) -> Vec<u8> {
    let mut bytes = Vec::new(alloc);
    for _ in 0..count {
        assert!(rt; bytes.extend_from_slice(&Insn::Exit.first_slot()).is_ok());
    }
    bytes
}

#[test]
fn instructions_are_encoded_and_decoded(rt: HostRuntime) {
    let insns = [
        Insn::LoadMap {
            dst: Register::R1,
            id: u32::MAX,
        },
        Insn::Exit,
    ];
    let again = encoded_and_decoded(rt.alloc(), &insns).expect(&rt, "instructions");
    assert!(rt; again.as_slice() == insns.as_slice());
}

#[test]
fn a_program_has_at_most_4096_slots(rt: HostRuntime) {
    let most = exits(&rt, rt.alloc(), 4096);
    let again = decoded_and_encoded(rt.alloc(), &most).expect(&rt, "bytes");
    assert!(rt; again.as_slice() == most.as_slice());
    let more = exits(&rt, rt.alloc(), 4097);
    assert!(rt; matches!(&decode(rt.alloc(), &more), Err(DecodeFault::TooLong)));
}

/// By RFC 9669, section 3: `*(u32 *)(r10 - 4) = 7`, an instruction of two slots, and the parts of an instruction.
#[test]
fn fields_and_parts(rt: HostRuntime) {
    let store = Insn::new(0x62, 10, 0, -4, 7, 0);
    let want = Insn::Store {
        size: Size::Word,
        dst: Register::R10,
        src: Operand::Immediate(7),
        offset: -4,
    };
    assert!(rt; store == Some(want));
    let fields = want.fields();
    assert_eq!(rt; (fields.opcode, fields.dst, fields.src), (0x62, 10, 0));
    assert_eq!(rt; (fields.offset, fields.immediate), (-4, 7));
    let wide = Insn::LoadImmediate {
        dst: Register::R3,
        value: 0x0807_0605_0403_0201,
    };
    assert_eq!(rt; wide.slots(), 2);
    assert_eq!(rt; wide.high(), 0x0807_0605);
    assert_eq!(rt; wide.first_slot(), [0x18, 3, 0, 0, 1, 2, 3, 4]);
    assert_eq!(rt; wide.second_slot(), Some([0, 0, 0, 0, 5, 6, 7, 8]));
    assert_eq!(rt; Register::new(10).map(|r| r.index()), Some(10));
    assert_eq!(rt; Register::new(11), None);
    assert_eq!(rt; Distance::Long(-7).slots(), -7);
    assert_eq!(rt; Size::DoubleWord.bytes(), 8);
    assert_eq!(rt; size_of::<Insn>(), 16);
}

#[test]
fn messages(rt: HostRuntime) {
    let message = format!(in rt.alloc(); "{}", DecodeFault::HalfWide(3)).expect(&rt, "a text");
    assert_eq!(rt; message.as_str(), "half a wide instruction in slot 3");
}
