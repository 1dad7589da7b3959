//! Operations on numbers by themselves, once each: what they give at the edges is in the tables of `case_programs`.

use bt_insn::{AluOp, ByteOrder, Condition, SignExtension, SwapSize, Width};
use program_alu::{alu, extended, holds, immediate, low_half, negated, swapped};
use std::test::*;

#[test]
fn each_operation_once(rt: HostRuntime) {
    assert_eq!(rt; alu(Width::Word, AluOp::Sub, 1, 2), 0xffff_ffff);
    assert_eq!(rt; negated(Width::DoubleWord, 1), u64::MAX);
    assert_eq!(rt; extended(SignExtension::ByteToWord, 0x180), 0xffff_ff80);
    assert_eq!(rt; swapped(ByteOrder::Big, SwapSize::Half, 0x0102), 0x0201);
    assert!(rt; holds(Width::Word, Condition::Slt, 0x8000_0000, 0));
    assert_eq!(rt; immediate(-1), u64::MAX);
    assert_eq!(rt; low_half(0x1_0000_0002), 2);
}
