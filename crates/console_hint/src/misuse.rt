//! What an instruction wants of its registers, if they did not hold it.

use bt_insn::{AtomicOp, Insn, Operand, Register, SignedSize, Width};
use bt_verify::Helper;
use std::fmt;

/// So many bytes at a distance from what a register points to.
#[derive(Clone, Copy)]
struct Range {
    bytes: usize,
    register: Register,
    offset: i16,
}

impl fmt::Display for Range {
    fn fmt<W: fmt::Write>(&self, f: &mut fmt::Formatter<W>) -> fmt::Result {
        let Range {
            bytes,
            register,
            offset,
        } = *self;
        let plural = if bytes == 1 { "" } else { "s" };
        let distance = offset.unsigned_abs();
        write!(f, "{bytes} byte{plural} at {register:?}")?;
        if offset == 0 {
            return Ok(());
        }
        let sign = if offset > 0 { "+" } else { "-" };
        write!(f, " {sign} {distance}")
    }
}

fn signed_bytes(size: SignedSize) -> usize {
    match size {
        SignedSize::Byte => 1,
        SignedSize::Half => 2,
        SignedSize::Word => 4,
    }
}

fn atomic_bytes(width: Width) -> usize {
    match width {
        Width::Word => 4,
        Width::DoubleWord => 8,
    }
}

// The bytes that an instruction reads or writes, and what it does with them.
fn range_of(insn: Insn) -> Option<(&'static str, Range)> {
    let (verb, bytes, register, offset) = match insn {
        Insn::Load {
            size,
            src,
            offset,
            ..
        } => ("reads", size.bytes(), src, offset),
        Insn::LoadSigned {
            size,
            src,
            offset,
            ..
        } => ("reads", signed_bytes(size), src, offset),
        Insn::Store {
            size,
            dst,
            offset,
            ..
        } => ("writes", size.bytes(), dst, offset),
        Insn::Atomic {
            width,
            dst,
            offset,
            ..
        } => ("changes", atomic_bytes(width), dst, offset),
        _ => return None,
    };
    let range = Range {
        bytes,
        register,
        offset,
    };
    Some((verb, range))
}

fn name_of(helper: Helper) -> &'static str {
    match helper {
        Helper::MapLookupElem => "map_lookup_elem",
        Helper::MapUpdateElem => "map_update_elem",
        Helper::MapDeleteElem => "map_delete_elem",
        Helper::TailCall => "tail_call",
        Helper::MapPushElem => "map_push_elem",
        Helper::MapPopElem => "map_pop_elem",
        Helper::MapPeekElem => "map_peek_elem",
    }
}

// What of a helper's arguments lies in the stack or the frame.
fn lent_to(helper: Helper) -> &'static str {
    match helper {
        Helper::MapLookupElem | Helper::MapDeleteElem => "the key at R2",
        Helper::MapUpdateElem => "the key at R2 or the value at R3",
        Helper::MapPushElem => "the value at R2",
        Helper::MapPopElem | Helper::MapPeekElem => "the room for a value at R2",
        Helper::TailCall => "nothing",
    }
}

// What a helper wants in its registers.
fn wanted_by(helper: Helper) -> &'static str {
    match helper {
        Helper::MapLookupElem => {
            "an array, a hash, an LPM trie or a map of maps in R1, and a pointer into the stack or the frame in R2"
        }
        Helper::MapUpdateElem => {
            "an array, a hash or an LPM trie in R1, pointers into the stack or the frame in R2 and R3, and a number in R4"
        }
        Helper::MapDeleteElem => {
            "an array, a hash or an LPM trie in R1, and a pointer into the stack or the frame in R2"
        }
        Helper::TailCall => "the context in R1, a program array in R2, and a number in R3",
        Helper::MapPushElem => {
            "a queue or a stack in R1, a pointer into the stack or the frame in R2, and a number in R3"
        }
        Helper::MapPopElem | Helper::MapPeekElem => {
            "a queue or a stack in R1, and a pointer into the stack or the frame in R2"
        }
    }
}

/// Writes which bytes an instruction used that are not there.
pub fn write_outside<W: fmt::Write>(f: &mut fmt::Formatter<W>, insn: Insn) -> fmt::Result {
    if let Insn::Call { helper } = insn {
        return write_outside_of_call(f, helper);
    }
    match range_of(insn) {
        Some((verb, range)) if range.register == Register::R10 => {
            write!(
                f,
                "{verb} {range}, outside the stack, whose 512 bytes end at R10"
            )
        }
        Some((verb, range)) => {
            let register = range.register;
            write!(
                f,
                "{verb} {range}, and what {register:?} points to has no such range"
            )
        }
        None => f.write_str("used bytes outside the stack, the frame or a value"),
    }
}

fn write_outside_of_call<W: fmt::Write>(f: &mut fmt::Formatter<W>, number: i32) -> fmt::Result {
    match Helper::new(number) {
        Some(helper) => {
            let (name, lent) = (name_of(helper), lent_to(helper));
            write!(
                f,
                "calls {name}, and {lent} does not lie whole in the stack or the frame"
            )
        }
        None => f.write_str("calls a helper that there is not"),
    }
}

/// Writes what an instruction wants of its registers, one of which held something else.
pub fn write_wrong_kind<W: fmt::Write>(f: &mut fmt::Formatter<W>, insn: Insn) -> fmt::Result {
    match insn {
        Insn::Load { .. } | Insn::LoadSigned { .. } => write_load(f, insn),
        Insn::Store { dst, src, .. } => write_store(f, dst, src),
        Insn::Atomic { op, dst, src, .. } => write_atomic(f, op, dst, src),
        Insn::Alu { dst, src, .. } => write_numbers(f, dst, src),
        Insn::Neg { dst, .. } | Insn::ByteSwap { dst, .. } => write_number(f, dst),
        Insn::MoveSigned { src, .. } => write_number(f, src),
        Insn::JumpIf { dst, src, .. } => write_comparison(f, dst, src),
        Insn::Exit => f.write_str("ends with R0 as the action, which held no number"),
        Insn::Call { helper } => write_call(f, helper),
        Insn::Jump { .. } | Insn::LoadImmediate { .. } | Insn::LoadMap { .. } => {
            f.write_str("used a map that the program does not name")
        }
    }
}

fn write_call<W: fmt::Write>(f: &mut fmt::Formatter<W>, number: i32) -> fmt::Result {
    match Helper::new(number) {
        Some(helper) => {
            let (name, wanted) = (name_of(helper), wanted_by(helper));
            write!(f, "calls {name}, which wants {wanted}")
        }
        None => f.write_str("calls a helper that there is not"),
    }
}

fn write_load<W: fmt::Write>(f: &mut fmt::Formatter<W>, insn: Insn) -> fmt::Result {
    let Some((verb, range)) = range_of(insn) else {
        return Ok(());
    };
    write!(f, "{verb} {range}")?;
    f.write_str(if range.register == Register::R10 {
        ", a part of a pointer that was stored there: only a load of its 8 bytes reads it"
    } else {
        ", which held a number or a map, or led to a part of a pointer on the stack"
    })
}

fn write_store<W: fmt::Write>(
    f: &mut fmt::Formatter<W>,
    dst: Register,
    src: Operand,
) -> fmt::Result {
    match src {
        Operand::Immediate(_) => write!(
            f,
            "writes through {dst:?}, which held a number, a map or the context"
        ),
        Operand::Register(src) if dst == Register::R10 => write!(
            f,
            "writes {src:?}, which held no number: the stack takes a pointer in 8 aligned bytes alone"
        ),
        Operand::Register(src) => write!(
            f,
            "writes {src:?} through {dst:?}, which wants a pointer into the stack, the frame or a value in {dst:?}, and a number in {src:?}; only 8 aligned bytes of the stack take a pointer"
        ),
    }
}

fn write_atomic<W: fmt::Write>(
    f: &mut fmt::Formatter<W>,
    op: AtomicOp,
    dst: Register,
    src: Register,
) -> fmt::Result {
    let beside = if op == AtomicOp::CompareExchange {
        " and R0"
    } else {
        ""
    };
    write!(
        f,
        "does an atomic operation, which wants a pointer into the stack or a value in {dst:?}, and a number there and in {src:?}{beside}"
    )
}

fn write_number<W: fmt::Write>(f: &mut fmt::Formatter<W>, register: Register) -> fmt::Result {
    write!(f, "calculates with {register:?}, which held no number")
}

fn write_numbers<W: fmt::Write>(
    f: &mut fmt::Formatter<W>,
    dst: Register,
    src: Operand,
) -> fmt::Result {
    match src {
        Operand::Immediate(_) => write_number(f, dst),
        Operand::Register(src) => {
            write!(
                f,
                "calculates with {dst:?} and {src:?}, which did not both hold numbers"
            )
        }
    }
}

fn write_comparison<W: fmt::Write>(
    f: &mut fmt::Formatter<W>,
    dst: Register,
    src: Operand,
) -> fmt::Result {
    match src {
        Operand::Immediate(_) => { write!(f, "compares {dst:?} with a number, and it held none") }
        Operand::Register(src) => write!(
            f,
            "compares {dst:?} with {src:?}, which held neither two numbers nor two pointers into one region"
        ),
    }
}
