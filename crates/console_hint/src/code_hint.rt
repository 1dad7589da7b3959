//! What is wrong with the bytes of a program, by the fault that was found first.

ghost use Rattle.std.specs.Prelude.{◌≡◌, ◌<◌, OnSome};
ghost use Rattle.std.specs.Option.{option_map};
ghost use Rattle.console_hint.specs.CodeHints.{field_hint, decode_hint, verify_hint, target_at};

use crate::slot::{CALL, Slot, WIDE, slot_at, target_of};
use bt_insn::{DecodeFault, Register};
use bt_verify::VerifyFault;
use std::fmt;

/// What is wrong with a program. Slots of eight bytes are counted from 0.
#[derive(Clone, Copy)]
pub enum CodeHint {
    /// So many bytes are no whole slots.
    Bytes(usize),
    TooLong,
    /// The slot has this opcode, which no instruction has.
    Opcode { slot: usize, opcode: u8 },
    /// The slot calls a function of the program.
    LocalCall(usize),
    /// The slot calls a function of the kernel.
    KernelCall(usize),
    /// The slot loads the address of a value, as of a global variable.
    Global(usize),
    /// Another field of the slot is not as its instruction has it.
    Field { slot: usize, opcode: u8 },
    HalfWide(usize),
    WritesFrame(usize),
    /// The slot calls the helper of this number.
    Helper { slot: usize, number: i32 },
    NoMap { slot: usize, id: u32 },
    /// The jump in the slot leads before the first slot or past the last.
    JumpOut { slot: usize, to: i64 },
    IntoWide { slot: usize, to: i64 },
    BackEdge { slot: usize, to: i64 },
    FallsOff,
    Uninit { slot: usize, register: Register },
    /// There is nothing more to say than the fault does.
    Plain,
}

// What is wrong with the fields of a slot.
fn field_hint(number: usize, slot: Slot) -> CodeHint
    ensures { result ≡ field_hint number slot }
{
    match (slot.opcode, slot.src) {
        (CALL, 1) => CodeHint::LocalCall(number),
        (CALL, 2) => CodeHint::KernelCall(number),
        (WIDE, 2..=6) => CodeHint::Global(number),
        _ => CodeHint::Field {
            slot: number,
            opcode: slot.opcode,
        },
    }
}

/// What is wrong with bytes that are no instructions.
pub fn decode_hint(program: &[u8], fault: DecodeFault) -> CodeHint
    ensures { result ≡ decode_hint program.now fault }
{
    match fault {
        DecodeFault::BadLength => CodeHint::Bytes(program.len()),
        DecodeFault::TooLong => CodeHint::TooLong,
        DecodeFault::BadOpcode(number) => match slot_at(program, number) {
            Some(slot) => CodeHint::Opcode {
                slot: number,
                opcode: slot.opcode,
            },
            None => CodeHint::Plain,
        },
        DecodeFault::BadField(number) => match slot_at(program, number) {
            Some(slot) => field_hint(number, slot),
            None => CodeHint::Plain,
        },
        DecodeFault::HalfWide(number) => CodeHint::HalfWide(number),
        DecodeFault::NoMemory => CodeHint::Plain,
    }
}

// Where the jump in a slot leads.
fn target_at(program: &[u8], number: usize) -> Option<i64>
    ensures { result ≡ target_at program.now number }
{
    if number >= 4096 {
        return None;
    }
    match slot_at(program, number) {
        Some(slot) => Some(target_of(slot, number)),
        None => None,
    }
}

/// What is wrong with the program of these bytes, whose instructions may do what they must not.
pub fn verify_hint(program: &[u8], fault: VerifyFault) -> CodeHint
    ensures { result ≡ verify_hint program.now fault }
{
    match fault {
        VerifyFault::TooLong => CodeHint::TooLong,
        VerifyFault::WritesFrame(slot) => CodeHint::WritesFrame(slot),
        VerifyFault::NoHelper(number) => match slot_at(program, number) {
            Some(slot) => CodeHint::Helper {
                slot: number,
                number: slot.immediate,
            },
            None => CodeHint::Plain,
        },
        VerifyFault::NoMap(slot, id) => CodeHint::NoMap { slot, id },
        VerifyFault::JumpOut(slot) => match target_at(program, slot) {
            Some(to) => CodeHint::JumpOut { slot, to },
            None => CodeHint::Plain,
        },
        VerifyFault::IntoWide(slot) => match target_at(program, slot) {
            Some(to) => CodeHint::IntoWide { slot, to },
            None => CodeHint::Plain,
        },
        VerifyFault::BackEdge(slot) => match target_at(program, slot) {
            Some(to) => CodeHint::BackEdge { slot, to },
            None => CodeHint::Plain,
        },
        VerifyFault::FallsOff => CodeHint::FallsOff,
        VerifyFault::Uninit(slot, register) => CodeHint::Uninit { slot, register },
        VerifyFault::NoMemory => CodeHint::Plain,
    }
}

const UNROLL: &str =
    ": unroll the loop by `#pragma unroll`; if there is none, clang needs `-mllvm -disable-block-placement`";

const HELPERS: &str =
    "1 map_lookup_elem, 2 map_update_elem, 3 map_delete_elem, 12 tail_call, 87 map_push_elem, 88 map_pop_elem, 89 map_peek_elem";

// Writes what a slot does that it must not.
fn write_slot<W: fmt::Write>(f: &mut fmt::Formatter<W>, slot: usize, does: &str) -> fmt::Result {
    write!(f, "slot {slot} {does}")
}

// Writes which way a jump leads, to which slot, and why it must not.
fn write_jump<W: fmt::Write>(
    f: &mut fmt::Formatter<W>,
    slot: usize,
    way: &str,
    to: i64,
    why: &str,
) -> fmt::Result {
    write!(f, "the jump in slot {slot} leads {way} slot {to}{why}")
}

impl CodeHint {
    // Writes what is wrong, if that has a number beside the slot's.
    fn write_number<W: fmt::Write>(self, f: &mut fmt::Formatter<W>) -> fmt::Result {
        match self {
            CodeHint::Bytes(count) => {
                write!(
                    f,
                    "a slot has 8 bytes, and {count} bytes are no whole slots"
                )
            }
            CodeHint::Opcode { slot, opcode } => {
                write!(
                    f,
                    "slot {slot} has opcode 0x{opcode:02x}, which no instruction has"
                )
            }
            CodeHint::Field { slot, opcode } => write!(
                f,
                "a field of slot {slot} is not as the instruction of opcode 0x{opcode:02x} has it"
            ),
            CodeHint::Helper { slot, number } => {
                write!(f, "slot {slot} calls helper {number}; there are {HELPERS}")
            }
            CodeHint::NoMap { slot, id } => {
                write!(f, "slot {slot} names map {id}, and no live map has this id")
            }
            CodeHint::Uninit { slot, register } => write!(
                f,
                "slot {slot} reads {register:?}, to which nothing is written on some path to there"
            ),
            _ => f.write_str("this is no program"),
        }
    }
}

impl fmt::Display for CodeHint {
    fn fmt<W: fmt::Write>(&self, f: &mut fmt::Formatter<W>) -> fmt::Result {
        match *self {
            CodeHint::TooLong => f.write_str("a program has at most 4096 slots"),
            CodeHint::FallsOff => f.write_str("the last instruction is not EXIT"),
            CodeHint::LocalCall(slot) => write_slot(
                f,
                slot,
                "calls a function of the program: there are no local calls, so have it inlined",
            ),
            CodeHint::KernelCall(slot) => write_slot(
                f,
                slot,
                "calls a function of the kernel, and there are helpers alone",
            ),
            CodeHint::Global(slot) => write_slot(
                f,
                slot,
                "loads the address of a value: there are no global variables, so keep it in a map",
            ),
            CodeHint::HalfWide(slot) => {
                write_slot(f, slot, "begins a wide instruction, and is the last one")
            }
            CodeHint::WritesFrame(slot) => write_slot(f, slot, "writes R10, the frame pointer"),
            CodeHint::JumpOut { slot, to } => write_jump(
                f,
                slot,
                "to",
                to,
                ", outside the program",
            ),
            CodeHint::IntoWide { slot, to } => {
                write_jump(f, slot, "to", to, ", the second half of an instruction")
            }
            CodeHint::BackEdge { slot, to } => write_jump(f, slot, "back to", to, UNROLL),
            hint => hint.write_number(f),
        }
    }
}
