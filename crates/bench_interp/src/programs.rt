//! The programs that are measured, by the bytes of their slots: the opcode, the registers, two bytes of an offset and four
//! of an immediate, the lowest byte first.

use bt_insn::{Insn, decode};
use bt_mapkind::{MapAttr, MapType};
use bt_verify::{MapList, Program, verify};
use std::alloc::Global;
use std::sync::Arc;

/// Adds 1 to the value under key 0 of map 1, and passes the frame.
pub const COUNTS: &[u64] = &[
    0x620afcff_00000000,
    0xbfa20000_00000000,
    0x07020000_fcffffff,
    0x18110000_01000000,
    0,
    0x85000000_01000000,
    0x15000200_00000000,
    0xb7010000_01000000,
    0xdb100000_00000000,
    0xb7000000_02000000,
    0x95000000_00000000,
];

/// Passes the frame.
pub const PASSES: &[u64] = &[0xb7000000_02000000, 0x95000000_00000000];

/// Numbers in R0, R2, R3 and R4.
const BEGIN: &[u64] = &[
    0xb7000000_07000000,
    0xb7020000_05000000,
    0xb7030000_09000000,
    0xb7040000_0b000000,
];

/// Arithmetic of both widths, on registers and on immediates.
pub const ARITHMETIC: &[u64] = &[
    0x07000000_07000000,
    0xaf020000_00000000,
    0x67020000_03000000,
    0x1c230000_00000000,
    0xbf340000_00000000,
    0x57040000_ff000000,
    0x4f400000_00000000,
    0x77020000_05000000,
    0x27030000_03000000,
    0x0c300000_00000000,
    0xc7020000_01000000,
    0xb4040000_0d000000,
    0x1f200000_00000000,
    0xa4030000_11000000,
    0x0f420000_00000000,
    0xb7040000_13000000,
];

/// Stores on the stack and loads from it, of 8, 4, 1 and 2 bytes.
pub const STACK: &[u64] = &[
    0x7b0af8ff_00000000,
    0x79a2f8ff_00000000,
    0x620af0ff_17000000,
    0x61a3f0ff_00000000,
    0x733aecff_00000000,
    0x71a0ecff_00000000,
    0x6b2ae8ff_00000000,
    0x69a4e8ff_00000000,
];

/// The low two bits of R0 are the action.
const END: &[u64] = &[0x57000000_03000000, 0x95000000_00000000];

/// A program of so many slots, of which those between its begin and its end are a pattern again and again.
pub fn repeated(alloc: Global, pattern: &[u64], slots: usize) -> anyhow::Result<Vec<u64>> {
    let mut whole = Vec::with_capacity(alloc, slots)?;
    whole.extend_from_slice(BEGIN)?;
    for slot in pattern.iter().cycle().take(slots.saturating_sub(6)) {
        whole.push(*slot)?;
    }
    whole.extend_from_slice(END)?;
    Ok(whole)
}

fn decoded(alloc: Global, slots: &[u64]) -> anyhow::Result<Vec<Insn>> {
    let mut bytes = Vec::new(alloc);
    for slot in slots {
        bytes.extend_from_slice(&slot.to_be_bytes())?;
    }
    Ok(decode(alloc, &bytes)?)
}

/// The program of these slots, which may name map 1, an array of numbers of eight bytes.
///
/// # Errors
/// Why the bytes spell no instructions, or the first fault of the program.
pub fn program(alloc: Global, slots: &[u64]) -> anyhow::Result<Program> {
    let array = MapAttr {
        kind: MapType::Array,
        key_size: 4,
        value_size: 8,
        max_entries: 1,
        flags: 0,
    };
    let mut maps = Vec::new(alloc);
    maps.push((1, array))?;
    let code = verify(alloc, decoded(alloc, slots)?, &MapList::new(maps))?;
    Ok(Program {
        id: 1,
        code: Arc::new(alloc, code)?,
    })
}
