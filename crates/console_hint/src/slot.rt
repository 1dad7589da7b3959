//! A slot of a program's bytes, whether or not they are instructions.

ghost use Rattle.std.specs.Prelude.{◌≡◌, ◌<◌, ◌≤◌, length};
ghost use Rattle.console_hint.specs.Slots.{slot_of, slot_at};
ghost use Rattle.console_hint.specs.Targets.{target_of};

/// The fields of a slot that hints speak of (RFC 9669, section 3.1 Basic Instruction Encoding).
#[derive(Clone, Copy)]
pub struct Slot {
    pub opcode: u8,
    /// The source register, or which kind of call or constant it is.
    pub src: u8,
    pub offset: i16,
    pub immediate: i32,
}

/// A call of a helper, of a function of the program or of one of the kernel, by its source register.
pub const CALL: u8 = 0x85;

/// A jump by the immediate, in place of the offset.
pub const LONG_JUMP: u8 = 0x06;

/// A wide instruction: a constant, a map, or an address in a map's value.
pub const WIDE: u8 = 0x18;

// The slot whose bytes these begin with.
fn slot_of(bytes: &[u8]) -> Slot
    requires { 8 ≤ length bytes.now }
    ensures { result ≡ slot_of bytes.now }
{
    Slot {
        opcode: bytes[0],
        src: bytes[1] / 16,
        offset: i16::from_le_bytes([bytes[2], bytes[3]]),
        immediate: i32::from_le_bytes([bytes[4], bytes[5], bytes[6], bytes[7]]),
    }
}

/// The slot of this number, counted from 0; `None` if its eight bytes are not there, and of a number above 4095.
pub fn slot_at(program: &[u8], number: usize) -> Option<Slot>
    ensures { result ≡ slot_at program.now number }
{
    if number >= 4096 {
        return None;
    }
    let from = 8 * number;
    if program.len() < from + 8 {
        return None;
    }
    let (_, bytes) = program.split_at(from);
    Some(slot_of(bytes))
}

/// The slot to which a jump leads from the slot of this number, which may lie before the first.
pub fn target_of(slot: Slot, number: usize) -> i64
    requires { number < 4096 }
    ensures { result ≡ target_of slot number }
{
    let distance = if slot.opcode == LONG_JUMP {
        i64::from(slot.immediate)
    } else {
        i64::from(slot.offset)
    };
    number as i64 + 1 + distance
}
