//! A slot of eight bytes as its fields.

ghost use Rattle.std.specs.Prelude.{◌≡◌, ◌<◌, ◌≤◌, ◌↔◌, length, take, IsTrue};
ghost use Rattle.bt_insn.specs.Opcode.{class_part, code_part, source_part, mode_part, size_part};
ghost use Rattle.bt_insn.specs.Spelling.{second_fields};
ghost use Rattle.bt_insn.specs.Slot.{slot_bytes, FitsSlot};

/// How many bytes a slot has.
pub const SLOT_BYTES: usize = 8;

/// The fields of a slot, whatever they mean (RFC 9669, section 3.1 Basic Instruction Encoding).
#[derive(Clone, Copy, Debug, PartialEq, Eq)]
pub struct Fields {
    /// The class, with a code and a source bit or a mode and a size.
    pub opcode: u8,
    /// The destination register, the low half of the byte of registers.
    pub dst: u8,
    /// The source register, the high half.
    pub src: u8,
    /// A distance in bytes or slots, or more of the operation.
    pub offset: i16,
    /// A constant, or more of the operation.
    pub immediate: i32,
}

impl Fields {
    /// The fields that the first eight bytes spell.
    pub(crate) fn read(bytes: &[u8]) -> Fields
        requires { 8 ≤ length bytes.now }
        ensures spelled { take 8 bytes.now ≡ slot_bytes result }
        ensures fits { FitsSlot result }
    {
        Fields {
            opcode: bytes[0],
            dst: bytes[1] % 16,
            src: bytes[1] / 16,
            offset: i16::from_le_bytes([bytes[2], bytes[3]]),
            immediate: i32::from_le_bytes([bytes[4], bytes[5], bytes[6], bytes[7]]),
        }
    }

    /// The bytes that spell the fields.
    pub(crate) fn bytes(self) -> [u8; SLOT_BYTES]
        requires dst { self.dst < 16 }
        requires src { self.src < 16 }
        ensures { result ≡ slot_bytes self }
    {
        let [a, b] = self.offset.to_le_bytes();
        let [c, d, e, f] = self.immediate.to_le_bytes();
        [self.opcode, 16 * self.src + self.dst, a, b, c, d, e, f]
    }

    /// The fields of the second slot of a wide instruction: nothing but an immediate.
    pub(crate) fn second(immediate: i32) -> Fields
        ensures { result ≡ second_fields immediate }
    {
        Fields {
            opcode: 0,
            dst: 0,
            src: 0,
            offset: 0,
            immediate,
        }
    }

    /// Whether there is nothing but an immediate, as in the second slot of a wide instruction.
    pub(crate) fn is_second(self) -> bool
        ensures { IsTrue result ↔ (self ≡ second_fields self.immediate) }
    {
        self.opcode == 0 && self.dst == 0 && self.src == 0 && self.offset == 0
    }

    /// The class of the instruction.
    pub(crate) fn class(self) -> u8
        ensures { result ≡ class_part self.opcode }
    {
        self.opcode & 0x07
    }

    /// The code of an arithmetic or jump instruction.
    pub(crate) fn code(self) -> u8
        ensures { result ≡ code_part self.opcode }
    {
        self.opcode >> 4
    }

    /// Its source bit.
    pub(crate) fn source(self) -> u8
        ensures { result ≡ source_part self.opcode }
    {
        (self.opcode >> 3) & 0x01
    }

    /// The mode of a load or store instruction.
    pub(crate) fn mode(self) -> u8
        ensures { result ≡ mode_part self.opcode }
    {
        self.opcode >> 5
    }

    /// Its size.
    pub(crate) fn size(self) -> u8
        ensures { result ≡ size_part self.opcode }
    {
        (self.opcode >> 3) & 0x03
    }
}
