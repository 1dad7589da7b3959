//! Instructions by their slots of eight bytes.

/// EXIT.
pub const EXIT: [u8; 8] = [0x95, 0, 0, 0, 0, 0, 0, 0];

/// The slot of these fields; of the registers, the destination stands in the low half of the byte.
pub fn slot(opcode: u8, registers: u8, offset: i16, immediate: i32) -> [u8; 8] {
    let o = offset.to_le_bytes();
    let i = immediate.to_le_bytes();
    [opcode, registers, o[0], o[1], i[0], i[1], i[2], i[3]]
}

/// The two slots that put a number into a register.
pub fn wide(register: u8, number: u64) -> [[u8; 8]; 2] {
    let n = number.to_le_bytes();
    [
        [0x18, register, 0, 0, n[0], n[1], n[2], n[3]],
        [0, 0, 0, 0, n[4], n[5], n[6], n[7]],
    ]
}
