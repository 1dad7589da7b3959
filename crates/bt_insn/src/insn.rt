//! Instructions.

use crate::alu::{AluOp, ByteOrder, SignExtension, SwapSize};
use crate::fields::Fields;
use crate::jump::{Condition, Distance};
use crate::load_store::{AtomicOp, SignedSize, Size};
use crate::operand::{Operand, Width};
use crate::register::Register;

/// One instruction of the subset of RFC 9669 that is run here, whose sections are named below. Each
/// legal form is a value, and each value a legal form.
#[derive(Clone, Copy, Debug, PartialEq, Eq)]
pub enum Insn {
    /// `dst = dst op src`, and for `Mov` `dst = src` (section 4.1 Arithmetic Instructions).
    Alu {
        width: Width,
        op: AluOp,
        dst: Register,
        src: Operand,
    },
    /// `dst = -dst` (section 4.1).
    Neg {
        width: Width,
        dst: Register,
    },
    /// `dst = src`, with the sign extended (section 4.1, MOVSX).
    MoveSigned {
        extension: SignExtension,
        dst: Register,
        src: Register,
    },
    /// Swaps the bytes of `dst` (section 4.2 Byte Swap Instructions).
    ByteSwap {
        order: ByteOrder,
        size: SwapSize,
        dst: Register,
    },
    /// Goes to another slot (section 4.3 Jump Instructions, JA).
    Jump {
        distance: Distance,
    },
    /// Goes `offset` slots further if `dst condition src` (section 4.3).
    JumpIf {
        width: Width,
        condition: Condition,
        dst: Register,
        src: Operand,
        offset: i16,
    },
    /// Calls a helper function by its number (section 4.3.1 Helper Functions).
    Call {
        helper: i32,
    },
    /// Returns R0 (section 4.3).
    Exit,
    /// `dst = value`, in two slots (section 5.4 64-bit Immediate Instructions).
    LoadImmediate {
        dst: Register,
        value: u64,
    },
    /// `dst` becomes the map with this id, in two slots. (In section 5.4.1 Maps a file descriptor
    /// stands in its place.)
    LoadMap {
        dst: Register,
        id: u32,
    },
    /// `dst = *(src + offset)` (section 5.1 Regular Load and Store Operations).
    Load {
        size: Size,
        dst: Register,
        src: Register,
        offset: i16,
    },
    /// `dst = *(src + offset)` with the sign extended (section 5.2 Sign-Extension Load Operations).
    LoadSigned {
        size: SignedSize,
        dst: Register,
        src: Register,
        offset: i16,
    },
    /// `*(dst + offset) = src` (section 5.1).
    Store {
        size: Size,
        dst: Register,
        src: Operand,
        offset: i16,
    },
    /// `*(dst + offset) op= src`, at once (section 5.3 Atomic Operations).
    Atomic {
        width: Width,
        op: AtomicOp,
        dst: Register,
        src: Register,
        offset: i16,
    },
}

impl Insn {
    ghost use Rattle.std.specs.Prelude.{◌≡◌, IfSome, Some};
    ghost use Rattle.bt_insn.specs.declared.insn.Insn.{Insn};
    ghost use Rattle.bt_insn.specs.Table.{Spells, Fits, slots_of, fields};

    /// The instruction that these fields spell, `high` being the immediate of a second slot and 0
    /// if there is none; `None` if they are no legal form.
    pub fn new(opcode: u8, dst: u8, src: u8, offset: i16, imm: i32, high: i32) -> Option<Insn>
        ensures fits { IfSome result Fits }
        ensures found { IfSome result (λ v. Spells v (fields opcode dst src offset imm) high) }
        ensures only { (v : Insn) → Fits v → Spells v (fields opcode dst src offset imm) high → result ≡ Some v }
    {
        let fields = Fields {
            opcode,
            dst,
            src,
            offset,
            immediate: imm,
        };
        fields.insn(high)
    }

    /// How many slots of eight bytes it takes: 2 for an immediate of 64 bits and a map, else 1.
    #[inline]
    pub fn slots(self) -> usize
        ensures { result ≡ slots_of self }
    {
        match self {
            Insn::LoadImmediate { .. } | Insn::LoadMap { .. } => 2,
            _ => 1,
        }
    }
}
