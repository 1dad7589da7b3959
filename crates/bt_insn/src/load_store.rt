//! Loads, stores and atomic operations.

ghost use Rattle.std.specs.Prelude.{◌≡◌, ◌<◌, IfSome};
ghost use Rattle.bt_insn.specs.LoadStore.{size_code, size_of, size_bytes, signed_code, signed_of, atomic_immediate, atomic_op_of, atomic_size, atomic_width_of};

use crate::operand::Width;

/// How many bytes a load or a store moves (RFC 9669, section 5 Load and Store Instructions).
#[derive(Clone, Copy, Debug, PartialEq, Eq)]
pub enum Size {
    /// 1 byte.
    Byte,
    /// 2 bytes.
    Half,
    /// 4 bytes.
    Word,
    /// 8 bytes.
    DoubleWord,
}

impl Size {
    #[tactic(auto, unfolding(crate::specs::LoadStore::size_of))]
    pub(crate) fn of(code: u8) -> Option<Size>
        ensures value { result ≡ size_of code }
        ensures found { IfSome result (λ s. size_code s ≡ code) }
    {
        match code {
            0 => Some(Size::Word),
            1 => Some(Size::Half),
            2 => Some(Size::Byte),
            3 => Some(Size::DoubleWord),
            _ => None,
        }
    }

    pub(crate) fn code(self) -> u8
        ensures value { result ≡ size_code self }
        ensures within { result < 4 }
    {
        match self {
            Size::Word => 0,
            Size::Half => 1,
            Size::Byte => 2,
            Size::DoubleWord => 3,
        }
    }

    /// How many bytes.
    #[inline]
    pub fn bytes(self) -> usize
        ensures { result ≡ size_bytes self }
    {
        match self {
            Size::Byte => 1,
            Size::Half => 2,
            Size::Word => 4,
            Size::DoubleWord => 8,
        }
    }
}

/// How many bytes a load that extends the sign reads (RFC 9669, section 5.2 Sign-Extension Load
/// Operations).
#[derive(Clone, Copy, Debug, PartialEq, Eq)]
pub enum SignedSize {
    /// 1 byte.
    Byte,
    /// 2 bytes.
    Half,
    /// 4 bytes.
    Word,
}

impl SignedSize {
    #[tactic(auto, unfolding(crate::specs::LoadStore::signed_of))]
    pub(crate) fn of(code: u8) -> Option<SignedSize>
        ensures value { result ≡ signed_of code }
        ensures found { IfSome result (λ s. signed_code s ≡ code) }
    {
        match code {
            0 => Some(SignedSize::Word),
            1 => Some(SignedSize::Half),
            2 => Some(SignedSize::Byte),
            _ => None,
        }
    }

    pub(crate) fn code(self) -> u8
        ensures value { result ≡ signed_code self }
        ensures within { result < 4 }
    {
        match self {
            SignedSize::Word => 0,
            SignedSize::Half => 1,
            SignedSize::Byte => 2,
        }
    }
}

/// An atomic operation on memory (RFC 9669, section 5.3 Atomic Operations). One that fetches puts
/// the old value into the source register; `CompareExchange` compares with R0 and puts the old
/// value there.
#[derive(Clone, Copy, Debug, PartialEq, Eq)]
pub enum AtomicOp {
    Add,
    Or,
    And,
    Xor,
    FetchAdd,
    FetchOr,
    FetchAnd,
    FetchXor,
    Exchange,
    CompareExchange,
}

impl AtomicOp {
    #[tactic(auto, unfolding(crate::specs::LoadStore::atomic_op_of))]
    pub(crate) fn of(immediate: i32) -> Option<AtomicOp>
        ensures value { result ≡ atomic_op_of immediate }
        ensures found { IfSome result (λ op. atomic_immediate op ≡ immediate) }
    {
        match immediate {
            0x00 => Some(AtomicOp::Add),
            0x40 => Some(AtomicOp::Or),
            0x50 => Some(AtomicOp::And),
            0xa0 => Some(AtomicOp::Xor),
            0x01 => Some(AtomicOp::FetchAdd),
            0x41 => Some(AtomicOp::FetchOr),
            0x51 => Some(AtomicOp::FetchAnd),
            0xa1 => Some(AtomicOp::FetchXor),
            0xe1 => Some(AtomicOp::Exchange),
            0xf1 => Some(AtomicOp::CompareExchange),
            _ => None,
        }
    }

    pub(crate) fn immediate(self) -> i32
        ensures { result ≡ atomic_immediate self }
    {
        match self {
            AtomicOp::Add => 0x00,
            AtomicOp::Or => 0x40,
            AtomicOp::And => 0x50,
            AtomicOp::Xor => 0xa0,
            AtomicOp::FetchAdd => 0x01,
            AtomicOp::FetchOr => 0x41,
            AtomicOp::FetchAnd => 0x51,
            AtomicOp::FetchXor => 0xa1,
            AtomicOp::Exchange => 0xe1,
            AtomicOp::CompareExchange => 0xf1,
        }
    }
}

impl Width {
    /// The width of an atomic operation with this size: 4 or 8 bytes alone.
    #[tactic(auto, unfolding(crate::specs::LoadStore::atomic_width_of))]
    pub(crate) fn of_size(code: u8) -> Option<Width>
        ensures value { result ≡ atomic_width_of code }
        ensures found { IfSome result (λ w. atomic_size w ≡ code) }
    {
        match code {
            0 => Some(Width::Word),
            3 => Some(Width::DoubleWord),
            _ => None,
        }
    }

    pub(crate) fn size(self) -> u8
        ensures value { result ≡ atomic_size self }
        ensures within { result < 4 }
    {
        match self {
            Width::Word => 0,
            Width::DoubleWord => 3,
        }
    }
}
