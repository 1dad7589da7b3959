//! Read-modify-write operations on a part of a value.

ghost use Rattle.std.specs.Prelude.{◌≡◌, ◌^◌, ◌%◌, length};
ghost use Rattle.bt_mapkind.specs.Atomic.{size_in_bytes, modulus, combined, fetches, bytes_after};

/// What an atomic instruction does with the bytes it names (RFC 9669, "Atomic operations"). `fetch` asks for the bytes
/// that stood there; an exchange and a compare-and-exchange always give them.
#[derive(Clone, Copy, PartialEq, Eq, Debug)]
pub enum AtomicOp {
    Add { fetch: bool },
    Or { fetch: bool },
    And { fetch: bool },
    Xor { fetch: bool },
    Exchange,
    /// Stores the operand only if the bytes are `expected`.
    CompareExchange { expected: u64 },
}

/// How many bytes an atomic instruction names: 4 or 8.
#[derive(Clone, Copy, PartialEq, Eq, Debug)]
pub enum AtomicSize {
    Word,
    DoubleWord,
}

impl AtomicSize {
    /// How many bytes that is.
    pub fn in_bytes(self) -> usize
        ensures { result ≡ size_in_bytes self }
    {
        match self {
            AtomicSize::Word => 4,
            AtomicSize::DoubleWord => 8,
        }
    }
}

impl AtomicOp {
    /// Whether the instruction gives the bytes that stood there.
    pub fn fetches(self) -> bool
        ensures { result ≡ fetches self }
    {
        match self {
            AtomicOp::Add { fetch }
            | AtomicOp::Or { fetch }
            | AtomicOp::And { fetch }
            | AtomicOp::Xor { fetch } => fetch,
            AtomicOp::Exchange | AtomicOp::CompareExchange { expected: _ } => true,
        }
    }

    /// What becomes of eight bytes, seen as the number `old`.
    pub fn combined(self, old: u64, operand: u64) -> u64
        ensures { result ≡ combined self (modulus AtomicSize.DoubleWord) old (operand % modulus AtomicSize.DoubleWord) }
    {
        match self {
            AtomicOp::Add { fetch: _ } => old.wrapping_add(operand),
            AtomicOp::Or { fetch: _ } => old | operand,
            AtomicOp::And { fetch: _ } => old & operand,
            AtomicOp::Xor { fetch: _ } => old ^ operand,
            AtomicOp::Exchange => operand,
            AtomicOp::CompareExchange { expected } => {
                if old == expected { operand } else { old }
            }
        }
    }

    /// What becomes of four bytes, seen as the number `old`. Of the operand, and of what is expected, the low half counts.
    pub fn combined_word(self, old: u32, operand: u64) -> u32
        ensures { result ≡ combined self (modulus AtomicSize.Word) old (operand % modulus AtomicSize.Word) }
    {
        let operand = low_half(operand);
        match self {
            AtomicOp::Add { fetch: _ } => old.wrapping_add(operand),
            AtomicOp::Or { fetch: _ } => old | operand,
            AtomicOp::And { fetch: _ } => old & operand,
            AtomicOp::Xor { fetch: _ } => old ^ operand,
            AtomicOp::Exchange => operand,
            AtomicOp::CompareExchange { expected } => {
                if old == low_half(expected) {
                    operand
                } else {
                    old
                }
            }
        }
    }

    /// Does the instruction on the 4 or 8 bytes that it names, the lowest first.
    #[tactic(auto, unfolding(crate::specs::Atomic::number_of, crate::specs::Atomic::bytes_of))]
    pub fn apply(self, size: AtomicSize, operand: u64, bytes: &mut [u8])
        requires { length bytes.old ≡ size_in_bytes size }
        ensures { bytes.new ≡ bytes_after self size operand bytes.old }
    {
        match size {
            AtomicSize::Word => {
                let old = u32::from_le_bytes([bytes[0], bytes[1], bytes[2], bytes[3]]);
                bytes.copy_from_slice(&self.combined_word(old, operand).to_le_bytes());
            }
            AtomicSize::DoubleWord => {
                let old = u64::from_le_bytes([
                    bytes[0], bytes[1], bytes[2], bytes[3], bytes[4], bytes[5], bytes[6], bytes[7],
                ]);
                bytes.copy_from_slice(&self.combined(old, operand).to_le_bytes());
            }
        }
    }
}

// The low 32 bits.
fn low_half(n: u64) -> u32
    ensures { result ≡ n % 2 ^ 32 }
{
    (n & 0xffff_ffff) as u32
}
