//! Registers.

ghost use Rattle.std.specs.Prelude.{◌≡◌, ◌<◌, ◌↔◌, IfSome, IsSome};
ghost use Rattle.bt_insn.specs.Register.{number_of, register_of};

/// One of the eleven registers, R0 to R10.
#[derive(Clone, Copy, Debug, PartialEq, Eq)]
pub enum Register {
    R0,
    R1,
    R2,
    R3,
    R4,
    R5,
    R6,
    R7,
    R8,
    R9,
    R10,
}

impl Register {
    /// The register with this number; `None` above 10.
    #[tactic(auto, unfolding(crate::specs::Register::register_of))]
    pub fn new(number: u8) -> Option<Register>
        ensures value { result ≡ register_of number }
        ensures found { IfSome result (λ r. number_of r ≡ number) }
        ensures legal { IsSome result ↔ (number < 11) }
    {
        match number {
            0 => Some(Register::R0),
            1 => Some(Register::R1),
            2 => Some(Register::R2),
            3 => Some(Register::R3),
            4 => Some(Register::R4),
            5 => Some(Register::R5),
            6 => Some(Register::R6),
            7 => Some(Register::R7),
            8 => Some(Register::R8),
            9 => Some(Register::R9),
            10 => Some(Register::R10),
            _ => None,
        }
    }

    /// Its number, which is its index in an array of eleven.
    #[inline(always)]
    pub fn index(self) -> usize
        ensures value { result ≡ number_of self }
        ensures within { result < 11 }
    {
        self as usize
    }

    /// Its number, as an instruction spells it.
    pub(crate) fn number(self) -> u8
        ensures value { result ≡ number_of self }
        ensures within { result < 11 }
    {
        self as u8
    }
}
