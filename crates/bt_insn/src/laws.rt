//! What the definitions of the grammar imply.

ghost use Rattle.std.specs.Prelude.{◌≡◌, ◌≢◌, ℕ, List};
ghost use Rattle.bt_insn.specs.declared.fault.DecodeFault.{DecodeFault};
ghost use Rattle.bt_insn.specs.declared.fault.DecodeFault.TheVariants.{NoMemory};
ghost use Rattle.bt_insn.specs.declared.insn.Insn.{Insn};
ghost use Rattle.bt_insn.specs.Grammar.{ReadsAs, IsFault};

/// Bytes spell one list of instructions at most, so no two spell alike.
pub fn one_reading()
    ensures { (bytes : List ℕ) (a b : List Insn) → ReadsAs bytes a → ReadsAs bytes b → a ≡ b }
{}

/// Bytes that spell instructions have no fault.
pub fn no_fault()
    ensures { (bytes : List ℕ) (insns : List Insn) (fault : DecodeFault) → ReadsAs bytes insns → IsFault bytes fault
        → fault ≡ NoMemory }
{}

/// Bytes have one first fault at most.
pub fn one_fault()
    ensures { (bytes : List ℕ) (a b : DecodeFault) → a ≢ NoMemory → b ≢ NoMemory → IsFault bytes a → IsFault bytes b
        → a ≡ b }
{}
