//! Instructions written as bytes.

ghost use Rattle.std.specs.Prelude.{◌≡◌, ◌++◌, ◌≤◌, IfOk, OnOk};
ghost use Rattle.bt_insn.specs.Spelling.{spelling_of, spelling, slots_in};
ghost use Rattle.bt_insn.specs.Table.{Fits};
ghost use Rattle.bt_insn.specs.Grammar.{ReadsAs};

use crate::NoMemory;
use crate::fields::SLOT_BYTES;
use crate::insn::Insn;
use std::alloc::Global;

/// Writes an instruction at the end.
#[tactic(auto, unfolding(crate::specs::Spelling::spelling_of))]
fn push_insn(bytes: &mut Vec<u8>, insn: Insn) -> Result<(), NoMemory>
    ensures ok { OnOk result (bytes.new.items ≡ bytes.old.items ++ spelling_of insn) }
    ensures fits { Fits insn }
{
    bytes.extend_from_slice(&insn.first_slot())?;
    if let Some(second) = insn.second_slot() {
        bytes.extend_from_slice(&second)?;
    }
    Ok(())
}

/// The bytes of the instructions, one after the other: their one spelling. Up to 4,096 slots,
/// `decode` reads them as these instructions again.
pub fn encode(alloc: Global, insns: &[Insn]) -> Result<Vec<u8>, NoMemory>
    ensures spelled { IfOk result (λ v. v.items ≡ spelling insns.now) }
    ensures again { IfOk result (λ v. slots_in insns.now ≤ 4096 → ReadsAs v.items insns.now) }
{
    let mut bytes = Vec::with_capacity(alloc, SLOT_BYTES * insns.len())?;
    for insn in insns {
        push_insn(&mut bytes, *insn)?;
    }
    Ok(bytes)
}
