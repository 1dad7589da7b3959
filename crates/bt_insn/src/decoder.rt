//! Instructions read from bytes.

ghost use Rattle.std.specs.Prelude.{◌≡◌, ◌+◌, ◌*◌, ◌/◌, ◌%◌, ◌<◌, ◌≤◌, ◌↔◌, ℕ, List, ◌++◌, length, drop, IfSome, OnSome, Some, IfOk, IfErr, IsTrue, MatchResult};
ghost use Rattle.std.specs.Vec.{vec_capacity};
ghost use Rattle.bt_insn.specs.declared.fault.DecodeFault.TheVariants.{NoMemory};
ghost use Rattle.bt_insn.specs.declared.insn.Insn.{Insn};
ghost use Rattle.bt_insn.specs.Table.{Spells, Fits, fields_of, high_of, slots_of};
ghost use Rattle.bt_insn.specs.Spelling.{spelling_of, second_fields};
ghost use Rattle.bt_insn.specs.Grammar.{ReadsAs, IsFault, FaultAt, StopsWith, IsOpcode};

use crate::fault::DecodeFault;
use crate::fields::{Fields, SLOT_BYTES};
use crate::insn::Insn;
use std::alloc::Global;

/// How many slots a program has at most.
pub const MAX_SLOTS: usize = 4096;

/// Whether some legal form has this opcode. Such a one has a form whose other fields are 0, or, if
/// it swaps bytes, the one whose immediate is 16.
fn is_opcode(opcode: u8) -> bool
    ensures { IsTrue result ↔ IsOpcode opcode }
{
    Insn::new(opcode, 0, 0, 0, 0, 0).is_some() || Insn::new(opcode, 0, 0, 0, 16, 0).is_some()
}

/// The wide instruction whose slots these are.
fn wide_insn(first: Fields, second: Fields) -> Option<Insn>
    ensures fits { IfSome result Fits }
    ensures found { IfSome result (λ v. Spells v first second.immediate) }
    ensures second { OnSome result (second ≡ second_fields second.immediate) }
    ensures only { (v : Insn) → Fits v → fields_of v ≡ first → second_fields (high_of v) ≡ second
        → result ≡ Some v }
{
    if second.is_second() {
        first.insn(second.immediate)
    } else {
        None
    }
}

/// The instruction at the front of the bytes, which lie at this slot.
fn first_insn(bytes: &[u8], slot: usize) -> Result<Insn, DecodeFault>
    requires some { 0 < length bytes.now }
    requires whole { length bytes.now % 8 ≡ 0 }
    ensures fits { IfOk result Fits }
    ensures found { IfOk result (λ v. bytes.now ≡ spelling_of v ++ drop (8 * slots_of v) bytes.now) }
    ensures fault { IfErr result (FaultAt bytes.now slot) }
{
    let first = Fields::read(bytes);
    // A first slot is as it has to be if it spells an instruction with a second immediate of 0.
    let Some(insn) = first.insn(0) else {
        if is_opcode(first.opcode) {
            return Err(DecodeFault::BadField(slot));
        }
        return Err(DecodeFault::BadOpcode(slot));
    };
    if insn.slots() == 1 {
        return Ok(insn);
    }
    if bytes.len() == SLOT_BYTES {
        return Err(DecodeFault::HalfWide(slot));
    }
    let (_, behind) = bytes.split_at(SLOT_BYTES);
    match wide_insn(first, Fields::read(behind)) {
        Some(insn) => Ok(insn),
        None => Err(DecodeFault::BadField(slot)),
    }
}

/// The instructions that all of the bytes spell, with room for one a slot from the start.
fn read_slots(alloc: Global, bytes: &[u8]) -> Result<Vec<Insn>, DecodeFault>
    requires whole { length bytes.now % 8 ≡ 0 }
    requires few { length bytes.now ≤ 8 * 4096 }
    ensures found { IfOk result (λ v. ReadsAs bytes.now v.items) }
    ensures room { IfOk result (λ v. vec_capacity v ≡ length bytes.now / 8) }
    ensures fault { IfErr result (IsFault bytes.now) }
{
    let mut insns = Vec::with_capacity(alloc, bytes.len() / SLOT_BYTES)?;
    let mut rest = bytes;
    let mut slot = 0;
    while !rest.is_empty() {
        let insn = first_insn(rest, slot)?;
        let (_, behind) = rest.split_at(SLOT_BYTES * insn.slots());
        insns.push_reserved(insn);
        rest = behind;
        slot += insn.slots();
    }
    Ok(insns)
}

/// The instructions that the bytes spell; there is one list at most. An error is the first fault:
/// `BadLength`, else `TooLong`, else, slot by slot, `BadOpcode`, a first slot's `BadField`,
/// `HalfWide`, a second slot's `BadField`. It is `NoMemory` only if there was no memory for the
/// result.
pub fn decode(alloc: Global, bytes: &[u8]) -> Result<Vec<Insn>, DecodeFault>
    ensures found { IfOk result (λ v. ReadsAs bytes.now v.items) }
    ensures only { (insns : List Insn) → ReadsAs bytes.now insns
        → MatchResult result (λ v. v.items ≡ insns) (λ e. e ≡ NoMemory) }
    ensures room { IfOk result (λ v. vec_capacity v ≡ length bytes.now / 8) }
    ensures fault { IfErr result (IsFault bytes.now) }
{
    if bytes.len() % SLOT_BYTES != 0 {
        return Err(DecodeFault::BadLength);
    }
    if bytes.len() / SLOT_BYTES > MAX_SLOTS {
        return Err(DecodeFault::TooLong);
    }
    read_slots(alloc, bytes)
}
