//! One pass forward over the slots, with the set of written registers that all paths to a slot
//! have in common.

ghost use Rattle.std.specs.Prelude.{◌≡◌, ◌+◌, ◌^◌, ◌<◌, ◌≤◌, ℕ, IfErr, IfNone, IfOk, IfSome, Some, length, slice_get};
ghost use Rattle.std.specs.Int.{bit_at};
ghost use Rattle.bt_insn.specs.Register.{number_of};
ghost use Rattle.bt_verify.specs.Flow as flow;
ghost use Rattle.bt_verify.specs.Paths.{IsStart, Runs, IsUnwritten, IsFirstUnwritten};
ghost use Rattle.bt_verify.specs.Masks.{Meets, MeetsAt, Passes, IsTable, IsLowest};

use crate::flow::{jump_of, next_of};
use crate::registers::{keeps, reads, writes};
use crate::slot::Slot;
use bt_insn::{Insn, NoMemory, Register};
use std::alloc::Global;

// At the start R1 holds the context and R10 the frame pointer.
const AT_START: u16 = 0b100_0000_0010;

// Every register, and bit 15 for 'no path leads here yet'.
const NO_PATH: u16 = 0xffff;

fn meet(masks: &mut [u16], to: usize, out: u16)
    requires { to < length masks.old }
    ensures { Meets to out masks.old masks.new }
{
    masks[to] &= out;
}

fn meet_at(masks: &mut [u16], to: Option<usize>, out: u16)
    requires { IfSome to (λ k. k < length masks.old) }
    ensures { MeetsAt to out masks.old masks.new }
{
    if let Some(to) = to {
        meet(masks, to, out);
    }
}

fn pass_on(masks: &mut [u16], place: usize, insn: Insn, out: u16)
    requires place { place < 4096 }
    requires next { IfSome (flow.next_of place insn) (λ to. to < length masks.old) }
    requires jump { IfSome (flow.jump_of place insn) (λ to. to < length masks.old) }
    ensures { Passes insn place out masks.old masks.new }
{
    let next = next_of(place, insn);
    let jump = jump_of(place, insn);
    meet_at(masks, next, out);
    meet_at(masks, jump, out);
}

#[tactic(auto, using(std::proofs::lemmas::Option::gets))]
fn slot_at(slots: &[Slot], place: usize) -> Slot
    requires { place < length slots.now }
    ensures { slice_get slots.now place ≡ Some result }
{
    slots[place]
}

// The registers that the instruction in the slot reads and that some path to it leaves unwritten.
// If there is none, the masks go on to the next slot.
fn visit(slots: &[Slot], masks: &mut [u16], place: usize) -> u16
    requires runs { Runs slots.now }
    requires place { place < length slots.now }
    requires table { IsTable slots.now place masks.old }
    ensures next { result ≡ 0 → IsTable slots.now (place + 1) masks.new }
    ensures all { (r : ℕ) → r < 11 → IsUnwritten slots.now place r → bit_at result r ≡ 1 }
    ensures only { (r : ℕ) → r < 11 → bit_at result r ≡ 1 → IsUnwritten slots.now place r }
    ensures few { result < 2 ^ 11 }
{
    match slot_at(slots, place) {
        Slot::Second => 0,
        Slot::First(insn) => {
            let mask = masks[place];
            if (mask >> 15) & 1 == 1 {
                return 0;
            }
            let lacking = reads(insn) & !mask;
            if lacking == 0 {
                pass_on(masks, place, insn, (mask & keeps(insn)) | writes(insn));
            }
            lacking
        }
    }
}

// The least register of a set.
fn lowest(registers: u16) -> Option<Register>
    requires { registers < 2 ^ 11 }
    ensures found { IfSome result (λ r. IsLowest registers (number_of r)) }
    ensures none { IfNone result (registers ≡ 0) }
{
    if registers == 0 {
        return None;
    }
    Register::new(registers.trailing_zeros() as u8)
}

/// The masks before slot 0.
pub(crate) fn first_masks(alloc: Global, slots: &[Slot]) -> Result<Vec<u16>, NoMemory>
    requires { IsStart slots.now 0 }
    ensures { IfOk result (λ masks. IsTable slots.now 0 masks.items) }
{
    let mut masks = vec![in alloc; NO_PATH; slots.len()]?;
    masks[0] = AT_START;
    Ok(masks)
}

/// The first slot that reads a register which some path to it leaves unwritten, with the first such
/// register; if there is none, how many slots were visited.
pub(crate) fn first_unwritten(slots: &[Slot], masks: &mut [u16]) -> Result<usize, (usize, Register)>
    requires runs { Runs slots.now }
    requires table { IsTable slots.now 0 masks.old }
    ensures found { IfErr result (λ f. IsFirstUnwritten slots.now f.0 (number_of f.1)) }
    ensures none { IfOk result (λ _. (k r : ℕ) → ¬ IsUnwritten slots.now k r) }
    ensures once { IfOk result (λ visits. visits ≡ length slots.now) }
{
    let mut visits = 0;
    for place in 0..slots.len() {
        let lacking = visit(slots, masks, place);
        visits += 1;
        if let Some(register) = lowest(lacking) {
            return Err((place, register));
        }
    }
    Ok(visits)
}
