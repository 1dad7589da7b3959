//! Where an instruction leads, in slots.

ghost use Rattle.std.specs.Prelude.{◌≡◌, ◌<◌};
ghost use Rattle.bt_verify.specs.Flow as flow;

use bt_insn::Insn;

/// The slot after the instruction, unless it ends or always jumps.
pub(crate) fn next_of(place: usize, insn: Insn) -> Option<usize>
    requires { place < 4096 }
    ensures { result ≡ flow.next_of place insn }
{
    match insn {
        Insn::Jump { .. } | Insn::Exit => None,
        Insn::LoadImmediate { .. } | Insn::LoadMap { .. } => Some(place + 2),
        _ => Some(place + 1),
    }
}

/// Where it may jump, be it in the program or not.
pub(crate) fn target_of(place: usize, insn: Insn) -> Option<i64>
    requires { place < 4096 }
    ensures { result ≡ flow.target_of place insn }
{
    match insn {
        Insn::Jump { distance } => Some((place + 1) as i64 + i64::from(distance.slots())),
        Insn::JumpIf { offset, .. } => Some((place + 1) as i64 + i64::from(offset)),
        _ => None,
    }
}

/// A target as a slot, if it is not before slot 0.
pub(crate) fn slot_at(target: Option<i64>) -> Option<usize>
    ensures { result ≡ flow.slot_at target }
{
    match target {
        Some(to) if to >= 0 => Some(to as usize),
        _ => None,
    }
}

/// The slot to which it may jump.
pub(crate) fn jump_of(place: usize, insn: Insn) -> Option<usize>
    requires { place < 4096 }
    ensures { result ≡ flow.jump_of place insn }
{
    slot_at(target_of(place, insn))
}
