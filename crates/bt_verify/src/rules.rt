//! The rules that each instruction keeps by itself.

ghost use Rattle.std.specs.Prelude.{◌≡◌, ◌<◌, ◌≤◌, length, slice_get, IfSome, IfNone, Some, List, ℕ};
ghost use Rattle.bt_verify.specs.Maps.{AreDistinct};
ghost use Rattle.bt_verify.specs.Rules as rules;
ghost use Rattle.bt_verify.specs.Rules.{FaultAt, KeepsRules, KeepRules, IsFirstFault};

use crate::fault::VerifyFault;
use crate::flow::{slot_at, target_of};
use crate::helper::Helper;
use crate::lookup::find_map;
use crate::registers::writes;
use crate::slot::Slot;
use bt_insn::Insn;
use bt_mapkind::MapAttr;

fn frame_fault(place: usize, insn: Insn) -> Option<VerifyFault>
    ensures { result ≡ rules.frame_fault place insn }
{
    if (writes(insn) >> 10) & 1 == 1 {
        Some(VerifyFault::WritesFrame(place))
    } else {
        None
    }
}

fn helper_fault(place: usize, insn: Insn) -> Option<VerifyFault>
    ensures { result ≡ rules.helper_fault place insn }
{
    match insn {
        Insn::Call { helper } if Helper::new(helper).is_none() => {
            Some(VerifyFault::NoHelper(place))
        }
        _ => None,
    }
}

fn map_fault(maps: &[(u32, MapAttr)], place: usize, insn: Insn) -> Option<VerifyFault>
    requires { AreDistinct maps.now }
    ensures { result ≡ rules.map_fault maps.now place insn }
{
    match insn {
        Insn::LoadMap { id, .. } if find_map(maps, id).is_none() => Some(VerifyFault::NoMap(
            place, id,
        )),
        _ => None,
    }
}

fn landing_fault(place: usize, to: usize, landing: Option<Slot>) -> Option<VerifyFault>
    ensures { result ≡ rules.landing_fault place to landing }
{
    match landing {
        None => Some(VerifyFault::JumpOut(place)),
        Some(Slot::Second) => Some(VerifyFault::IntoWide(place)),
        Some(Slot::First(_)) if place < to => None,
        Some(Slot::First(_)) => Some(VerifyFault::BackEdge(place)),
    }
}

fn arrival_fault(slots: &[Slot], place: usize, to: Option<usize>) -> Option<VerifyFault>
    ensures { result ≡ rules.arrival_fault slots.now place to }
{
    match to {
        None => Some(VerifyFault::JumpOut(place)),
        Some(to) => landing_fault(place, to, slots.get(to).copied()),
    }
}

fn jump_fault(slots: &[Slot], place: usize, target: Option<i64>) -> Option<VerifyFault>
    ensures { result ≡ rules.jump_fault slots.now place target }
{
    match target {
        None => None,
        Some(_) => arrival_fault(slots, place, slot_at(target)),
    }
}

/// The first rule that the instruction in this slot breaks.
#[tactic(auto, unfolding(crate::specs::Rules::insn_fault))]
fn insn_fault(
    maps: &[(u32, MapAttr)],
    slots: &[Slot],
    place: usize,
    insn: Insn,
) -> Option<VerifyFault>
    requires place { place < 4096 }
    requires distinct { AreDistinct maps.now }
    ensures { result ≡ rules.insn_fault maps.now slots.now place insn }
{
    frame_fault(place, insn).or(helper_fault(place, insn).or(map_fault(maps, place, insn).or(
        jump_fault(slots, place, target_of(place, insn)),
    )))
}

#[tactic(auto, using(std::proofs::lemmas::Option::gets))]
fn slot_fault(maps: &[(u32, MapAttr)], slots: &[Slot], place: usize) -> Option<VerifyFault>
    requires within { place < length slots.now }
    requires short { length slots.now ≤ 4096 }
    requires distinct { AreDistinct maps.now }
    ensures fault { IfSome result (λ f. FaultAt maps.now slots.now place f) }
    ensures none { IfNone result (KeepsRules maps.now slots.now place) }
{
    match slots[place] {
        Slot::First(insn) => insn_fault(maps, slots, place, insn),
        Slot::Second => None,
    }
}

/// The first rule that an instruction breaks.
pub(crate) fn first_fault(maps: &[(u32, MapAttr)], slots: &[Slot]) -> Option<VerifyFault>
    requires short { length slots.now ≤ 4096 }
    requires distinct { AreDistinct maps.now }
    ensures fault { IfSome result (λ f. IsFirstFault maps.now slots.now f) }
    ensures none { IfNone result (KeepRules maps.now slots.now) }
{
    for place in 0..slots.len() {
        if let Some(fault) = slot_fault(maps, slots, place) {
            return Some(fault);
        }
    }
    None
}
