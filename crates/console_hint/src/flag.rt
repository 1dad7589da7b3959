//! Flags that an update of a map of some type does not have.

ghost use Rattle.std.specs.Prelude.{◌≡◌, IfSome};
ghost use Rattle.console_hint.specs.Flags.{flag_fault, IsFlagFault};

use bt_mapkind::MapType;
use console_map_syntax::UpdateFlag;

/// What is wrong with the flag of an update.
#[derive(Clone, Copy)]
pub enum FlagFault {
    /// A queue or a stack has no keys that could be missing, and `noexist` is given.
    NoExist,
    /// Each index of an array of ids is there, and another flag than `any` is given.
    NotAny,
}

/// What is wrong with the flag of an update of a map of this type, if it does not have it.
pub fn flag_fault(kind: MapType, flag: UpdateFlag) -> Option<FlagFault>
    ensures exact { result ≡ flag_fault kind flag }
    ensures holds { IfSome result (IsFlagFault kind flag) }
{
    match (kind, flag) {
        (_, UpdateFlag::Any) => None,
        (MapType::Queue | MapType::Stack, UpdateFlag::NoExist) => Some(FlagFault::NoExist),
        (MapType::ArrayOfMaps | MapType::ProgArray, _) => Some(FlagFault::NotAny),
        _ => None,
    }
}
