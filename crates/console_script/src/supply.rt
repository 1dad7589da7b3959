//! Boxes that are made when the console asks for them.

ghost use Rattle.std.specs.Prelude.{◌≡◌, ◌≢◌, true, IfOk, IfErr, Ok};
ghost use Rattle.bt_mapkind.specs.Attributes.{good};
ghost use Rattle.console_script.specs.Made.{new_map, IsMade};

use crate::kind::HostKind;
use bt_array::ArrayKind;
use bt_console::{NoBox, Supply};
use bt_hash::HashKind;
use bt_lpm::LpmKind;
use bt_mapkind::{MapAttr, MapKind, MapType, NewFault};
use bt_nested::{HashOuterKind, OuterKind, ProgArrayKind};
use bt_queue::{QueueKind, StackKind};
use std::alloc::Global;

/// Makes a map of this project's kind for its type each time it is asked. It has none only for lack of memory or of budget.
#[derive(Clone, Copy, Debug)]
pub struct HostSupply {
    alloc: Global,
}

impl HostSupply {
    /// A supplier of maps on this allocator.
    pub fn new(alloc: Global) -> HostSupply {
        HostSupply { alloc }
    }
}

// The box of a map that was made of good attributes.
fn boxed<K: MapKind>(alloc: Global, made: Result<K, NewFault>) -> Result<Box<K>, NoBox>
    requires { made ≢ Err NewFault.BadAttr }
    ensures made { IfOk result (λ kind. made ≡ Ok kind.value) }
    ensures none { IfErr result (λ why. why ≡ NoBox.NoMemory) }
{
    match made {
        Ok(kind) => match Box::new(alloc, kind) {
            Ok(kind) => Ok(kind),
            Err(_) => Err(NoBox::NoMemory),
        },
        Err(NewFault::NoMemory) => Err(NoBox::NoMemory),
        Err(NewFault::BadAttr) => unreachable!(),
    }
}

// A new map of the kind that serves its type.
fn new_map(alloc: Global, attr: MapAttr) -> Result<HostKind, NoBox>
    requires { good attr ≡ true }
    ensures made { IfOk result (λ kind. ⟦<HostKind as MapKind>⟧.seen kind ≡ new_map attr) }
    ensures none { IfErr result (λ why. why ≡ NoBox.NoMemory) }
{
    match attr.kind {
        MapType::Array => Ok(HostKind::Array(boxed(alloc, ArrayKind::new(alloc, attr))?)),
        MapType::Hash => Ok(HostKind::Hash(boxed(alloc, HashKind::new(alloc, attr))?)),
        MapType::LpmTrie => Ok(HostKind::LpmTrie(boxed(alloc, LpmKind::new(alloc, attr))?)),
        MapType::Queue => Ok(HostKind::Queue(boxed(alloc, QueueKind::new(alloc, attr))?)),
        MapType::Stack => Ok(HostKind::Stack(boxed(alloc, StackKind::new(alloc, attr))?)),
        MapType::ArrayOfMaps => {
            Ok(HostKind::ArrayOfMaps(boxed(alloc, OuterKind::new(alloc, attr))?))
        }
        MapType::ProgArray => {
            Ok(HostKind::ProgArray(boxed(alloc, ProgArrayKind::new(alloc, attr))?))
        }
        MapType::HashOfMaps => {
            Ok(HostKind::HashOfMaps(boxed(alloc, HashOuterKind::new(alloc, attr))?))
        }
    }
}

impl Supply<HostKind> for HostSupply {
    ghost gives = { λ from attr told to. IsMade ⟦<HostKind as MapKind>⟧.seen attr told };

    fn supply(&mut self, attr: MapAttr, room: u64) -> Result<HostKind, NoBox> {
        let charge = attr.charge();
        if room < charge {
            return Err(NoBox::TooLarge(charge));
        }
        new_map(self.alloc, attr)
    }
}
