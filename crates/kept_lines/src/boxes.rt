//! The maps of a book that is opened again.

ghost use Rattle.std.specs.Prelude.{◌≡◌, true, IfOk};

use bt_mapkind::MapAttr;
use console_script::{HostKind, HostSupply, Supply};
use host_words::NoMemory;
use kept_file::MakeBox;
use std::alloc::Global;

/// Makes a map of the host's kind for its type each time it is asked.
#[derive(Clone, Copy, Debug)]
pub struct HostBoxes {
    supply: HostSupply,
}

impl HostBoxes {
    /// A maker of maps on this allocator.
    pub fn new(alloc: Global) -> HostBoxes {
        HostBoxes {
            supply: HostSupply::new(alloc),
        }
    }
}

impl MakeBox<HostKind> for HostBoxes {
    fn make_box(&mut self, attr: MapAttr) -> Result<HostKind, NoMemory> {
        match self.supply.supply(attr, u64::MAX) {
            Ok(kind) => Ok(kind),
            Err(_) => Err(NoMemory),
        }
    }
}
