//! What takes a change back.

ghost use Rattle.std.specs.Prelude.{◌≡◌};

use bt_mapkind::KeptBack;
use bt_objects::Make;
use bt_roots::{RootBack, Target};
use host_state::{HostProg, MapEntry, Retirement};

/// One part of the state, with what it is exchanged for.
#[derive(Drop)]
pub enum Part {
    /// An exchange of what a map holds.
    Contents {
        map: u32,
        kept: KeptBack,
    },
    /// Whether the console may write a map no more.
    Frozen {
        map: u32,
        frozen: bool,
    },
    /// A map that is to be there, or to go if there is no entry, with the pin at its path. Its box is fresh.
    Presence {
        map: u32,
        make: Make,
        entry: Option<MapEntry>,
        pin: RootBack,
    },
    /// A program that is to be there, or to go if there is none, with the pin at its path.
    Program {
        prog: u32,
        entry: Option<HostProg>,
        pin: RootBack,
    },
    /// What is pinned at a path.
    Pinned {
        pin: RootBack,
    },
}

/// What takes one change back: an exchange of a part of the state with what it holds, and what the change retired.
/// Turned again it brings the change back.
#[derive(Drop)]
pub struct Undoing {
    pub part: Part,
    pub retired: Retirement,
}

impl Undoing {
    /// The objects that the change retired, maps before programs and each kind by ascending id.
    pub fn retired(&self) -> &[Target]
        ensures { result.now ≡ self.now.retired.targets }
    {
        self.retired.targets.as_slice()
    }
}
