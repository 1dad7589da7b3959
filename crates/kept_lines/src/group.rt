//! What the last lines noted and answered, and is not kept yet.

use kept_file::KeptEvent;
use std::alloc::Global;

/// What the last lines noted, and what they answered.
#[derive(Drop)]
pub(crate) struct Group {
    pub(crate) events: Vec<KeptEvent>,
    pub(crate) text: Vec<u8>,
}

impl Group {
    ghost use Rattle.std.specs.Prelude.{◌≡◌, []};

    /// Nothing was noted.
    pub(crate) fn new(alloc: Global) -> Group
        ensures events { result.events.items ≡ [] }
        ensures text { result.text.items ≡ [] }
    {
        Group {
            events: Vec::new(alloc),
            text: Vec::new(alloc),
        }
    }
}
