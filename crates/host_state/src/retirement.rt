//! What a change retired, and bringing it back.

ghost use Rattle.std.specs.Prelude.{◌≡◌, [], true, not};
ghost use Rattle.host_state.specs.Hosts.{RevivesEntries, entries_in};

use crate::hosts::{Entries, revive};
use crate::listing::Listing;
use bt_roots::Target;
use std::alloc::Global;

/// What a change retired, and whether a turning brings it back.
#[derive(Drop)]
pub struct Retirement {
    /// By ascending id.
    pub targets: Listing<Target>,
    /// Whether they are live after the next turning.
    pub live: bool,
}

/// Nothing retired. It takes no memory.
pub fn none_retired(alloc: Global) -> Retirement
    ensures targets { result.targets ≡ [] }
    ensures live { result.live ≡ true }
{
    Retirement {
        targets: Listing::of(Vec::new(alloc)),
        live: true,
    }
}

/// Makes what was retired live, or retires it again; the next turning does the other. It takes no memory.
pub fn turn_retired(entries: &mut Entries, retired: &mut Retirement)
    ensures entries { RevivesEntries (entries_in entries.old) (entries_in entries.new) retired.old.targets retired.old.live }
    ensures retired { retired.new ≡ record retired.old { live = not retired.old.live } }
{
    revive(entries, retired.targets.as_slice(), retired.live);
    retired.live = !retired.live;
}
