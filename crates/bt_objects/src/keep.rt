//! Which objects stay.

ghost use Rattle.std.specs.Prelude.{◌≡◌};
ghost use Rattle.bt_objects.specs.Ids.{Ascends, is_among};

/// The ids of the objects to keep, maps and programs, each list ascending.
#[derive(Drop)]
pub struct Keep {
    pub maps: Vec<u32>,
    pub progs: Vec<u32>,
    ghost maps_ascend: { Ascends maps.items },
    ghost progs_ascend: { Ascends progs.items },
}

/// Whether an id is among ascending ones. It takes time in the logarithm of their number.
pub fn is_among(ids: &[u32], id: u32) -> bool
    requires { Ascends ids.now }
    ensures { result ≡ is_among ids.now id }
{
    ids.binary_search(&id).is_ok()
}
