//! Freezing a map.

ghost use Rattle.std.specs.Prelude.{◌≡◌, ◌≢◌, Err};
ghost use Rattle.host_state.specs.Hosts.{view_of, IsSound, entries_in};
ghost use Rattle.host_undoing.specs.Answers.{Answers};
ghost use Rattle.host_state.specs.declared.change.Change.TheVariants.{Freeze};

use bt_mapkind::{Errno, MapKind};
use host_state::{Host, Refusal, Reply, exchange_frozen, frozen_if_live, none_retired};
use host_undoing::{Part, Undoing};

/// Lets the console write a live map no more: ENOENT if none is live, EBUSY if it is frozen already. It takes no
/// memory.
pub fn freeze<K: MapKind>(host: &mut Host<K>, map: u32) -> Result<(Reply, Undoing), Refusal>
    requires { IsSound host.old.objects.by_id (entries_in host.old.entries) host.old.roots }
    ensures sound { IsSound host.new.objects.by_id (entries_in host.new.entries) host.new.roots }
    ensures answer { Answers (view_of host.old.objects.by_id (entries_in host.old.entries) host.old.roots host.old.objects.work) (Freeze map) result
        (view_of host.new.objects.by_id (entries_in host.new.entries) host.new.roots host.new.objects.work) }
    ensures no_growth { result ≢ Err Refusal.NoMemory }
    ensures work { host.new.objects.work ≡ host.old.objects.work }
{
    match frozen_if_live(&host.entries, map) {
        None => Err(Refusal::Errno(Errno::ENOENT)),
        Some(true) => Err(Refusal::Errno(Errno::EBUSY)),
        Some(false) => {
            let mut frozen = true;
            exchange_frozen(&mut host.entries, map, &mut frozen);
            Ok((
                Reply::Done,
                Undoing {
                    part: Part::Frozen { map, frozen },
                    retired: none_retired(host.alloc),
                },
            ))
        }
    }
}
