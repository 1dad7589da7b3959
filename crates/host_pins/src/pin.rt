//! Pins.

ghost use Rattle.std.specs.Prelude.{◌≡◌};
ghost use Rattle.host_state.specs.Hosts.{view_of, IsSound, entries_in};
ghost use Rattle.host_undoing.specs.Answers.{Answers};
ghost use Rattle.host_state.specs.Work.{CallsAtMost};
ghost use Rattle.host_retirement.specs.Gathered.{calls_in};
ghost use Rattle.host_state.specs.Hosts.{live_target_in};
ghost use Rattle.host_state.specs.declared.change.Change.TheVariants.{Pin, Unpin};

use crate::create::refusal_of;
use bt_mapkind::{Errno, MapKind};
use bt_roots::Target;
use host_retirement::retire::retire_cut;
use host_state::{Entries, Host, Refusal, Reply, frozen_if_live, is_live_prog, none_retired};
use host_undoing::{Part, Undoing};
use host_words::Word;

/// Whether an object is there and live.
fn is_live(entries: &Entries, target: Target) -> bool
    ensures { result ≡ live_target_in (entries_in entries.now) target }
{
    match target {
        Target::Map(id) => frozen_if_live(entries, id).is_some(),
        Target::Prog(id) => is_live_prog(entries, id),
    }
}

/// Pins a live object: ENOENT if it is not, then what stands against the path. Takes memory for the path.
pub fn pin<K: MapKind>(
    host: &mut Host<K>,
    target: Target,
    path: &Word,
) -> Result<(Reply, Undoing), Refusal>
    requires { IsSound host.old.objects.by_id (entries_in host.old.entries) host.old.roots }
    ensures sound { IsSound host.new.objects.by_id (entries_in host.new.entries) host.new.roots }
    ensures answer { Answers (view_of host.old.objects.by_id (entries_in host.old.entries) host.old.roots host.old.objects.work) (Pin target path.now) result
        (view_of host.new.objects.by_id (entries_in host.new.entries) host.new.roots host.new.objects.work) }
    ensures work { host.new.objects.work ≡ host.old.objects.work }
{
    if !is_live(&host.entries, target) {
        return Err(Refusal::Errno(Errno::ENOENT));
    }
    match host.roots.pin(path, target) {
        Ok(pin) => Ok((
            Reply::Done,
            Undoing {
                part: Part::Pinned { pin },
                retired: none_retired(host.alloc),
            },
        )),
        Err(fault) => Err(refusal_of(fault)),
    }
}

/// Takes a pin away, and retires what is reachable no longer: ENOENT if nothing is pinned. If memory is refused to
/// the walk, the pin is put back.
pub fn unpin<K: MapKind>(host: &mut Host<K>, path: &Word) -> Result<(Reply, Undoing), Refusal>
    requires { IsSound host.old.objects.by_id (entries_in host.old.entries) host.old.roots }
    ensures sound { IsSound host.new.objects.by_id (entries_in host.new.entries) host.new.roots }
    ensures answer { Answers (view_of host.old.objects.by_id (entries_in host.old.entries) host.old.roots host.old.objects.work) (Unpin path.now) result
        (view_of host.new.objects.by_id (entries_in host.new.entries) host.new.roots host.new.objects.work) }
    ensures work { CallsAtMost (calls_in host.old.objects.by_id (entries_in host.old.entries)) host.old.objects.work host.new.objects.work }
{
    let mut pin = match host.roots.unpin(path) {
        Ok(pin) => pin,
        Err(fault) => return Err(refusal_of(fault)),
    };
    match retire_cut(
        pin.target(),
        host.alloc,
        &mut host.objects,
        &mut host.entries,
        &host.roots,
    ) {
        Ok(retired) => {
            let part = Part::Pinned { pin };
            Ok((Reply::Done, Undoing { part, retired }))
        }
        Err(_) => {
            host.roots.turn(&mut pin);
            Err(Refusal::NoMemory)
        }
    }
}
