//! Programs that are attached to devices.

ghost use Rattle.std.specs.Prelude.{◌≡◌, ◌≢◌, Err, false};
ghost use Rattle.host_state.specs.Hosts.{view_of, IsSound, entries_in};
ghost use Rattle.host_undoing.specs.Answers.{Answers};
ghost use Rattle.host_state.specs.Work.{CallsAtMost, Works};
ghost use Rattle.host_retirement.specs.Gathered.{calls_in};
ghost use Rattle.host_state.specs.declared.change.Change.TheVariants.{Attach, Detach};

use crate::create::refusal_of;
use bt_mapkind::{Errno, MapKind};
use host_retirement::retire::{retire_cut, retire_if};
use host_state::{Host, Refusal, Reply, is_live_prog};
use host_undoing::{Part, Undoing};
use host_words::Word;

/// Attaches a live program to a device: ENOENT if it is not live, then ENOENT if there is no such device, then EBUSY
/// if a program is attached and `overwrite` is not set. An overwrite retires what is reachable no longer; if memory
/// is refused to the walk, the former program is attached again. Else it takes no memory.
pub fn attach<K: MapKind>(
    host: &mut Host<K>,
    prog: u32,
    device: &Word,
    overwrite: bool,
) -> Result<(Reply, Undoing), Refusal>
    requires { IsSound host.old.objects.by_id (entries_in host.old.entries) host.old.roots }
    ensures sound { IsSound host.new.objects.by_id (entries_in host.new.entries) host.new.roots }
    ensures answer { Answers (view_of host.old.objects.by_id (entries_in host.old.entries) host.old.roots host.old.objects.work) (Attach prog device.now overwrite) result
        (view_of host.new.objects.by_id (entries_in host.new.entries) host.new.roots host.new.objects.work) }
    ensures no_growth { overwrite ≡ false → result ≢ Err Refusal.NoMemory }
    ensures work { Works overwrite (calls_in host.old.objects.by_id (entries_in host.old.entries)) result host.old.objects.work host.old.objects.work host.new.objects.work }
{
    if !is_live_prog(&host.entries, prog) {
        return Err(Refusal::Errno(Errno::ENOENT));
    }
    let mut pin = match host.roots.attach(device.as_slice(), prog, overwrite) {
        Ok(pin) => pin,
        Err(fault) => return Err(refusal_of(fault)),
    };
    match retire_if(
        overwrite,
        host.alloc,
        &mut host.objects,
        &mut host.entries,
        &host.roots,
    ) {
        Ok(retired) => {
            let part = Part::Pinned { pin };
            Ok((Reply::Done, Undoing { part, retired }))
        }
        Err(_) => {
            host.roots.turn(&mut pin);
            Err(Refusal::NoMemory)
        }
    }
}

/// Detaches the program of a device, and retires what is reachable no longer: ENOENT if there is no such device, or no
/// program on it. If memory is refused to the walk, the program is attached again.
pub fn detach<K: MapKind>(host: &mut Host<K>, device: &Word) -> Result<(Reply, Undoing), Refusal>
    requires { IsSound host.old.objects.by_id (entries_in host.old.entries) host.old.roots }
    ensures sound { IsSound host.new.objects.by_id (entries_in host.new.entries) host.new.roots }
    ensures answer { Answers (view_of host.old.objects.by_id (entries_in host.old.entries) host.old.roots host.old.objects.work) (Detach device.now) result
        (view_of host.new.objects.by_id (entries_in host.new.entries) host.new.roots host.new.objects.work) }
    ensures work { CallsAtMost (calls_in host.old.objects.by_id (entries_in host.old.entries)) host.old.objects.work host.new.objects.work }
{
    let mut pin = match host.roots.detach(device.as_slice()) {
        Ok(pin) => pin,
        Err(fault) => return Err(refusal_of(fault)),
    };
    match retire_cut(
        pin.target(),
        host.alloc,
        &mut host.objects,
        &mut host.entries,
        &host.roots,
    ) {
        Ok(retired) => {
            let part = Part::Pinned { pin };
            Ok((Reply::Done, Undoing { part, retired }))
        }
        Err(_) => {
            host.roots.turn(&mut pin);
            Err(Refusal::NoMemory)
        }
    }
}
