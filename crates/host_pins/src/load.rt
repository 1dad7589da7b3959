//! A new program.

ghost use Rattle.std.specs.Prelude.{◌≡◌, ◌≢◌, ℕ, None, Some, IfOk};
ghost use Rattle.std.specs.List.{list_all};
ghost use Rattle.bt_mapkind.specs.declared.attr.MapAttr.{MapAttr as Attributes};
ghost use Rattle.bt_roots.specs.declared.target.Target.TheVariants.{Map, Prog as ProgTarget};
ghost use Rattle.host_state.specs.Act.{new_prog};
ghost use Rattle.host_state.specs.Hosts.{prog_at, view_of, PutsProg, IsSound, entries_in};
ghost use Rattle.host_undoing.specs.Answers.{Answers};
ghost use Rattle.host_state.specs.declared.change.Change.TheVariants.{Load};
ghost use Rattle.host_state.specs.Hosts.{live_target_in};
ghost use Rattle.host_pins.specs.Made.{load_fault, Pins};

use crate::create::refusal_of;
use bt_mapkind::{Errno, MapAttr, MapKind};
use bt_roots::{RootBack, Roots, Target};
use host_state::{
    Code, Entries, Host, HostProg, Refusal, Reply, add_prog, exchange_prog, frozen_if_live,
    none_retired,
};
use host_undoing::{Part, Undoing};
use host_words::{NoMemory, Word};

// Whether each of these maps is live.
fn are_live(entries: &Entries, maps: &[(u32, MapAttr)]) -> bool
    ensures { result ≡ list_all (λ (map : ℕ × Attributes). live_target_in (entries_in entries.now) (Map map.0)) maps.now }
{
    maps.iter()
        .all(|map| frozen_if_live(entries, map.0).is_some())
}

/// Why a program is not loaded, whatever its path: EEXIST if one stands under the id, ENOENT if a map that it names
/// is not live.
fn load_fault(entries: &Entries, id: u32, code: &Code) -> Option<Errno>
    ensures { result ≡ load_fault (entries_in entries.now) id code.now }
{
    if let Some(Some(_)) = entries.progs.get(&id) {
        return Some(Errno::EEXIST);
    }
    if !are_live(entries, code.maps()) {
        return Some(Errno::ENOENT);
    }
    None
}

/// A new program of this name. Takes memory for the name.
fn new_prog(code: &Code, name: &Word) -> Result<HostProg, NoMemory>
    ensures { IfOk result (λ prog. prog ≡ new_prog code.now name.now) }
{
    Ok(HostProg {
        code: code.share()?,
        name: name.copy()?,
        live: true,
    })
}

/// Pins the program, for which there is room, and gives it this entry. Takes memory for its path.
fn pin_prog(
    entries: &mut Entries,
    roots: &mut Roots,
    id: u32,
    prog: HostProg,
    path: &Word,
) -> Result<RootBack, Refusal>
    requires { prog_at (entries_in entries.old) id ≢ None }
    ensures { let is_put = PutsProg (entries_in entries.old) (entries_in entries.new) id (Some (Some prog)) in
        Pins is_put (entries_in entries.old) roots.old (ProgTarget id) path.now result (entries_in entries.new) roots.new }
{
    let pin = match roots.pin(path, Target::Prog(id)) {
        Ok(pin) => pin,
        Err(fault) => return Err(refusal_of(fault)),
    };
    let mut prog = Some(prog);
    exchange_prog(entries, id, &mut prog);
    Ok(pin)
}

/// Makes a program and pins it: what stands against it and its path comes first. Room for it is made before it is pinned.
pub fn load<K: MapKind>(
    host: &mut Host<K>,
    id: u32,
    code: &Code,
    name: &Word,
    path: &Word,
) -> Result<(Reply, Undoing), Refusal>
    requires { IsSound host.old.objects.by_id (entries_in host.old.entries) host.old.roots }
    ensures sound { IsSound host.new.objects.by_id (entries_in host.new.entries) host.new.roots }
    ensures answer { Answers (view_of host.old.objects.by_id (entries_in host.old.entries) host.old.roots host.old.objects.work) (Load id code.now name.now path.now) result
        (view_of host.new.objects.by_id (entries_in host.new.entries) host.new.roots host.new.objects.work) }
    ensures work { host.new.objects.work ≡ host.old.objects.work }
{
    if let Some(errno) = load_fault(&host.entries, id, code) {
        return Err(Refusal::Errno(errno));
    }
    let prog = match new_prog(code, name) {
        Ok(prog) => prog,
        Err(_) => return Err(Refusal::NoMemory),
    };
    match add_prog(&mut host.entries, id) {
        Ok(()) => {}
        Err(_) => return Err(Refusal::NoMemory),
    }
    match pin_prog(&mut host.entries, &mut host.roots, id, prog, path) {
        Ok(pin) => {
            let part = Part::Program {
                prog: id,
                entry: None,
                pin,
            };
            let retired = none_retired(host.alloc);
            Ok((Reply::Loaded(id), Undoing { part, retired }))
        }
        Err(refusal) => Err(refusal),
    }
}
