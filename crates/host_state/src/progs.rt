//! The entries of the programs.

ghost use Rattle.std.specs.Prelude.{◌≡◌, ◌≢◌, None, Some, OnOk, OnErr};
ghost use Rattle.std.specs.Option.{option_map};
ghost use Rattle.bt_roots.specs.declared.target.Target.TheVariants.{Prog};
ghost use Rattle.host_state.specs.Hosts.{prog_at, held, live_target_in, held_as, PutsProg, entries_in};
ghost use Rattle.host_state.specs.declared.entry.HostProg.{HostProg as Entry};

use crate::entry::HostProg;
use crate::hosts::Entries;
use host_words::NoMemory;
use std::mem;

/// Whether a program is there and live.
pub fn is_live_prog(entries: &Entries, id: u32) -> bool
    ensures { result ≡ live_target_in (entries_in entries.now) (Prog id) }
{
    match entries.progs.get(&id) {
        Some(Some(prog)) => prog.live,
        Some(None) | None => false,
    }
}

/// Makes room for a program under an id where none stands.
pub fn add_prog(entries: &mut Entries, id: u32) -> Result<(), NoMemory>
    ensures added { OnOk result (PutsProg (entries_in entries.old) (entries_in entries.new) id (Some None)) }
    ensures refused { OnErr result (entries_in entries.new ≡ entries_in entries.old) }
{
    entries.progs.insert(id, None)?;
    Ok(())
}

/// Exchanges the program that stands under an id, or that none does, with this.
pub fn exchange_prog(entries: &mut Entries, id: u32, prog: &mut Option<HostProg>)
    requires { prog_at (entries_in entries.old) id ≢ None }
    ensures before { prog.new ≡ held (prog_at (entries_in entries.old) id) }
    ensures puts { PutsProg (entries_in entries.old) (entries_in entries.new) id (Some prog.old) }
{
    match entries.progs.get_mut(&id) {
        Some(slot) => mem::swap(slot, prog),
        None => {}
    }
}

/// Makes a program live, or retires it, if one stands under the id.
pub(crate) fn set_prog_live(entries: &mut Entries, id: u32, live: bool)
    ensures { PutsProg (entries_in entries.old) (entries_in entries.new) id (held_as (λ (prog : Entry). record prog { live = live }) (prog_at (entries_in entries.old) id)) }
{
    match entries.progs.get_mut(&id) {
        Some(prog) => set_flag(prog, live),
        None => {}
    }
}

// Sets whether a program is live, if there is one.
fn set_flag(prog: &mut Option<HostProg>, live: bool)
    ensures { prog.new ≡ option_map (λ (prog : Entry). record prog { live = live }) prog.old }
{
    match prog {
        Some(prog) => prog.live = live,
        None => {}
    }
}
