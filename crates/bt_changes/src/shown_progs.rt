//! Questions about programs.

ghost use Rattle.std.specs.Prelude.{◌≡◌, ◌++◌, None, Some, IfOk, OnOk};
ghost use Rattle.host_state.specs.Hosts.{progs_of, entries_in, live_prog_at};
ghost use Rattle.host_state.specs.Ask.{if_found, if_live_prog, prog_row, prog_rows, progs_shown};
ghost use Rattle.host_state.specs.Settled.{maps_named};
ghost use Rattle.std.specs.Option.{option_map, option_to_list};
ghost use Rattle.host_state.specs.declared.ask.AskReply.TheVariants.{Progs as ProgsReply, Code as CodeReply};

use bt_mapkind::Errno;
use host_state::{AskReply, Entries, HostProg, Listing, ProgRow};
use host_words::NoMemory;
use std::alloc::Global;

// The ids of the maps that a program names.
fn ids_named(alloc: Global, prog: &HostProg) -> Result<Listing<u32>, NoMemory>
    ensures { IfOk result (λ ids. ids ≡ maps_named prog.now) }
{
    let ids = prog.code.maps().iter().map(|map| map.0).collect(alloc)?;
    Ok(Listing::of(ids))
}

// Adds what is shown of the program of an entry, if it is there and live.
fn push_row(
    alloc: Global,
    rows: &mut Vec<ProgRow>,
    id: u32,
    prog: &Option<HostProg>,
) -> Result<(), NoMemory>
    ensures { OnOk result (rows.new.items ≡ rows.old.items ++ option_to_list (option_map (λ p. prog_row (id, p)) (if_live_prog prog.now))) }
{
    let Some(prog) = prog else {
        return Ok(());
    };
    if !prog.live {
        return Ok(());
    }
    let row = ProgRow {
        id,
        name: prog.name.copy()?,
        insns: prog.code.insns().len(),
        maps: ids_named(alloc, prog)?,
    };
    rows.push(row)?;
    Ok(())
}

// What is shown of every live program, by ascending id.
fn show_all(alloc: Global, entries: &Entries) -> Result<AskReply, NoMemory>
    ensures { IfOk result (λ reply. reply ≡ ProgsReply (prog_rows (progs_of (entries_in entries.now)))) }
{
    let mut rows = Vec::new(alloc);
    for (id, prog) in entries.progs.iter() {
        push_row(alloc, &mut rows, *id, prog)?;
    }
    Ok(AskReply::Progs(Listing::of(rows)))
}

// What is shown of a live program.
fn show_one(alloc: Global, entries: &Entries, id: u32) -> Result<AskReply, NoMemory>
    ensures { IfOk result (λ reply. reply ≡ progs_shown (progs_of (entries_in entries.now)) (live_prog_at (entries_in entries.now)) (Some id)) }
{
    let mut rows = Vec::new(alloc);
    if let Some(prog) = entries.progs.get(&id) {
        push_row(alloc, &mut rows, id, prog)?;
    }
    if rows.is_empty() {
        return Ok(AskReply::Refused(Errno::ENOENT));
    }
    Ok(AskReply::Progs(Listing::of(rows)))
}

/// What is shown of every live program by ascending id, or of this one.
pub(crate) fn show_progs(
    alloc: Global,
    entries: &Entries,
    only: Option<u32>,
) -> Result<AskReply, NoMemory>
    ensures { IfOk result (λ reply. reply ≡ progs_shown (progs_of (entries_in entries.now)) (live_prog_at (entries_in entries.now)) only) }
{
    match only {
        Some(id) => show_one(alloc, entries, id),
        None => show_all(alloc, entries),
    }
}

/// The instructions of a live program.
pub(crate) fn code_if_live(alloc: Global, entries: &Entries, id: u32) -> Result<AskReply, NoMemory>
    ensures { IfOk result (λ reply. reply ≡ if_found (λ p. CodeReply p.code.insns) (live_prog_at (entries_in entries.now) id)) }
{
    match entries.progs.get(&id) {
        Some(Some(prog)) if prog.live => {
            let insns = Vec::from_slice(alloc, prog.code.insns())?;
            Ok(AskReply::Code(Listing::of(insns)))
        }
        Some(_) | None => Ok(AskReply::Refused(Errno::ENOENT)),
    }
}
