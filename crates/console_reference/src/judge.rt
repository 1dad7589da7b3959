//! Programs judged before they are loaded.

ghost use Rattle.std.specs.Prelude.{◌≡◌, IfOk, map as each};
ghost use Rattle.console_reference.specs.References.{ToldUnlessRefused};
ghost use Rattle.console_reference.specs.Programs.{Judges, pair_of, live_maps, part_from, name_of};

use bt_insn::decode;
use bt_journal::Book;
use bt_mapkind::{MapAttr, MapKind};
use bt_verify::{MapList, Verified, verify};
use console_answer::Fault;
use host_state::{Ask, AskReply, Code, MapRow};
use host_words::{NoMemory, Word};
use std::alloc::Global;

// The ids of maps with their attributes.
fn pairs_of(alloc: Global, rows: &[MapRow]) -> Result<Vec<(u32, MapAttr)>, NoMemory>
    ensures { IfOk result (λ pairs. pairs.items ≡ each pair_of rows.now) }
{
    Ok(rows.iter().map(|row| (row.id, row.attr)).collect(alloc)?)
}

/// The live maps with their attributes, which a program may name.
fn find_maps<K: MapKind>(alloc: Global, book: &mut Book<K>) -> Result<MapList, NoMemory>
    ensures same { book.new.plain ≡ book.old.plain }
    ensures maps { IfOk result (λ maps. maps ≡ live_maps book.old.plain) }
{
    match book.ask(&Ask::Maps { only: None })? {
        AskReply::Maps(rows) => Ok(MapList::new(pairs_of(alloc, rows.as_slice())?)),
        _ => Ok(MapList::new(Vec::new(alloc))),
    }
}

/// The verdict on the program that bytes spell, which may name these maps: its code, or its first fault.
fn judge(alloc: Global, maps: &MapList, bytes: &[u8]) -> Result<Verified, Fault>
    ensures { Judges maps.now bytes.now result }
{
    let insns = match decode(alloc, bytes) {
        Ok(insns) => insns,
        Err(fault) => return Err(Fault::of_decode(fault)),
    };
    match verify(alloc, insns, maps) {
        Ok(verified) => Ok(verified),
        Err(fault) => Err(Fault::of_verify(fault)),
    }
}

// Verified code, shared by those that keep it.
fn shared(alloc: Global, verdict: Result<Verified, Fault>) -> Result<Code, Fault>
    ensures { ToldUnlessRefused verdict result }
{
    match verdict {
        Ok(verified) => match Code::new(alloc, verified) {
            Ok(code) => Ok(code),
            Err(_) => Err(Fault::NoMemory),
        },
        Err(fault) => Err(fault),
    }
}

/// The verdict on a program that may name the live maps.
pub fn find_code<K: MapKind>(alloc: Global, book: &mut Book<K>, bytes: &[u8]) -> Result<Code, Fault>
    ensures same { book.new.plain ≡ book.old.plain }
    ensures verdict { Judges (live_maps book.old.plain) bytes.now result }
{
    match find_maps(alloc, book) {
        Ok(maps) => shared(alloc, judge(alloc, &maps, bytes)),
        Err(_) => Err(Fault::NoMemory),
    }
}

// What comes after the last slash; all if there is none.
fn last_part(path: &[u8]) -> &[u8]
    ensures { result.now ≡ part_from path.now path.now }
{
    let mut part = path;
    let mut rest = path;
    while let Some((byte, after)) = rest.split_first() {
        rest = after;
        if *byte == b'/' {
            part = after;
        }
    }
    part
}

/// The name of a program that is loaded to a path: what comes after the last slash, cut to 15 bytes.
pub fn name_of(alloc: Global, path: &Word) -> Result<Word, NoMemory>
    ensures { IfOk result (λ name. name ≡ name_of path.now) }
{
    let part = last_part(path.as_slice());
    Word::new(alloc, &part[..part.len().min(15)])
}
