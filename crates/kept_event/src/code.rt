//! Code in a row: its bytes, and the maps that it names.

ghost use Rattle.std.specs.Prelude.{◌≡◌, List, ℕ, Some, IfOk, OnOk, IsSomeAnd};
ghost use Rattle.bt_insn.specs.Spelling.{spelling};
ghost use Rattle.bt_verify.specs.Verified.{Checked};
ghost use Rattle.kept_event.specs.Bounded.{IsChecked};
ghost use Rattle.kept_event.specs.Maps.{maps_bytes};

use crate::maps::{ascend, maps_bytes, maps_in};
use crate::row::Row;
use bt_insn::{DecodeFault, Insn, decode, encode};
use bt_mapkind::MapAttr;
use bt_verify::{MapList, Verified, VerifyFault, verify};
use host_state::{Code, Listing};
use host_words::NoMemory;
use std::alloc::Global;

// The bytes of code. That it is verified is what the program of it tells.
fn code_bytes(alloc: Global, code: &Code) -> Result<(Vec<u8>, Vec<u8>), NoMemory>
    ensures bytes { IfOk result (λ bytes. bytes.0.items ≡ spelling code.now.insns) }
    ensures maps { IfOk result (λ bytes. bytes.1.items ≡ maps_bytes code.now.maps) }
    ensures checked { OnOk result (IsChecked code.now) }
{
    let program = code.program(0)?;
    let _slots = program.verified().slots();
    let bytes = encode(alloc, code.insns())?;
    let maps = maps_bytes(alloc, code.maps())?;
    Ok((bytes, maps))
}

/// Fills in the columns of code.
pub(crate) fn code_row(alloc: Global, code: &Code, row: &mut Row) -> Result<(), NoMemory>
    ensures row { OnOk result (row.new ≡ record row.old { code = Some (spelling code.now.insns); value = Some (maps_bytes code.now.maps) }) }
    ensures checked { OnOk result (IsChecked code.now) }
{
    let (bytes, maps) = code_bytes(alloc, code)?;
    row.code = Some(Listing::of(bytes));
    row.value = Some(Listing::of(maps));
    Ok(())
}

// The instructions that bytes spell.
fn insns_in(alloc: Global, bytes: &[u8]) -> Result<Option<Vec<Insn>>, NoMemory>
    ensures { (code : Checked) → IsChecked code → bytes.now ≡ spelling code.insns
        → IfOk result (λ found. IsSomeAnd found (λ insns. insns.items ≡ code.insns)) }
{
    match decode(alloc, bytes) {
        Ok(insns) => Ok(Some(insns)),
        Err(DecodeFault::NoMemory) => Err(NoMemory),
        Err(_) => Ok(None),
    }
}

// The program of these instructions, which names just these maps.
fn verified(
    alloc: Global,
    insns: Vec<Insn>,
    maps: Vec<(u32, MapAttr)>,
) -> Result<Option<Verified>, NoMemory>
    ensures { (code : Checked) → IsChecked code → insns.items ≡ code.insns → maps.items ≡ code.maps
        → IfOk result (λ found. found ≡ Some code) }
{
    if !ascend(&maps) {
        return Ok(None);
    }
    match verify(alloc, insns, &MapList::new(maps)) {
        Ok(verified) => Ok(Some(verified)),
        Err(VerifyFault::NoMemory) => Err(NoMemory),
        Err(_) => Ok(None),
    }
}

// The code of these bytes and these maps.
fn checked(alloc: Global, bytes: &[u8], maps: &[u8]) -> Result<Option<Code>, NoMemory>
    ensures { (code : Checked) → IsChecked code → bytes.now ≡ spelling code.insns → maps.now ≡ maps_bytes code.maps
        → IfOk result (λ found. found ≡ Some code) }
{
    let Some(insns) = insns_in(alloc, bytes)? else {
        return Ok(None);
    };
    let Some(maps) = maps_in(alloc, maps)? else {
        return Ok(None);
    };
    match verified(alloc, insns, maps)? {
        Some(verified) => Ok(Some(Code::new(alloc, verified)?)),
        None => Ok(None),
    }
}

/// The code of a row, if it has some.
pub(crate) fn code_in(alloc: Global, row: &Row) -> Result<Option<Code>, NoMemory>
    ensures { (code : Checked) → IsChecked code → row.now.code ≡ Some (spelling code.insns) → row.now.value ≡ Some (maps_bytes code.maps)
        → IfOk result (λ found. found ≡ Some code) }
{
    let Some(bytes) = &row.code else {
        return Ok(None);
    };
    let Some(maps) = &row.value else {
        return Ok(None);
    };
    checked(alloc, bytes.as_slice(), maps.as_slice())
}
