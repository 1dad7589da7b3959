//! The row of a change.

ghost use Rattle.std.specs.Prelude.{◌≡◌, Some, IfOk, OnOk};
ghost use Rattle.kept_event.specs.Bounded.{IsBoundedChange, IsBoundedOrigin, IsBoundedTarget};
ghost use Rattle.kept_event.specs.Maps.{FitsAttr};
ghost use Rattle.kept_event.specs.Row.{prog_of, with_attr, pin_row, change_row};

use crate::code::code_row;
use crate::op_row::op_row;
use crate::row::{Row, keyed, named, pathed, placed};
use crate::verb::Verb;
use bt_mapkind::{Bytes, MapAttr, MapOp};
use bt_roots::Target;
use host_state::{Change, Code, Origin};
use host_words::{NoMemory, Word};
use std::alloc::Global;

// A number in a column.
fn id_column(id: Option<u32>) -> Option<u64>
    ensures { result ≡ id }
{
    match id {
        Some(id) => Some(u64::from(id)),
        None => None,
    }
}

// The program that makes a change.
fn prog_of(origin: Origin) -> Option<u64>
    ensures value { result ≡ prog_of origin }
    ensures bounded { IsBoundedOrigin origin }
{
    match origin {
        Origin::Console => None,
        Origin::Prog(id) => Some(u64::from(id)),
    }
}

// Fills in the attributes of a map.
fn fill_attr(row: &mut Row, attr: MapAttr)
    ensures row { row.new ≡ with_attr attr row.old }
    ensures fits { FitsAttr attr }
{
    row.kind = Some(attr.kind);
    row.key_size = Some(u64::from(attr.key_size));
    row.value_size = Some(u64::from(attr.value_size));
    row.entries = Some(u64::from(attr.max_entries));
    row.flags = Some(u64::from(attr.flags));
}

fn create_row(
    id: u32,
    attr: MapAttr,
    charge: u64,
    name: &Word,
    path: &Word,
    template: Option<u32>,
) -> Result<Row, NoMemory>
    ensures row { IfOk result (λ row. row ≡ change_row (Change.Create id attr charge name.now path.now template)) }
    ensures bounded { OnOk result (IsBoundedChange (Change.Create id attr charge name.now path.now template)) }
{
    let mut row = placed(Verb::Create, name, path)?;
    row.map = Some(u64::from(id));
    row.size = Some(charge);
    row.target = id_column(template);
    fill_attr(&mut row, attr);
    Ok(row)
}

fn operate_row(alloc: Global, origin: Origin, map: u32, op: &MapOp) -> Result<Row, NoMemory>
    ensures row { IfOk result (λ row. row ≡ change_row (Change.Operate origin map op.now)) }
    ensures bounded { OnOk result (IsBoundedChange (Change.Operate origin map op.now)) }
{
    let mut row = op_row(alloc, op)?;
    row.prog = prog_of(origin);
    row.map = Some(u64::from(map));
    Ok(row)
}

fn link_row(alloc: Global, map: u32, key: &Bytes, id: u32, flag: u64) -> Result<Row, NoMemory>
    ensures row { IfOk result (λ row. row ≡ change_row (Change.Link map key.now id flag)) }
    ensures bounded { OnOk result (IsBoundedChange (Change.Link map key.now id flag)) }
{
    let mut row = keyed(alloc, Verb::Link, key.as_slice())?;
    row.map = Some(u64::from(map));
    row.target = Some(u64::from(id));
    row.flag = Some(flag);
    Ok(row)
}

fn load_row(alloc: Global, id: u32, code: &Code, name: &Word, path: &Word) -> Result<Row, NoMemory>
    ensures row { IfOk result (λ row. row ≡ change_row (Change.Load id code.now name.now path.now)) }
    ensures bounded { OnOk result (IsBoundedChange (Change.Load id code.now name.now path.now)) }
{
    let mut row = placed(Verb::Load, name, path)?;
    row.target = Some(u64::from(id));
    code_row(alloc, code, &mut row)?;
    Ok(row)
}

fn pin_row(target: Target, path: &Word) -> Result<Row, NoMemory>
    ensures row { IfOk result (λ row. row ≡ pin_row target path.now) }
    ensures bounded { OnOk result (IsBoundedTarget target) }
{
    let mut row = pathed(Verb::Pin, path)?;
    match target {
        Target::Map(id) => row.map = Some(u64::from(id)),
        Target::Prog(id) => row.target = Some(u64::from(id)),
    }
    Ok(row)
}

fn attach_row(prog: u32, device: &Word, overwrite: bool) -> Result<Row, NoMemory>
    ensures row { IfOk result (λ row. row ≡ change_row (Change.Attach prog device.now overwrite)) }
    ensures bounded { OnOk result (IsBoundedChange (Change.Attach prog device.now overwrite)) }
{
    let mut row = named(Verb::Attach, device)?;
    row.target = Some(u64::from(prog));
    row.flag = Some(if overwrite { 1 } else { 0 });
    Ok(row)
}

/// The row of a change, without its serial.
pub(crate) fn change_row(alloc: Global, change: &Change) -> Result<Row, NoMemory>
    ensures row { IfOk result (λ row. row ≡ change_row change.now) }
    ensures bounded { OnOk result (IsBoundedChange change.now) }
{
    match change {
        Change::Create {
            id,
            attr,
            charge,
            name,
            path,
            template,
        } => create_row(*id, *attr, *charge, name, path, *template),
        Change::Operate { origin, map, op } => operate_row(alloc, *origin, *map, op),
        Change::Freeze { map } => {
            let mut row = Row::bare(Verb::Freeze);
            row.map = Some(u64::from(*map));
            Ok(row)
        }
        Change::Link { map, key, id, flag } => link_row(alloc, *map, key, *id, *flag),
        Change::Load {
            id,
            code,
            name,
            path,
        } => load_row(alloc, *id, code, name, path),
        Change::Pin { target, path } => pin_row(*target, path),
        Change::Unpin { path } => pathed(Verb::Unpin, path),
        Change::Attach {
            prog,
            device,
            overwrite,
        } => attach_row(*prog, device, *overwrite),
        Change::Detach { device } => named(Verb::Detach, device),
    }
}
