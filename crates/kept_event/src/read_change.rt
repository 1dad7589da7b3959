//! The change of a row.

ghost use Rattle.std.specs.Prelude.{◌≡◌};
ghost use Rattle.kept_event.specs.Reading.{origin_in, operate_in, template_in, attr_in, create_in, load_in, link_in, target_by, pin_in, attach_in, change_by};

use crate::column::{bytes_in, id_in, small};
use crate::read_op::op_by;
use crate::row::Row;
use crate::verb::Verb;
use bt_mapkind::MapAttr;
use bt_roots::Target;
use host_state::{Change, Code, Origin};
use host_words::Word;
use std::alloc::Global;

fn origin_in(prog: Option<u64>) -> Option<Origin>
    ensures { result ≡ origin_in prog }
{
    match prog {
        None => Some(Origin::Console),
        Some(n) => Some(Origin::Prog(small(n)?)),
    }
}

fn operate_in(alloc: Global, row: &Row) -> Option<Change>
    ensures { result ≡ operate_in row.now }
{
    let origin = origin_in(row.prog)?;
    let map = id_in(row.map)?;
    let op = op_by(alloc, row.verb, row)?;
    Some(Change::Operate { origin, map, op })
}

fn template_in(template: Option<u64>) -> Option<Option<u32>>
    ensures { result ≡ template_in template }
{
    match template {
        None => Some(None),
        Some(n) => Some(Some(small(n)?)),
    }
}

fn attr_in(row: &Row) -> Option<MapAttr>
    ensures { result ≡ attr_in row.now }
{
    let kind = row.kind?;
    let key_size = id_in(row.key_size)?;
    let value_size = id_in(row.value_size)?;
    let max_entries = id_in(row.entries)?;
    let flags = id_in(row.flags)?;
    Some(MapAttr {
        kind,
        key_size,
        value_size,
        max_entries,
        flags,
    })
}

fn create_in(row: &Row, name: Option<Word>, path: Option<Word>) -> Option<Change>
    ensures { result ≡ create_in row.now name path }
{
    let id = id_in(row.map)?;
    let attr = attr_in(row)?;
    let charge = row.size?;
    let template = template_in(row.target)?;
    let name = name?;
    let path = path?;
    Some(Change::Create {
        id,
        attr,
        charge,
        name,
        path,
        template,
    })
}

fn load_in(row: &Row, name: Option<Word>, path: Option<Word>, code: Option<Code>) -> Option<Change>
    ensures { result ≡ load_in row.now name path code }
{
    let id = id_in(row.target)?;
    let code = code?;
    let name = name?;
    let path = path?;
    Some(Change::Load {
        id,
        code,
        name,
        path,
    })
}

fn link_in(alloc: Global, row: &Row) -> Option<Change>
    ensures { result ≡ link_in row.now }
{
    let map = id_in(row.map)?;
    let key = bytes_in(alloc, &row.key)?;
    let id = id_in(row.target)?;
    let flag = row.flag?;
    Some(Change::Link { map, key, id, flag })
}

fn target_by(map: Option<u64>, prog: Option<u64>) -> Option<Target>
    ensures { result ≡ target_by map prog }
{
    match map {
        Some(n) => Some(Target::Map(small(n)?)),
        None => Some(Target::Prog(id_in(prog)?)),
    }
}

fn pin_in(row: &Row, path: Option<Word>) -> Option<Change>
    ensures { result ≡ pin_in row.now path }
{
    let target = target_by(row.map, row.target)?;
    let path = path?;
    Some(Change::Pin { target, path })
}

fn attach_in(row: &Row, name: Option<Word>) -> Option<Change>
    ensures { result ≡ attach_in row.now name }
{
    let prog = id_in(row.target)?;
    let device = name?;
    let flag = row.flag?;
    Some(Change::Attach {
        prog,
        device,
        overwrite: flag != 0,
    })
}

/// The change that a row of this verb is, with copies of its words, and its code.
pub(crate) fn change_by(
    alloc: Global,
    verb: Verb,
    row: &Row,
    name: Option<Word>,
    path: Option<Word>,
    code: Option<Code>,
) -> Option<Change>
    ensures { result ≡ change_by verb row.now name path code }
{
    match verb {
        Verb::Create => create_in(row, name, path),
        Verb::Load => load_in(row, name, path, code),
        Verb::Link => link_in(alloc, row),
        Verb::Freeze => Some(Change::Freeze {
            map: id_in(row.map)?,
        }),
        Verb::Pin => pin_in(row, path),
        Verb::Unpin => Some(Change::Unpin { path: path? }),
        Verb::Attach => attach_in(row, name),
        Verb::Detach => Some(Change::Detach { device: name? }),
        Verb::Update
        | Verb::Delete
        | Verb::Push
        | Verb::Pop
        | Verb::Store
        | Verb::Atomic
        | Verb::SetLink
        | Verb::Mark
        | Verb::Undo
        | Verb::Redo
        | Verb::Without
        | Verb::Forget => operate_in(alloc, row),
    }
}
