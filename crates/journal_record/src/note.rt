//! Notes of changes: the same in as few bytes as it takes, on the heap.

ghost use Rattle.std.specs.Prelude.{◌≡◌, IfOk};
ghost use Rattle.journal_model.specs.Listed.{origin_of, deed_of};
ghost use Rattle.journal_record.specs.Footprint.{IsFootprint};
ghost use Rattle.journal_record.specs.Note.{change_of};

use crate::deed::{deed_in, origin_in};
use crate::footprint::Footprint;
use crate::op_note::OpNote;
use bt_mapkind::{Bytes, MapAttr};
use bt_roots::Target;
use host_state::{Change, Code, Origin};
use host_undoing::Part;
use host_words::{NoMemory, Word};
use journal_model::Deed;
use std::alloc::Global;
use std::marker::Model;

/// The parts of a change.
#[derive(Debug, Drop)]
pub enum ChangeForm {
    Create {
        id: u32,
        attr: MapAttr,
        charge: u64,
        name: Word,
        path: Word,
        template: Option<u32>,
    },
    Operate {
        origin: Origin,
        map: u32,
        op: OpNote,
    },
    Freeze {
        map: u32,
    },
    Link {
        map: u32,
        key: Vec<u8>,
        id: u32,
        flag: u64,
    },
    Load {
        id: u32,
        code: Code,
        name: Word,
        path: Word,
    },
    Pin {
        target: Target,
        path: Word,
    },
    Unpin {
        path: Word,
    },
    Attach {
        prog: u32,
        device: Word,
        overwrite: bool,
    },
    Detach {
        device: Word,
    },
}

/// A change, kept. Contracts see the change.
#[derive(Drop)]
pub struct ChangeNote {
    form: ChangeForm,
}

impl Model for ChangeNote {
    ghost use Rattle.host_state.specs.declared.change.Change.{Change};

    ghost Value = { Change };

    ghost use Rattle.journal_record.specs.Note.{change_of, IsShort};

    ghost view = { λ n. change_of n.form };

    ghost invariant = { λ n. IsShort n.form };
}

impl ChangeNote {
    /// A note of this change. Takes memory.
    pub fn of(alloc: Global, change: &Change) -> Result<ChangeNote, NoMemory>
        ensures { IfOk result (λ note. note ≡ change.now) }
    {
        let form = match change {
            Change::Create {
                id,
                attr,
                charge,
                name,
                path,
                template,
            } => ChangeForm::Create {
                id: *id,
                attr: *attr,
                charge: *charge,
                name: name.copy()?,
                path: path.copy()?,
                template: *template,
            },
            Change::Operate { origin, map, op } => ChangeForm::Operate {
                origin: *origin,
                map: *map,
                op: OpNote::of(alloc, op)?,
            },
            Change::Freeze { map } => ChangeForm::Freeze { map: *map },
            Change::Link { map, key, id, flag } => ChangeForm::Link {
                map: *map,
                key: Vec::from_slice(alloc, key.as_slice())?,
                id: *id,
                flag: *flag,
            },
            Change::Load {
                id,
                code,
                name,
                path,
            } => ChangeForm::Load {
                id: *id,
                code: code.share()?,
                name: name.copy()?,
                path: path.copy()?,
            },
            Change::Pin { target, path } => ChangeForm::Pin {
                target: *target,
                path: path.copy()?,
            },
            Change::Unpin { path } => ChangeForm::Unpin { path: path.copy()? },
            Change::Attach {
                prog,
                device,
                overwrite,
            } => ChangeForm::Attach {
                prog: *prog,
                device: device.copy()?,
                overwrite: *overwrite,
            },
            Change::Detach { device } => ChangeForm::Detach {
                device: device.copy()?,
            },
        };
        Ok(ChangeNote { form })
    }

    /// The change. Takes memory.
    pub fn change(&self, alloc: Global) -> Result<Change, NoMemory>
        ensures { IfOk result (λ change. change ≡ self.now) }
    {
        let change = match &self.form {
            ChangeForm::Create {
                id,
                attr,
                charge,
                name,
                path,
                template,
            } => Change::Create {
                id: *id,
                attr: *attr,
                charge: *charge,
                name: name.copy()?,
                path: path.copy()?,
                template: *template,
            },
            ChangeForm::Operate { origin, map, op } => Change::Operate {
                origin: *origin,
                map: *map,
                op: op.op(alloc),
            },
            ChangeForm::Freeze { map } => Change::Freeze { map: *map },
            ChangeForm::Link { map, key, id, flag } => Change::Link {
                map: *map,
                key: Bytes::short(alloc, key),
                id: *id,
                flag: *flag,
            },
            ChangeForm::Load {
                id,
                code,
                name,
                path,
            } => Change::Load {
                id: *id,
                code: code.share()?,
                name: name.copy()?,
                path: path.copy()?,
            },
            ChangeForm::Pin { target, path } => Change::Pin {
                target: *target,
                path: path.copy()?,
            },
            ChangeForm::Unpin { path } => Change::Unpin { path: path.copy()? },
            ChangeForm::Attach {
                prog,
                device,
                overwrite,
            } => Change::Attach {
                prog: *prog,
                device: device.copy()?,
                overwrite: *overwrite,
            },
            ChangeForm::Detach { device } => Change::Detach {
                device: device.copy()?,
            },
        };
        Ok(change)
    }

    /// Who made the change.
    pub fn origin(&self) -> Origin
        ensures { result ≡ origin_of self.now }
    {
        origin_in(&self.form)
    }

    /// What the change writes and looks at, if it is turned by an exchange of this part.
    pub fn footprint<'a>(&self, part: &'a Part) -> Footprint<'a>
        ensures { IsFootprint result self.now part.now }
    {
        Footprint::of(&self.form, part)
    }

    /// What the change did. Takes memory.
    pub fn deed(&self) -> Result<Deed, NoMemory>
        ensures { IfOk result (λ deed. deed ≡ deed_of self.now) }
    {
        deed_in(&self.form)
    }
}
