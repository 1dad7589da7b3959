//! What a journal lists.

ghost use Rattle.std.specs.Prelude.{◌≡◌};
ghost use Rattle.journal_model.specs.Listed.{origin_of, operation_deed};

use bt_mapkind::MapOp;
use host_state::{Change, Listing, Origin};
use host_words::Word;

/// What a change did, with the id of the map or of the program, the path or the device.
#[derive(PartialEq, Eq, Debug, Drop)]
pub enum Deed {
    /// A map was made.
    Create(u32),
    Update(u32),
    Delete(u32),
    Push(u32),
    Pop(u32),
    Store(u32),
    Atomic(u32),
    Freeze(u32),
    /// An id was put into a map of ids.
    Link(u32),
    /// A program was loaded.
    Load(u32),
    Pin(Word),
    Unpin(Word),
    Attach(Word),
    Detach(Word),
}

impl Deed {
    /// What an operation does to the map of this id.
    pub fn of_operation(op: &MapOp, map: u32) -> Deed
        ensures { result ≡ operation_deed op.now map }
    {
        match op {
            MapOp::Update { .. } => Deed::Update(map),
            MapOp::Delete { .. } => Deed::Delete(map),
            MapOp::Push { .. } => Deed::Push(map),
            MapOp::Pop => Deed::Pop(map),
            MapOp::Store { .. } => Deed::Store(map),
            MapOp::Atomic { .. } => Deed::Atomic(map),
            MapOp::SetLink { .. } => Deed::Link(map),
        }
    }
}

/// Who makes a change: only an operation on a map can be a program's.
pub fn origin_of(change: &Change) -> Origin
    ensures { result ≡ origin_of change.now }
{
    match change {
        Change::Operate { origin, .. } => *origin,
        Change::Create { .. }
        | Change::Freeze { .. }
        | Change::Link { .. }
        | Change::Load { .. }
        | Change::Pin { .. }
        | Change::Unpin { .. }
        | Change::Attach { .. }
        | Change::Detach { .. } => Origin::Console,
    }
}

/// A change in force.
#[derive(PartialEq, Eq, Debug, Drop)]
pub struct ChangeRow {
    pub serial: u64,
    /// Who made it.
    pub origin: Origin,
    pub deed: Deed,
}

/// A mark.
#[derive(PartialEq, Eq, Debug, Drop)]
pub struct MarkRow {
    pub name: Word,
    /// How many moments were in force when it was made.
    pub moments: u64,
}

/// The changes in force, the oldest first, and the marks in order of making.
#[derive(PartialEq, Eq, Debug, Drop)]
pub struct JournalList {
    pub changes: Listing<ChangeRow>,
    pub marks: Listing<MarkRow>,
}
