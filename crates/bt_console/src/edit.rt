//! What a command does to one map.

ghost use Rattle.std.specs.Prelude.{◌≡◌, None};
ghost use Rattle.bt_mapkind.specs.declared.request.MapOp.TheVariants.{Update, Delete as DeleteKey, Push, Pop as PopItem};
ghost use Rattle.host_state.specs.declared.change.Change.TheVariants.{Link, Freeze, Pin};
ghost use Rattle.bt_roots.specs.declared.target.Target.TheVariants.{Map};
ghost use Rattle.bt_without.specs.Recording.{MakesNone};
ghost use Rattle.journal_model.specs.Book.{recorded};
ghost use Rattle.console_map_syntax.specs.declared.command.UpdateFlag.TheVariants as flag;
ghost use Rattle.bt_console.specs.declared.edit.Edit.TheVariants as edit;
ghost use Rattle.bt_console.specs.Commands.{flag_number, pushed, operation, writing, changed, edited, DoneUnlessRefused};

use bt_mapkind::{Bytes, MapKind, MapOp};
use bt_roots::Target;
use bt_syntax::{DataBytes, UpdateFlag, Value};
use bt_without::Book;
use console_answer::ShortAnswer;
use console_reference::{FoundMap, Item, find_item};
use host_state::{Change, Origin};
use host_words::Word;
use std::alloc::Global;

/// A change of a map that is not found yet.
#[derive(Debug, Drop)]
pub enum Edit {
    /// Without a key an item is pushed.
    Write {
        key: Option<DataBytes>,
        value: Value,
        flag: UpdateFlag,
    },
    Delete {
        key: DataBytes,
    },
    Pop,
    Freeze,
    Pin {
        path: Word,
    },
}

impl Edit {
    /// What puts an item into a queue or on a stack.
    pub fn push(value: Value) -> Edit
        ensures { result ≡ edit.Write None value flag.Any }
    {
        Edit::Write {
            key: None,
            value,
            flag: UpdateFlag::Any,
        }
    }
}

/// A flag as bpf(2) numbers it.
fn flag_number(flag: UpdateFlag) -> u64
    ensures { result ≡ flag_number flag }
{
    match flag {
        UpdateFlag::Any => 0,
        UpdateFlag::NoExist => 1,
        UpdateFlag::Exist => 2,
    }
}

// Records a change that makes neither a map nor a program.
fn record<K: MapKind>(book: &mut Book<K>, change: &Change) -> ShortAnswer
    requires { MakesNone change.now }
    ensures { DoneUnlessRefused book.old.plain (changed (recorded book.old.plain change.now None)) (book.new.plain, result) }
{
    ShortAnswer::of_change(book.record_lent(change))
}

// Does an operation that the console asks for.
fn operate<K: MapKind>(book: &mut Book<K>, map: u32, op: MapOp) -> ShortAnswer
    ensures { DoneUnlessRefused book.old.plain (changed (recorded book.old.plain (operation map op) None)) (book.new.plain, result) }
{
    let change = Change::Operate {
        origin: Origin::Console,
        map,
        op,
    };
    record(book, &change)
}

// The bytes that a push without a key writes; an id is none.
fn pushed(alloc: Global, item: Item) -> Bytes
    ensures { result ≡ pushed item }
{
    match item {
        Item::Bytes(value) => value.bytes(),
        Item::Id(_) => Bytes::of(alloc, &[]).unwrap(),
    }
}

// Puts an item into a queue or on a stack.
#[inline(never)]
fn push<K: MapKind>(
    alloc: Global,
    book: &mut Book<K>,
    map: u32,
    flag: UpdateFlag,
    item: Item,
) -> ShortAnswer
    ensures { DoneUnlessRefused book.old.plain (changed (recorded book.old.plain (operation map (Push (pushed item) (flag_number flag))) None)) (book.new.plain, result) }
{
    let value = pushed(alloc, item);
    let flag = flag_number(flag);
    operate(book, map, MapOp::Push { value, flag })
}

// Puts a value under a key. The change is written where it stays.
fn update<K: MapKind>(
    book: &mut Book<K>,
    map: u32,
    key: &DataBytes,
    flag: UpdateFlag,
    value: &DataBytes,
) -> ShortAnswer
    ensures { DoneUnlessRefused book.old.plain (changed (recorded book.old.plain (operation map (Update key.now value.now (flag_number flag))) None)) (book.new.plain, result) }
{
    record(
        book,
        &Change::Operate {
            origin: Origin::Console,
            map,
            op: MapOp::Update {
                key: key.bytes(),
                value: value.bytes(),
                flag: flag_number(flag),
            },
        },
    )
}

// Puts the id of an object under a key.
#[inline(never)]
fn link<K: MapKind>(
    book: &mut Book<K>,
    map: u32,
    key: &DataBytes,
    flag: UpdateFlag,
    id: u32,
) -> ShortAnswer
    ensures { DoneUnlessRefused book.old.plain (changed (recorded book.old.plain (Link map key.now id (flag_number flag)) None)) (book.new.plain, result) }
{
    let change = Change::Link {
        map,
        key: key.bytes(),
        id,
        flag: flag_number(flag),
    };
    record(book, &change)
}

// Writes an item into the map of this id.
fn write_item<K: MapKind>(
    alloc: Global,
    book: &mut Book<K>,
    map: u32,
    key: Option<DataBytes>,
    flag: UpdateFlag,
    item: Item,
) -> ShortAnswer
    ensures { DoneUnlessRefused book.old.plain (changed (recorded book.old.plain (writing map key flag item) None)) (book.new.plain, result) }
{
    match key {
        None => push(alloc, book, map, flag, item),
        Some(key) => match item {
            Item::Bytes(value) => update(book, map, &key, flag, &value),
            Item::Id(id) => link(book, map, &key, flag, id),
        },
    }
}

// Writes into a map that was found.
fn write<K: MapKind>(
    alloc: Global,
    book: &mut Book<K>,
    map: FoundMap,
    key: Option<DataBytes>,
    value: Value,
    flag: UpdateFlag,
) -> ShortAnswer
    ensures { DoneUnlessRefused book.old.plain
        (edited book.old.plain map (edit.Write key value flag)) (book.new.plain, result) }
{
    match find_item(book, map.kind, value) {
        Ok(item) => write_item(alloc, book, map.id, key, flag, item),
        Err(fault) => ShortAnswer::refused(fault),
    }
}

// Takes a key out of a map.
#[inline(never)]
fn delete<K: MapKind>(book: &mut Book<K>, map: u32, key: &DataBytes) -> ShortAnswer
    ensures { DoneUnlessRefused book.old.plain (changed (recorded book.old.plain (operation map (DeleteKey key.now)) None)) (book.new.plain, result) }
{
    let key = key.bytes();
    operate(book, map, MapOp::Delete { key })
}

// Freezes a map.
#[inline(never)]
fn freeze<K: MapKind>(book: &mut Book<K>, map: u32) -> ShortAnswer
    ensures { DoneUnlessRefused book.old.plain (changed (recorded book.old.plain (Freeze map) None)) (book.new.plain, result) }
{
    let change = Change::Freeze { map };
    record(book, &change)
}

// Pins a map at one more path.
#[inline(never)]
fn pin<K: MapKind>(book: &mut Book<K>, map: u32, path: Word) -> ShortAnswer
    ensures { DoneUnlessRefused book.old.plain (changed (recorded book.old.plain (Pin (Map map) path) None)) (book.new.plain, result) }
{
    let change = Change::Pin {
        target: Target::Map(map),
        path,
    };
    record(book, &change)
}

// Takes the next item out of a queue or off a stack.
#[inline(never)]
fn pop<K: MapKind>(book: &mut Book<K>, map: u32) -> ShortAnswer
    ensures { DoneUnlessRefused book.old.plain (changed (recorded book.old.plain (operation map PopItem) None)) (book.new.plain, result) }
{
    operate(book, map, MapOp::Pop)
}

/// Changes a map that was found.
pub fn edit_map<K: MapKind>(
    alloc: Global,
    book: &mut Book<K>,
    map: FoundMap,
    edit: Edit,
) -> ShortAnswer
    ensures { DoneUnlessRefused book.old.plain (edited book.old.plain map edit) (book.new.plain, result) }
{
    match edit {
        Edit::Write { key, value, flag } => write(alloc, book, map, key, value, flag),
        Edit::Delete { key } => delete(book, map.id, &key),
        Edit::Pop => pop(book, map.id),
        Edit::Freeze => freeze(book, map.id),
        Edit::Pin { path } => pin(book, map.id, path),
    }
}
