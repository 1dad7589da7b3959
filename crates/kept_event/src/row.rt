//! A row of the table of events, beside its position and its time.

ghost use Rattle.std.specs.Prelude.{◌≡◌, Some, IfOk};
ghost use Rattle.kept_event.specs.Row.{bare};

use crate::verb::Verb;
use bt_mapkind::MapType;
use host_state::Listing;
use host_words::{NoMemory, Word};
use std::alloc::Global;

/// What stands in the columns of a row; a column with nothing in it is NULL. Each change has its `serial`, and so has a taking
/// out. What else each verb fills:
///
/// - `create`: `map` (its id), `name`, `path`, `type`, `key_size`, `value_size`, `entries`, `flags`, `size` (how many bytes its
///   box is charged), and of an outer map `target` (its template).
/// - `load`: `target` (the program's id), `name`, `path`, `code` (its bytes, as RFC 9669 spells them), and `value` (the maps
///   that it names: six numbers for each, of four bytes with the lowest first, which are its id, the number of its type, its
///   sizes, its entries and its flags).
/// - `update`, `delete`, `push`, `pop`, `store`: `map`, `key`, `value`, `flag`, `at` (the offset of a store), and `prog` if a
///   program did it.
/// - `atomic`: `map`, `key`, `at`, `size` (4 or 8), `op` (its immediate, as RFC 9669 numbers it), `target` (the operand), `flag`
///   (what a compare-and-exchange compares with) and `prog`.
/// - `link`: `map`, `key`, `target` (the id that is put there) and `flag`; `set_link` is the same as an operation.
/// - `freeze`: `map`.
/// - `pin`: `path`, and `map` or, of a program, `target`; `unpin`: `path`.
/// - `attach`: `target` (the program), `name` (the device) and `flag` (1 to overwrite); `detach`: `name`.
/// - `mark`, `undo`, `forget`: `name`, which an undo of the last moment has not; `redo`: nothing.
/// - `without`: `target` (the serial that was taken out).
#[derive(Debug, Drop)]
pub struct Row {
    pub serial: Option<u64>,
    pub prog: Option<u64>,
    pub verb: Verb,
    pub map: Option<u64>,
    pub key: Option<Listing<u8>>,
    pub value: Option<Listing<u8>>,
    pub flag: Option<u64>,
    pub at: Option<u64>,
    pub size: Option<u64>,
    pub op: Option<u64>,
    pub target: Option<u64>,
    pub name: Option<Word>,
    pub path: Option<Word>,
    /// The column `type`.
    pub kind: Option<MapType>,
    pub key_size: Option<u64>,
    pub value_size: Option<u64>,
    pub entries: Option<u64>,
    pub flags: Option<u64>,
    pub code: Option<Listing<u8>>,
}

impl Row {
    /// A row with its verb alone.
    pub fn bare(verb: Verb) -> Row
        ensures { result ≡ bare verb }
    {
        Row {
            serial: None,
            prog: None,
            verb,
            map: None,
            key: None,
            value: None,
            flag: None,
            at: None,
            size: None,
            op: None,
            target: None,
            name: None,
            path: None,
            kind: None,
            key_size: None,
            value_size: None,
            entries: None,
            flags: None,
            code: None,
        }
    }
}

/// A row with its verb and a name.
pub(crate) fn named(verb: Verb, name: &Word) -> Result<Row, NoMemory>
    ensures { IfOk result (λ row. row ≡ record (bare verb) { name = Some name.now }) }
{
    let mut row = Row::bare(verb);
    row.name = Some(name.copy()?);
    Ok(row)
}

/// A row with its verb and a path.
pub(crate) fn pathed(verb: Verb, path: &Word) -> Result<Row, NoMemory>
    ensures { IfOk result (λ row. row ≡ record (bare verb) { path = Some path.now }) }
{
    let mut row = Row::bare(verb);
    row.path = Some(path.copy()?);
    Ok(row)
}

/// A row with its verb, a name and a path.
pub(crate) fn placed(verb: Verb, name: &Word, path: &Word) -> Result<Row, NoMemory>
    ensures { IfOk result (λ row. row ≡ record (bare verb) { name = Some name.now; path = Some path.now }) }
{
    let mut row = Row::bare(verb);
    row.name = Some(name.copy()?);
    row.path = Some(path.copy()?);
    Ok(row)
}

/// A column of bytes.
pub(crate) fn blob(alloc: Global, bytes: &[u8]) -> Result<Option<Listing<u8>>, NoMemory>
    ensures { IfOk result (λ column. column ≡ Some bytes.now) }
{
    let bytes = Vec::from_slice(alloc, bytes)?;
    Ok(Some(Listing::of(bytes)))
}

/// A row with its verb and a key.
pub(crate) fn keyed(alloc: Global, verb: Verb, key: &[u8]) -> Result<Row, NoMemory>
    ensures { IfOk result (λ row. row ≡ record (bare verb) { key = Some key.now }) }
{
    let mut row = Row::bare(verb);
    row.key = blob(alloc, key)?;
    Ok(row)
}

/// A row with its verb and a value.
pub(crate) fn valued(alloc: Global, verb: Verb, value: &[u8]) -> Result<Row, NoMemory>
    ensures { IfOk result (λ row. row ≡ record (bare verb) { value = Some value.now }) }
{
    let mut row = Row::bare(verb);
    row.value = blob(alloc, value)?;
    Ok(row)
}
