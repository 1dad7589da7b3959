//! The columns of a row as values that a statement takes.

ghost use Rattle.std.specs.Prelude.{◌≡◌, ◌^◌, ◌<◌, ◌∷◌, Some};
ghost use Rattle.sqlite_value.specs.Value.{owned};
ghost use Rattle.sqlite_value.specs.declared.value.Value.TheVariants.{Text as Words};
ghost use Rattle.sqlite.specs.Values.{bound, bound_value};
ghost use Rattle.kept_event.specs.Words.{verb_word};
ghost use Rattle.kept_ledger.specs.Columns.{number, text, blob, kind_text, columns_of, IsNumber, Fits};

use bt_mapkind::MapType;
use host_state::Listing;
use host_words::Word;
use kept_event::{Row, Verb, type_word};
use sqlite::types::ValueRef;

/// A number, or NULL.
pub(crate) fn number(column: Option<u64>) -> ValueRef<'static>
    ensures value { bound_value (owned result) ≡ number column }
    ensures fits { IsNumber column }
{
    match column {
        Some(n) => ValueRef::Int(n.cast_signed()),
        None => ValueRef::Null,
    }
}

fn text(column: &Option<Word>) -> ValueRef<'_>
    ensures { bound_value (owned result) ≡ text column.now }
{
    match column {
        Some(word) => ValueRef::Text(word.as_slice()),
        None => ValueRef::Null,
    }
}

fn blob(column: &Option<Listing<u8>>) -> ValueRef<'_>
    ensures { bound_value (owned result) ≡ blob column.now }
{
    match column {
        Some(bytes) => ValueRef::Blob(bytes.as_slice()),
        None => ValueRef::Null,
    }
}

fn verb_text(verb: Verb) -> ValueRef<'static>
    ensures { bound_value (owned result) ≡ Words (verb_word verb) }
{
    ValueRef::Text(verb.word())
}

fn kind_text(kind: Option<MapType>) -> ValueRef<'static>
    ensures { bound_value (owned result) ≡ kind_text kind }
{
    match kind {
        Some(kind) => ValueRef::Text(type_word(kind)),
        None => ValueRef::Null,
    }
}

/// The time and the columns of a row, in the order of the table.
pub(crate) fn params(time: u64, row: &Row) -> [ValueRef<'_>; 20]
    ensures values { bound result ≡ number (Some time) ∷ columns_of row.now }
    ensures fits { Fits row.now }
    ensures timed { time < 2 ^ 64 }
{
    let time = number(Some(time));
    let serial = number(row.serial);
    let prog = number(row.prog);
    let verb = verb_text(row.verb);
    let map = number(row.map);
    let key = blob(&row.key);
    let value = blob(&row.value);
    let flag = number(row.flag);
    let at = number(row.at);
    let size = number(row.size);
    let op = number(row.op);
    let target = number(row.target);
    let name = text(&row.name);
    let path = text(&row.path);
    let kind = kind_text(row.kind);
    let key_size = number(row.key_size);
    let value_size = number(row.value_size);
    let entries = number(row.entries);
    let flags = number(row.flags);
    let code = blob(&row.code);
    [
        time, serial, prog, verb, map, key, value, flag, at, size, op, target, name, path, kind,
        key_size, value_size, entries, flags, code,
    ]
}
