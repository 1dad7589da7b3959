//! What a command asks of one map.

ghost use Rattle.std.specs.Prelude.{◌≡◌};
ghost use Rattle.std.specs.Option.{option_map};
ghost use Rattle.console_hint.specs.Operations.{given_by, asking, operation_of};

use bt_mapkind::Bytes;
use console_map_syntax::MapCommand;
use console_operand::{DataBytes, Reference, Value};

/// What a command does with a key, an item or a value of a map.
#[derive(Clone, Copy)]
pub enum Verb {
    Update,
    LookUp,
    Next,
    Delete,
    Peek,
    Push,
    Pop,
}

/// A value that a command gives.
#[derive(Clone, Copy)]
pub enum Given {
    /// So many bytes.
    Bytes(usize),
    /// The id of an object.
    Id,
}

/// What a command asks of one map, with the key and the value that it gives.
#[derive(Drop)]
pub struct Operation {
    pub verb: Verb,
    pub key: Option<Bytes>,
    pub value: Option<Given>,
}

fn given_by(value: &Value) -> Given
    ensures { result ≡ given_by value.now }
{
    match value {
        Value::Data(data) => Given::Bytes(data.bytes().len()),
        Value::Object(_) => Given::Id,
    }
}

fn bytes_of(key: &Option<DataBytes>) -> Option<Bytes>
    ensures { result ≡ key.now }
{
    match key {
        Some(key) => Some(key.bytes()),
        None => None,
    }
}

fn asking(verb: Verb, key: Option<Bytes>, value: Option<Given>) -> Operation
    ensures { result ≡ asking verb key value }
{
    Operation { verb, key, value }
}

/// The map that a command asks something of by key or item, and what; `None` for a command on no map or on a whole one.
pub fn operation_of(command: &MapCommand) -> Option<(&Reference, Operation)>
    ensures { option_map (λ it. (it.0.now, it.1)) result ≡ operation_of command.now }
{
    match command {
        MapCommand::Update {
            map,
            key,
            value,
            ..
        } => Some((
            map,
            asking(Verb::Update, bytes_of(key), Some(given_by(value))),
        )),
        MapCommand::Lookup { map, key } => Some((map, asking(Verb::LookUp, bytes_of(key), None))),
        MapCommand::GetNext { map, key } => Some((map, asking(Verb::Next, bytes_of(key), None))),
        MapCommand::Delete { map, key } => {
            Some((map, asking(Verb::Delete, Some(key.bytes()), None)))
        }
        MapCommand::Peek { map } => Some((map, asking(Verb::Peek, None, None))),
        MapCommand::Push { map, value } => {
            Some((map, asking(Verb::Push, None, Some(given_by(value)))))
        }
        MapCommand::Pop { map } => Some((map, asking(Verb::Pop, None, None))),
        MapCommand::Show { .. }
        | MapCommand::Create { .. }
        | MapCommand::Dump { .. }
        | MapCommand::Freeze { .. }
        | MapCommand::Pin { .. } => None,
    }
}
