//! What stood at a place, as it is written.

ghost use Rattle.std.specs.Prelude.{◌≡◌, ◌++◌, take};
ghost use Rattle.console_text.specs.Text.{piece_text};
ghost use Rattle.console_looks.specs.LookText.{is_same_entry, target_text, found_text, reply_text, devices_text, stood_text};

use bt_mapkind::MapReply;
use bt_roots::Target;
use console_text::Piece;
use host_state::{AskReply, DeviceRow};

// The first four bytes: of an LPM trie's key its prefix length.
fn front(key: &[u8]) -> &[u8]
    ensures { result.now ≡ take 4 key.now }
{
    let (front, _) = key.split_at(key.len().min(4));
    front
}

// Whether an entry that was found is that of this key, and not one of another prefix.
fn is_same_entry(key: &[u8], found: &[u8]) -> bool
    ensures { result ≡ is_same_entry key.now found.now }
{
    front(key) == front(found)
}

// An object.
fn of_target<'a>(target: Target) -> (Piece<'a>, Piece<'a>)
    ensures { piece_text result.0 ++ piece_text result.1 ≡ target_text target }
{
    match target {
        Target::Map(id) => (Piece::Plain(b"map "), Piece::Number(u64::from(id))),
        Target::Prog(id) => (Piece::Plain(b"prog "), Piece::Number(u64::from(id))),
    }
}

// An entry under a key.
fn of_found<'a>(key: &[u8], found: &[u8], value: &'a [u8]) -> (Piece<'a>, Piece<'a>)
    ensures { piece_text result.0 ++ piece_text result.1 ≡ found_text key.now found.now value.now }
{
    if is_same_entry(key, found) {
        (Piece::Plain(b""), Piece::Bytes(value))
    } else {
        (Piece::Plain(b"none"), Piece::Plain(b""))
    }
}

// What a map answered.
fn of_reply<'a>(key: &[u8], reply: &'a MapReply) -> (Piece<'a>, Piece<'a>)
    ensures { piece_text result.0 ++ piece_text result.1 ≡ reply_text key.now reply.now }
{
    match reply {
        MapReply::Found { key: found, value } => of_found(key, found.as_slice(), value.as_slice()),
        MapReply::Value(value) => (Piece::Plain(b""), Piece::Bytes(value.as_slice())),
        MapReply::Link(id) => (Piece::Plain(b"id "), Piece::Number(u64::from(*id))),
        MapReply::Done | MapReply::Nothing | MapReply::Key(_) | MapReply::Count(_) => {
            (Piece::Plain(b"none"), Piece::Plain(b""))
        }
    }
}

// The program of a device.
fn of_devices<'a>(rows: &[DeviceRow]) -> (Piece<'a>, Piece<'a>)
    ensures { piece_text result.0 ++ piece_text result.1 ≡ devices_text rows.now }
{
    match rows.first() {
        Some(row) => (Piece::Plain(b"prog "), Piece::Number(u64::from(row.prog))),
        None => (Piece::Plain(b"none"), Piece::Plain(b"")),
    }
}

/// What stood at a place, by the answer to what was asked there, if there is a key with this one.
pub fn stood_of<'a>(key: &[u8], answer: &'a AskReply) -> (Piece<'a>, Piece<'a>)
    ensures { piece_text result.0 ++ piece_text result.1 ≡ stood_text key.now answer.now }
{
    match answer {
        AskReply::Answered(reply) => of_reply(key, reply),
        AskReply::Pinned(target) => of_target(*target),
        AskReply::Devices(rows) => of_devices(rows.as_slice()),
        AskReply::Attr(_)
        | AskReply::Maps(_)
        | AskReply::Dump(_)
        | AskReply::Progs(_)
        | AskReply::Code(_)
        | AskReply::Started(_)
        | AskReply::Fetched(_)
        | AskReply::Refused(_) => (Piece::Plain(b"none"), Piece::Plain(b"")),
    }
}
