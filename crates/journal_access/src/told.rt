//! What a running program is told: the answers of a book in the words of accesses.

ghost use Rattle.std.specs.Prelude.{◌≡◌};
ghost use Rattle.journal_model.specs.Serve.{start_told, pointer_errno, pointer_refusal, helper_errno, helper_refusal, reply_told, change_told, number_in, is_itself, load_found, load_read, peek_found, peek_told, fetch_told};
ghost use Rattle.journal_access.specs.Serving.{told_or};

use bt_insn::Size;
use bt_mapkind::{Bytes, Errno, MapReply};
use bt_verify::Program;
use host_state::{AskReply, Refusal, Reply, index_of, number_of};
use host_words::NoMemory;
use journal_model::StartFault;
use program_access::AccessReply;

/// The program that a frame starts.
pub fn start_told(reply: AskReply) -> Result<Option<(Program, u32)>, StartFault>
    ensures { result ≡ start_told reply }
{
    match reply {
        AskReply::Started(program) => Ok(program),
        _ => Err(StartFault::NoDevice),
    }
}

/// What was told, or this if an allocation failed.
pub fn told_or(told: Result<AccessReply, NoMemory>, want: AccessReply) -> AccessReply
    ensures { result ≡ told_or told want }
{
    match told {
        Ok(told) => told,
        Err(_) => want,
    }
}

// Errors through a pointer to a value: ENOENT says that the map or its key is gone, EINVAL that the range leaves the value.
fn pointer_errno(errno: Errno) -> AccessReply
    ensures { result ≡ pointer_errno errno }
{
    match errno {
        Errno::ENOENT => AccessReply::Gone,
        Errno::EINVAL => AccessReply::OutOfRange,
        _ => AccessReply::Refused,
    }
}

fn pointer_refusal(refusal: Refusal) -> AccessReply
    ensures { result ≡ pointer_refusal refusal }
{
    match refusal {
        Refusal::Errno(errno) => pointer_errno(errno),
        _ => AccessReply::Refused,
    }
}

// Of a helper, at a map that is live or is not.
fn helper_errno(live: bool, errno: Errno) -> AccessReply
    ensures { result ≡ helper_errno live errno }
{
    match errno {
        Errno::ENOENT => {
            if live {
                AccessReply::Errno(Errno::ENOENT)
            } else {
                AccessReply::Gone
            }
        }
        _ => AccessReply::Errno(errno),
    }
}

fn helper_refusal(live: bool, refusal: Refusal) -> AccessReply
    ensures { result ≡ helper_refusal live refusal }
{
    match refusal {
        Refusal::Errno(errno) => helper_errno(live, errno),
        _ => AccessReply::Errno(Errno::ENOMEM),
    }
}

fn reply_told(reply: Reply) -> AccessReply
    ensures { result ≡ reply_told reply }
{
    match reply {
        Reply::Value(item) => AccessReply::Value(item.to_bytes()),
        Reply::Old(number) => AccessReply::Number(number),
        Reply::Done | Reply::Id(_) | Reply::Loaded(_) => AccessReply::Done,
    }
}

/// What recording a change answered, to a program that follows a pointer to a value.
pub fn told_by_pointer(made: Result<(u64, Reply), Refusal>) -> AccessReply
    ensures { result ≡ change_told pointer_refusal made }
{
    match made {
        Ok((_, reply)) => reply_told(reply),
        Err(refusal) => pointer_refusal(refusal),
    }
}

/// What a helper returns to a program for a change; `live` tells a missing key from a missing map.
pub fn told_by_helper(live: bool, made: Result<(u64, Reply), Refusal>) -> AccessReply
    ensures { result ≡ change_told (helper_refusal live) made }
{
    match made {
        Ok((_, reply)) => reply_told(reply),
        Err(refusal) => helper_refusal(live, refusal),
    }
}

// A part of a value, as a number.
fn number_in(value: &Bytes, offset: u64, size: Size) -> AccessReply
    ensures { result ≡ number_in value.now offset size }
{
    let (count, length) = (size.bytes(), value.len());
    if offset > length as u64 {
        return AccessReply::OutOfRange;
    }
    if count > length - offset as usize {
        return AccessReply::OutOfRange;
    }
    let part = value.part(offset as usize, count);
    AccessReply::Number(number_of(part.as_slice()))
}

// Whether the key itself was found, and no shorter prefix of an LPM trie.
fn is_itself(key: &Bytes, found: &Bytes) -> bool
    ensures { result ≡ is_itself key.now found.now }
{
    index_of(found.as_slice()) == index_of(key.as_slice())
}

fn load_found(key: &Bytes, offset: u64, size: Size, reply: &MapReply) -> AccessReply
    ensures { result ≡ load_found key.now offset size reply.now }
{
    match reply {
        MapReply::Found { key: found, value } => {
            if is_itself(key, found) {
                number_in(value, offset, size)
            } else {
                AccessReply::Gone
            }
        }
        MapReply::Nothing => AccessReply::Gone,
        _ => AccessReply::OutOfRange,
    }
}

/// What a load is told of what a lookup of its key found.
pub fn load_read(key: &Bytes, offset: u64, size: Size, reply: &AskReply) -> AccessReply
    ensures { result ≡ load_read key.now offset size reply.now }
{
    match reply {
        AskReply::Answered(reply) => load_found(key, offset, size, reply),
        AskReply::Refused(errno) => pointer_errno(*errno),
        _ => AccessReply::Gone,
    }
}

fn peek_found(reply: MapReply) -> AccessReply
    ensures { result ≡ peek_found reply }
{
    match reply {
        MapReply::Value(bytes) => AccessReply::Value(bytes),
        _ => AccessReply::Errno(Errno::EINVAL),
    }
}

/// What a peek is told, at a map that is live or is not.
pub fn peek_told(live: bool, reply: AskReply) -> AccessReply
    ensures { result ≡ peek_told live reply }
{
    match reply {
        AskReply::Answered(reply) => peek_found(reply),
        AskReply::Refused(errno) => helper_errno(live, errno),
        _ => AccessReply::Gone,
    }
}

/// What a tail call's fetch is told.
pub fn fetch_told(reply: AskReply) -> AccessReply
    ensures { result ≡ fetch_told reply }
{
    match reply {
        AskReply::Fetched(program) => AccessReply::Prog(program),
        AskReply::Refused(errno) => helper_errno(false, errno),
        _ => AccessReply::Gone,
    }
}
