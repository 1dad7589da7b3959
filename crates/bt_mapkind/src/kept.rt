//! An exchange of what a map holds, in one block that was reserved for it: inline if it is short.

ghost use Rattle.std.specs.Prelude.{◌≡◌, ◌+◌, ◌≤◌, ◌++◌, [], None, Some, length, IfOk, IfSome};
ghost use Rattle.bt_mapkind.specs.Bounds.{IsBoundedBack, IsId};
ghost use Rattle.bt_mapkind.specs.Bytes.{AreBytes};
ghost use Rattle.bt_mapkind.specs.Kept.{Kept, is_keyed, is_new, is_same_key, IsByteKey, bytes_in, bytes_of, some_bytes, if_there, back_by, IsDivided};
ghost use Rattle.bt_mapkind.specs.Reply.{taken_in};

use crate::bytes::Bytes;
use crate::exchange::Back;
use smallvec::SmallVec;
use std::alloc::{AllocError, Global};
use std::marker::Model;

/// What the bytes of a block stand for. Those of a key, or of the item for the front, come first.
#[derive(Clone, Copy, Debug)]
pub enum Form {
    /// So many bytes of a key, and after them a value if one is there.
    Keyed {
        key: u16,
        there: bool,
    },
    /// So many bytes for the front, and after them those for the rear.
    AtEnds {
        take_front: bool,
        take_rear: bool,
        front: u16,
        has_front: bool,
        has_rear: bool,
    },
    /// A key alone.
    Linked {
        id: Option<u32>,
    },
}

/// An exchange of what a map holds. Contracts see it, and how many bytes are reserved for it.
#[derive(Debug)]
pub struct KeptBack {
    bytes: Block,
    form: Form,
    room: u32,
}

// Written by hand, so that it is proved here alone, and not once more in each program that drops one.
impl Drop for KeptBack {
    fn drop(self) {
        let KeptBack {
            bytes: _,
            form: _,
            room: _,
        } = self;
    }
}

// A block of up to 16 bytes takes no memory.
type Block = SmallVec<u8, 16>;

impl Model for KeptBack {
    ghost use Rattle.std.specs.Prelude.{◌≤◌};
    ghost use Rattle.bt_mapkind.specs.Kept.{Kept, back_by, IsDivided};

    ghost Value = { Kept };

    ghost view = { λ k. record { back = back_by k.bytes.items k.form; room = k.room } };

    ghost invariant = { λ k. IsDivided k.bytes.items k.form × (k.room ≤ k.bytes.capacity) };
}

impl KeptBack {
    /// An exchange that changes nothing under an empty key, with room for so many bytes. Takes memory for more than 16, and
    /// refuses room for more than `u32::MAX` as memory is refused.
    pub fn with_room(alloc: Global, room: usize) -> Result<KeptBack, AllocError>
        ensures { IfOk result (λ k. k ≡ record { back = Back.Link [] None; room = room }) }
    {
        let Ok(stated) = u32::try_from(room) else {
            return Err(AllocError);
        };
        let bytes = SmallVec::with_capacity(alloc, room)?;
        Ok(KeptBack {
            bytes,
            form: Form::Linked { id: None },
            room: stated,
        })
    }

    /// Holds this exchange from now on. It takes no memory.
    pub fn fill(&mut self, back: &Back)
        requires { bytes_in back.now ≤ self.old.room }
        ensures { self.new ≡ record { back = back.now; room = self.old.room } }
    {
        self.bytes.clear();
        self.form = match back {
            Back::Key {
                key,
                value: Some(value),
            } => keyed(&mut self.bytes, key.as_slice(), value.as_slice(), true),
            Back::Key { key, value: None } => keyed(&mut self.bytes, key.as_slice(), &[], false),
            Back::Ends {
                take_front,
                take_rear,
                put_front,
                put_rear,
            } => at_ends(
                &mut self.bytes,
                *take_front,
                *take_rear,
                put_front,
                put_rear,
            ),
            Back::Link { key, id } => {
                append(&mut self.bytes, key.as_slice());
                Form::Linked { id: *id }
            }
        };
    }

    /// Holds a key with the value that is to stand under it from now on. It takes no memory.
    pub fn fill_keyed(&mut self, key: &[u8], value: &[u8])
        requires room { length key.now + length value.now ≤ self.old.room }
        requires key { length key.now ≤ 260 }
        requires value { length value.now ≤ 260 }
        ensures { self.new ≡ record { back = Back.Key key.now (Some value.now); room = self.old.room } }
    {
        self.bytes.clear();
        self.form = keyed(&mut self.bytes, key, value, true);
    }

    /// The bytes of the value or the item that is to be put in place, the one for the front before the one for the rear; no
    /// byte if there is none.
    pub fn taken(&self) -> &[u8]
        ensures value { result.now ≡ taken_in self.now.back }
        ensures at_most { length result.now ≤ 260 }
    {
        match self.form {
            Form::Keyed { key, there: true } => &self.bytes.as_slice()[key as usize..],
            Form::AtEnds {
                front,
                has_front: true,
                ..
            } => &self.bytes.as_slice()[..front as usize],
            Form::AtEnds {
                front,
                has_front: false,
                has_rear: true,
                ..
            } => &self.bytes.as_slice()[front as usize..],
            Form::Keyed { .. } | Form::AtEnds { .. } | Form::Linked { .. } => &[],
        }
    }

    /// Whether it is of one key of a map of bytes.
    pub fn is_keyed(&self) -> bool
        ensures { result ≡ is_keyed self.now.back }
    {
        match self.form {
            Form::Keyed { .. } => true,
            Form::AtEnds { .. } | Form::Linked { .. } => false,
        }
    }

    /// Whether it is to take a key away: what it takes back put a new one.
    pub fn is_new(&self) -> bool
        ensures { result ≡ is_new self.now.back }
    {
        match self.form {
            Form::Keyed { key: _, there } => !there,
            Form::Linked { id } => id.is_none(),
            Form::AtEnds { .. } => false,
        }
    }

    /// Whether both are of this same key of a map of bytes.
    pub fn is_at_key_of(&self, other: &KeptBack) -> bool
        ensures { result ≡ is_same_key self.now.back other.now.back }
    {
        match (self.form, other.form) {
            (
                Form::Keyed { key, there: _ },
                Form::Keyed {
                    key: length,
                    there: _,
                },
            ) => {
                self.bytes.as_slice()[..key as usize] == other.bytes.as_slice()[..length as usize]
            }
            _ => false,
        }
    }

    /// Its key is of bytes. It does nothing.
    pub fn key_is_bytes(&self)
        ensures { IsByteKey self.now.back }
    {
        match self.form {
            Form::Keyed { key, there: _ } => are_bytes(&self.bytes.as_slice()[..key as usize]),
            Form::AtEnds { .. } | Form::Linked { .. } => {}
        }
    }

    /// The exchange.
    pub fn back(&self) -> Back
        ensures back { result ≡ self.now.back }
        ensures bounded { IsBoundedBack result }
    {
        let alloc = *self.bytes.allocator();
        match self.form {
            Form::Keyed { key, there } => {
                let (key, value) = self.bytes.as_slice().split_at(key as usize);
                Back::Key {
                    key: Bytes::short(alloc, key),
                    value: inline_if(alloc, there, value),
                }
            }
            Form::AtEnds {
                take_front,
                take_rear,
                front,
                has_front,
                has_rear,
            } => {
                let (front, rear) = self.bytes.as_slice().split_at(front as usize);
                Back::Ends {
                    take_front,
                    take_rear,
                    put_front: inline_if(alloc, has_front, front),
                    put_rear: inline_if(alloc, has_rear, rear),
                }
            }
            Form::Linked { id } => {
                has_32_bits(id);
                Back::Link {
                    key: Bytes::short(alloc, self.bytes.as_slice()),
                    id,
                }
            }
        }
    }
}

// These are bytes. It does nothing.
fn are_bytes(bytes: &[u8])
    ensures { AreBytes bytes.now }
{
    let _ = bytes;
}

// An id, if there is one, has 32 bits. It does nothing.
fn has_32_bits(id: Option<u32>)
    ensures { IfSome id IsId }
{
    match id {
        Some(_id) => {}
        None => {}
    }
}

// Writes a key and its value, or no byte if none is there, into an empty block.
fn keyed(bytes: &mut Block, key: &[u8], value: &[u8], there: bool) -> Form
    requires empty { bytes.old.items ≡ [] }
    requires room { length key.now + length value.now ≤ bytes.old.capacity }
    requires key { length key.now ≤ 260 }
    requires value { length value.now ≤ 260 }
    ensures back { back_by bytes.new.items result ≡ Back.Key key.now (if_there there value.now) }
    ensures divides { IsDivided bytes.new.items result }
    ensures capacity { bytes.old.capacity ≤ bytes.new.capacity }
{
    append(bytes, key);
    append(bytes, value);
    Form::Keyed {
        key: key.len() as u16,
        there,
    }
}

// Writes what is to be put at each end into an empty block.
fn at_ends(
    bytes: &mut Block,
    take_front: bool,
    take_rear: bool,
    put_front: &Option<Bytes>,
    put_rear: &Option<Bytes>,
) -> Form
    requires empty { bytes.old.items ≡ [] }
    requires room { bytes_of put_front.now + bytes_of put_rear.now ≤ bytes.old.capacity }
    ensures back { back_by bytes.new.items result ≡ Back.Ends take_front take_rear put_front.now put_rear.now }
    ensures divides { IsDivided bytes.new.items result }
    ensures capacity { bytes.old.capacity ≤ bytes.new.capacity }
{
    append_some(bytes, put_front);
    let front = bytes.len() as u16;
    append_some(bytes, put_rear);
    Form::AtEnds {
        take_front,
        take_rear,
        front,
        has_front: put_front.is_some(),
        has_rear: put_rear.is_some(),
    }
}

// Puts bytes after those that stand, for which there is room.
fn append(bytes: &mut Block, more: &[u8])
    requires { length bytes.old.items + length more.now ≤ bytes.old.capacity }
    ensures items { bytes.new.items ≡ bytes.old.items ++ more.now }
    ensures capacity { bytes.old.capacity ≤ bytes.new.capacity }
{
    match bytes.extend_from_slice(more) {
        Ok(()) => {}
        Err(_) => unreachable!(),
    }
}

// Puts bytes after those of a block, if there are any to put.
fn append_some(bytes: &mut Block, more: &Option<Bytes>)
    requires { length bytes.old.items + bytes_of more.now ≤ bytes.old.capacity }
    ensures items { bytes.new.items ≡ bytes.old.items ++ some_bytes more.now }
    ensures short { length (some_bytes more.now) ≤ 260 }
    ensures capacity { bytes.old.capacity ≤ bytes.new.capacity }
{
    match more {
        Some(more) => append(bytes, more.as_slice()),
        None => {}
    }
}

fn inline_if(alloc: Global, there: bool, bytes: &[u8]) -> Option<Bytes>
    requires { length bytes.now ≤ 260 }
    ensures { result ≡ if_there there bytes.now }
{
    if there {
        Some(Bytes::short(alloc, bytes))
    } else {
        None
    }
}
