//! What a running program is answered, and which answer fits what it asked.

ghost use Rattle.std.specs.Prelude.{◌≡◌};
ghost use Rattle.program_access.specs.Reply as replies;

use bt_insn::Size;
use bt_mapkind::{Bytes, Errno, MapAttr};
use bt_verify::Program;

/// The answer to an access.
#[derive(Debug, Drop)]
pub enum AccessReply {
    /// The map, or the key of the value, is no longer there.
    Gone,
    /// What is read or written does not lie within the value.
    OutOfRange,
    /// Nothing was done, and the run ends.
    Refused,
    /// Nothing was done, and the helper gives this error.
    Errno(Errno),
    /// It was done.
    Done,
    /// What was read, or what stood there before.
    Number(u64),
    /// There is nothing under the key.
    Nothing,
    /// There is a value under this key: in an LPM trie the prefix that matched.
    Found(Bytes),
    /// The map with this id and these attributes stands under the key.
    Map(u32, MapAttr),
    /// The value that was taken out or looked at.
    Value(Bytes),
    /// The program at the index, if there is one.
    Prog(Option<Program>),
}

/// What an access expects as its reply, if it is no error.
#[derive(Clone, Copy, PartialEq, Eq, Debug)]
pub enum Expected {
    /// Through a pointer to a value: a number of this size.
    Number(Size),
    /// Through a pointer to a value: that it was written.
    Stored,
    /// Of a lookup: a key of so many bytes, or nothing.
    Key(u32),
    /// Of a lookup in a map of maps: a map, or nothing.
    Map,
    /// Of another helper: that it was done.
    Changed,
    /// A value of so many bytes.
    Value(u32),
    /// A program, or that there is none.
    Prog,
}

// The numbers of so many bytes end below this one, if not every number is one.
fn is_of_size(size: Size, number: u64) -> bool
    ensures { result ≡ replies.is_of_size size number }
{
    match size {
        Size::Byte => number < 0x100,
        Size::Half => number < 0x1_0000,
        Size::Word => number < 0x1_0000_0000,
        Size::DoubleWord => true,
    }
}

impl Expected {
    ghost use Rattle.std.specs.Prelude.{◌≡◌};
    ghost use Rattle.program_access.specs.Reply as replies;

    // Whether a pointer to a value was followed.
    fn is_through_pointer(self) -> bool
        ensures { result ≡ replies.is_through_pointer self }
    {
        match self {
            Expected::Number(_) | Expected::Stored => true,
            _ => false,
        }
    }

    // Whether a key was looked up.
    fn is_of_lookup(self) -> bool
        ensures { result ≡ replies.is_of_lookup self }
    {
        match self {
            Expected::Key(_) | Expected::Map => true,
            _ => false,
        }
    }

    /// Whether the reply fits. `Gone` fits every access, `OutOfRange` those through a pointer to a value, `Refused`
    /// these and a lookup, an errno the other helpers; a number is below 2 to the power of its bits, and a key and a
    /// value have the length that the map gives them.
    pub fn fits(self, reply: &AccessReply) -> bool
        ensures { result ≡ replies.fits self reply.now }
    {
        match reply {
            AccessReply::Gone => true,
            AccessReply::OutOfRange => self.is_through_pointer(),
            AccessReply::Refused => self.is_through_pointer() || self.is_of_lookup(),
            AccessReply::Errno(_) => !self.is_through_pointer() && !self.is_of_lookup(),
            AccessReply::Done => self == Expected::Stored || self == Expected::Changed,
            AccessReply::Nothing => self.is_of_lookup(),
            AccessReply::Map(_, _) => self == Expected::Map,
            AccessReply::Prog(_) => self == Expected::Prog,
            AccessReply::Number(number) => match self {
                Expected::Number(size) => is_of_size(size, *number),
                _ => false,
            },
            AccessReply::Found(key) => match self {
                Expected::Key(size) => key.len() == size as usize,
                _ => false,
            },
            AccessReply::Value(value) => match self {
                Expected::Value(size) => value.len() == size as usize,
                _ => false,
            },
        }
    }
}
