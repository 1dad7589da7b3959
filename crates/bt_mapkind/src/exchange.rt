//! The exchange that takes a change of a map back.

use crate::bytes::Bytes;

/// One exchange: what a turning puts in place. After the turning it holds what stood there, so that turned again it
/// brings that back.
#[derive(PartialEq, Eq, Debug, Drop)]
pub enum Back {
    /// A key with the value that is to stand under it, or with none.
    Key {
        key: Bytes,
        value: Option<Bytes>,
    },
    /// Items to take at each end of a queue or a stack, and then items to put there. The front is the oldest.
    Ends {
        take_front: bool,
        take_rear: bool,
        put_front: Option<Bytes>,
        put_rear: Option<Bytes>,
    },
    /// A key of a map of ids with the id that is to stand under it, or with none.
    Link {
        key: Bytes,
        id: Option<u32>,
    },
}
