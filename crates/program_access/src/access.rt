//! What a running program asks of a map.

ghost use Rattle.std.specs.Prelude.{◌≡◌};
ghost use Rattle.program_access.specs.Access as asked;

use crate::reply::Expected;
use bt_insn::Size;
use bt_mapkind::{AtomicOp, AtomicSize, Bytes};

/// One use of a map by a running program. A load, a store and an atomic operation go through a pointer to the value
/// under `key`, from `offset` on; the others are calls of helper functions (bpf-helpers(7)). A flag is 0 for any, 1 for
/// noexist, 2 for exist.
#[derive(PartialEq, Eq, Debug, Drop)]
pub enum Access {
    /// Reads `size` bytes as a number, the lowest byte first.
    Load {
        map: u32,
        key: Bytes,
        offset: u64,
        size: Size,
    },
    /// Writes these bytes.
    Store {
        map: u32,
        key: Bytes,
        offset: u64,
        bytes: Bytes,
    },
    /// Reads and writes 4 or 8 bytes at once.
    Atomic {
        map: u32,
        key: Bytes,
        offset: u64,
        size: AtomicSize,
        op: AtomicOp,
        operand: u64,
    },
    /// map_lookup_elem. `outer` says whether the map holds maps.
    Lookup {
        map: u32,
        key: Bytes,
        outer: bool,
    },
    /// map_update_elem.
    Update {
        map: u32,
        key: Bytes,
        value: Bytes,
        flag: u64,
    },
    /// map_delete_elem.
    Delete {
        map: u32,
        key: Bytes,
    },
    /// map_push_elem.
    Push {
        map: u32,
        value: Bytes,
        flag: u64,
    },
    /// map_pop_elem, of a value of `value_size` bytes.
    Pop {
        map: u32,
        value_size: u32,
    },
    /// map_peek_elem, of a value of `value_size` bytes.
    Peek {
        map: u32,
        value_size: u32,
    },
    /// The program at an index of a program array, for tail_call.
    Fetch {
        map: u32,
        index: u32,
    },
}

fn size_of_atomic(size: AtomicSize) -> Size
    ensures { result ≡ asked.size_of_atomic size }
{
    match size {
        AtomicSize::Word => Size::Word,
        AtomicSize::DoubleWord => Size::DoubleWord,
    }
}

impl Access {
    ghost use Rattle.std.specs.Prelude.{◌≡◌};
    ghost use Rattle.program_access.specs.Access as asked;

    /// What its reply has to be.
    pub fn expected(&self) -> Expected
        ensures { result ≡ asked.expected self.now }
    {
        match self {
            Access::Load { size, .. } => Expected::Number(*size),
            Access::Store { .. } => Expected::Stored,
            Access::Atomic { size, op, .. } => {
                if op.fetches() {
                    Expected::Number(size_of_atomic(*size))
                } else {
                    Expected::Stored
                }
            }
            Access::Lookup { key, outer, .. } => {
                if *outer {
                    Expected::Map
                } else {
                    Expected::Key(key.as_slice().len() as u32)
                }
            }
            Access::Update { .. } | Access::Delete { .. } | Access::Push { .. } => {
                Expected::Changed
            }
            Access::Pop { value_size, .. } | Access::Peek { value_size, .. } => {
                Expected::Value(*value_size)
            }
            Access::Fetch { .. } => Expected::Prog,
        }
    }
}
