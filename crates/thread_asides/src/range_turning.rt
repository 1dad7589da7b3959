//! What is told of a range of changes that was taken out of a host in a file.

use crate::turning::{NO_MEMORY_OUT, tell_text, text_of};
use bt_journal::Book;
use bt_mapkind::MapKind;
use console_looks::{MOST_TOLD, MomentRow, Turned, taken_out};
use host_words::NoMemory;
use kept_lines::{SerialRange, chosen, range_of};
use std::alloc::Global;

/// What a line would take out that spells a range, looked at before it is done.
#[derive(Drop)]
pub(crate) enum RangeTurning {
    /// No change, or the line spells no range.
    Nothing,
    /// These changes, the last one first.
    Out(Turned),
    /// Memory is lacking to say.
    Unknown,
}

// The changes in force in a range, the last one first: how many, and the first 16 of them. Takes memory.
fn changes_in<K: MapKind>(
    alloc: Global,
    book: &Book<K>,
    range: SerialRange,
) -> Result<Turned, NoMemory> {
    let serials = chosen(alloc, book, range)?;
    let serials = serials.as_slice();
    let (front, _) = serials.split_at(serials.len().min(MOST_TOLD));
    let mut rows = Vec::new(alloc);
    for serial in front {
        if let Some(row) = taken_out(book, *serial)? {
            rows.push(MomentRow::Change(row))?;
        }
    }
    Ok(Turned {
        count: serials.len() as u64,
        rows,
    })
}

impl RangeTurning {
    /// What a line would take out of a book as it is now, if it spells a range.
    pub fn before<K: MapKind>(alloc: Global, book: &Book<K>, line: &[u8]) -> RangeTurning {
        match range_of(line) {
            Some(range) => match changes_in(alloc, book, range) {
                Ok(it) => RangeTurning::Out(it),
                Err(_) => RangeTurning::Unknown,
            },
            None => RangeTurning::Nothing,
        }
    }

    /// Tells on standard error what was taken out, once that is kept: after a name, such as `lab.db`, `took out 2 moments: 3 console
    /// update map 1, ..`, with at most 16 of them and how many more.
    pub fn tell<R: Eprint + AllocGlobal>(self, rt: &R, name: &str) {
        let text = match self {
            RangeTurning::Nothing => return,
            RangeTurning::Out(it) => text_of(rt.alloc(), b"took out", &it),
            RangeTurning::Unknown => None,
        };
        tell_text(rt, name, "", text, NO_MEMORY_OUT);
    }
}
