//! Boxes that lack or are of another make, suppliers that are out of memory, what a supplier is asked for, and how many lines
//! are counted as accepted and refused.

use super::{Making, book, script};
use bt_array::ArrayKind;
use bt_console::Supply;
use bt_mapkind::{MapAttr, MapType};
use console_script::{Summary, run_script};
use std::alloc::Global;
use std::process::Abort;

/// Two maps are made, and the first is written.
const CREATES: &[u8] = b"# two maps
map create /m type array key 4 value 1 entries 1 name m

map create /n type array key 4 value 1 entries 2 name n
map update id 1 key 0 0 0 0 value 7
maps";

const BOTH: &str = "ok 1 id 1\nok 2 id 2\nok 3\nError: syntax at word 1\n";

const THE_FIRST: &str = "ok 1 id 1\nError: wrong blank\nok 2\nError: syntax at word 1\n";

const NONE: &str =
    "Error: wrong blank\nError: wrong blank\nError: ENOENT (-2)\nError: syntax at word 1\n";

fn array_of(max_entries: u32) -> MapAttr {
    MapAttr {
        kind: MapType::Array,
        key_size: 4,
        value_size: 1,
        max_entries,
        flags: 0,
    }
}

/// Runs a text on a new book with what this supplier gives: the transcript is this one, and so many lines are accepted and
/// refused.
fn comes_to<S: Supply<ArrayKind>>(
    rt: &impl Abort,
    alloc: Global,
    supply: &mut S,
    text: &[u8],
    transcript: &str,
    lines: (u64, u64),
) {
    let script = script(alloc, text).expect(rt, "a script");
    let mut book = book(alloc).expect(rt, "a book");
    let mut out = Vec::new(alloc);
    let ran = run_script(alloc, &mut book, &script, supply, &mut out);
    assert_eq!(rt; out.as_slice(), transcript.as_bytes());
    let (accepted, refused) = lines;
    assert_eq!(rt; ran, Ok(Summary { accepted, refused }));
}

// Arrays of so many entries.
fn stock_of(rt: &impl Abort, alloc: Global, entries: &[u32]) -> Vec<ArrayKind> {
    let mut stock = Vec::new(alloc);
    for max_entries in entries {
        let array = ArrayKind::new(alloc, array_of(*max_entries)).expect(rt, "an array");
        assert!(rt; stock.push(array).is_ok());
    }
    stock
}

/// Each row has the entries of the boxes that are at hand, the transcript, and how many lines are accepted and refused.
#[test]
fn a_line_takes_the_next_box(rt: HostRuntime) {
    for (boxes, transcript, lines) in [
        ([1u32, 2, 1].as_slice(), BOTH, (3u64, 1u64)),
        (&[1, 1], THE_FIRST, (2, 2)),
        (&[1], THE_FIRST, (2, 2)),
        (&[], NONE, (0, 4)),
    ] {
        let mut stock = stock_of(&rt, rt.alloc(), boxes);
        comes_to(&rt, rt.alloc(), &mut stock, CREATES, transcript, lines);
    }
}

/// Two maps whose path or name is no good, one that is over the budget, and one of attributes that are not good.
const REFUSED: &[u8] = b"map create m type array key 4 value 1 entries 1 name m
map create /m type array key 4 value 1 entries 1 name /
map create /m type array key 4 value 256 entries 65536 name m
map create /m type array key 4 value 257 entries 1 name m
";

const ITS_REFUSALS: &str = "Error: EINVAL (-22)
Error: EINVAL (-22)
Error: budget full
Error: EINVAL (-22)
";

/// A supplier is asked once for each create of good attributes, whether or not the book takes the map.
#[test]
fn a_refused_create_asks_as_well(rt: HostRuntime) {
    let mut supply = Making::new(rt.alloc(), 3);
    comes_to(&rt, rt.alloc(), &mut supply, REFUSED, ITS_REFUSALS, (0, 4));
    assert!(rt; supply.asked == 3);
}

const NO_MEMORY_FOR_ANY: &str =
    "Error: no memory\nError: no memory\nError: ENOENT (-2)\nError: syntax at word 1\n";

const NO_MEMORY_FOR_THE_SECOND: &str =
    "ok 1 id 1\nError: no memory\nok 2\nError: syntax at word 1\n";

/// A supplier without memory refuses its line alone, and is asked again at the next.
#[test]
fn a_supplier_without_memory_refuses_its_line(rt: HostRuntime) {
    for (left, transcript, lines) in [
        (0u32, NO_MEMORY_FOR_ANY, (0u64, 4u64)),
        (1, NO_MEMORY_FOR_THE_SECOND, (2, 2)),
        (2, BOTH, (3, 1)),
    ] {
        let mut supply = Making::new(rt.alloc(), left);
        comes_to(&rt, rt.alloc(), &mut supply, CREATES, transcript, lines);
        assert_eq!(rt; supply.asked, 2);
    }
}
