//! The maps that lines and scripts make.

use bt_mapkind::{MapAttr, MapType};
use bt_syntax::{Script, need_of, needs};
use std::alloc::Global;
use std::process::Abort;

fn array_of(max_entries: u32) -> MapAttr {
    MapAttr {
        kind: MapType::Array,
        key_size: 4,
        value_size: 1,
        max_entries,
        flags: 0,
    }
}

#[test]
fn a_good_create_needs_a_map(rt: HostRuntime) {
    let line = b"map create /m type array key 4 value 1 entries 3 name m";
    assert!(rt; need_of(line) == Some(array_of(3)));
    let line = b"map create /m inner_map pinned /i type array key 4 value 1 entries 3 name m";
    assert!(rt; need_of(line) == Some(array_of(3)));
    let no_name = b"map create /m type array key 4 value 1 entries 3";
    for line in [no_name.as_slice(), b"map lookup id 1", b"unpin /m"] {
        assert!(rt; need_of(line).is_none());
    }
}

// The script of this text.
fn script(rt: &impl Abort, alloc: Global, text: &str) -> Script {
    Script {
        text: Vec::from_slice(alloc, text.as_bytes()).expect(rt, "bytes"),
        files: Vec::new(alloc),
    }
}

#[test]
fn a_script_needs_what_its_good_creates_make(rt: HostRuntime) {
    let text = "# maps\r
map create /m type array key 4 value 1 entries 3 name m\r
map create /m type array key 4 value 1 entries 0 name m
map create /m type array key 4 value 1 entries 5
map lookup id 1
map create /m name m type array entries 2 key 4 value 1 # last";
    let script = script(&rt, rt.alloc(), text);
    let found = needs(rt.alloc(), &script).expect(&rt, "the needs");
    assert!(rt; found.as_slice() == [array_of(3), array_of(2)].as_slice());
}
