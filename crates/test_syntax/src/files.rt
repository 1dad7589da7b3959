//! The files that lines name, and the maps that the lines of batches make.

use bt_mapkind::{MapAttr, MapType};
use bt_syntax::{FileText, Script, files_in, needs};
use host_words::Word;
use std::alloc::Global;
use std::process::Abort;

fn bytes(rt: &impl Abort, alloc: Global, text: &[u8]) -> Vec<u8> {
    Vec::from_slice(alloc, text).expect(rt, "bytes")
}

fn file(rt: &impl Abort, alloc: Global, path: &[u8], text: &[u8]) -> FileText {
    FileText {
        path: Word::new(alloc, path).expect(rt, "a path"),
        bytes: bytes(rt, alloc, text),
    }
}

#[test]
fn files_are_told_in_the_order_of_their_lines(rt: HostRuntime) {
    let text = b"prog load /o /p # a program
batch file /b
prog load hex:95 /q
batch /c
map show
batch file /b\r";
    let found = files_in(rt.alloc(), text).expect(&rt, "the files");
    assert_eq!(rt; found.len(), 3);
    for (path, wanted) in found.iter().zip([b"/o".as_slice(), b"/b", b"/b\r"]) {
        assert!(rt; path.as_slice() == wanted);
    }
}

// A script of three batches, of which one has its file at hand, twice.
fn batches(rt: &impl Abort, alloc: Global) -> Script {
    let line = b"map create /m type stack value 1 entries 3 name m\nbatch file /b\n";
    let mut files = Vec::new(alloc);
    assert!(rt; files.push(file(rt, alloc, b"/b", line)).is_ok());
    assert!(rt; files.push(file(rt, alloc, b"/b", b"map create /n")).is_ok());
    let text = bytes(rt, alloc, b"batch file /b\nbatch file /c\nbatch file /b");
    Script { text, files }
}

/// A batch within a batch makes no map, and neither does one whose file is not at hand; the first file of a path counts.
#[test]
fn a_script_needs_what_its_batches_make(rt: HostRuntime) {
    let script = batches(&rt, rt.alloc());
    let found = needs(rt.alloc(), &script).expect(&rt, "the needs");
    let stack = MapAttr {
        kind: MapType::Stack,
        key_size: 0,
        value_size: 1,
        max_entries: 3,
        flags: 0,
    };
    assert!(rt; found.as_slice() == [stack, stack].as_slice());
}
