//! What a host run prints, and what it answers.

use bt_journal::Book;
use bt_syntax::Script;
use console_script::{HostKind, HostSupply, Summary};
use host_words::Word;
use journal_model::Limits;
use std::alloc::Global;
use std::process::Abort;
use std::sync::Wait;
use std::thread::Threads;
use thread_host_run::run_host;

const LIMITS: Limits = Limits {
    journal: 65_536,
    budget: 67_108_864,
    last_id: u32::MAX,
    last_serial: u64::MAX,
};

// An array of one counter, and a program at eth0 that adds 1 to it.
const COUNTING: &[u8] = b"map create /m type array key 4 value 8 entries 1 name c
prog load hex:620afcff00000000bfa200000000000007020000fcffffff1811000001000000000000000000000085000000010000001500020000000000b701000001000000db10000000000000b7000000020000009500000000000000 /p
net attach xdp id 1 dev eth0
";

const FRAMES: &[u8] = b"eth0 hex:00\neth1 hex:00\neth9 hex:00\n";

const PRINTED: &[u8] = b"ok 1 id 1
ok 2 id 1
ok 3
frame 1 XDP_PASS 2
frame 2 XDP_PASS 2 no program
frame 3 Error: ENOENT (-2)
moments 4
";

fn word(rt: &impl Abort, alloc: Global, bytes: &[u8]) -> Word {
    Word::new(alloc, bytes).expect(rt, "a word")
}

// A new book with the devices `eth0` and `eth1`.
fn new_book(rt: &impl Abort, alloc: Global) -> Book<HostKind> {
    let mut devices = Vec::new(alloc);
    assert!(rt; devices.push(word(rt, alloc, b"eth0")).is_ok());
    assert!(rt; devices.push(word(rt, alloc, b"eth1")).is_ok());
    Book::new(alloc, devices, LIMITS).expect(rt, "a book")
}

// A script and then three frames are run on a new host, and the whole text is compared.
fn is_printed<R: Threads + Wait + Abort + Sync>(rt: &R, alloc: Global) {
    let script = Script {
        text: Vec::from_slice(alloc, COUNTING).expect(rt, "a script"),
        files: Vec::new(alloc),
    };
    let mut supply = HostSupply::new(alloc);
    let mut out = Vec::new(alloc);
    let told = run_host(
        rt,
        alloc,
        new_book(rt, alloc),
        &script,
        &mut supply,
        FRAMES,
        &mut out,
    );
    let wanted = Summary {
        accepted: 3,
        refused: 0,
    };
    assert!(rt; told == Ok(wanted));
    assert!(rt; out.as_slice() == PRINTED);
}

#[test]
fn a_program_counts_a_frame_and_two_have_none(rt: HostRuntime) {
    for _ in 0..100u32 {
        is_printed(&rt, rt.alloc());
    }
}
