//! Words, and the edges of the two rules.
use host_words::{Word, is_name, is_path};

#[test]
fn a_word_keeps_its_bytes(rt: HostRuntime) {
    let word = Word::new(rt.alloc(), b"a\xffb").expect(&rt, "a word");
    let copy = word.copy().expect(&rt, "a copy");
    assert!(rt; copy == word && copy.as_slice() == b"a\xffb".as_slice());
    let longer = Word::new(rt.alloc(), b"a\xffb0").expect(&rt, "a word");
    assert!(rt; copy < longer);
}

/// Whether these bytes are a name, and whether they are a path.
const SPELLINGS: [(&[u8], bool, bool); 15] = [
    (b"a", true, false),
    (b"eth0", true, false),
    (b"A-Z_a.z09", true, false),
    (b"123456789012345", true, false),
    (b"1234567890123456", false, false),
    (b"", false, false),
    (b"a b", false, false),
    (b"a/b", false, false),
    (b"a\0", false, false),
    (b"\xe9", false, false),
    (b"/a", false, true),
    (b"/", false, false),
    (b"//", false, true),
    (b"/sys/fs/bpf/m-1_0.x", false, true),
    (b"/a b", false, false),
];

#[test]
fn names_and_paths(rt: HostRuntime) {
    for (bytes, name, path) in SPELLINGS {
        assert!(rt;
            is_name(bytes) == name && is_path(bytes) == path,
            "{bytes:?}"
        );
    }
    let long = [b'/'; 256];
    assert!(rt; is_path(&long[..255]) && !is_path(&long) && !is_path(b"/a\n"));
}
