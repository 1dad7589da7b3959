//! Commands compared, and faults as text.

use bt_syntax::{Command, JournalCommand, SyntaxFault, first_line, parse_line};

/// What one line keeps is its own, and two commands are the same if their words say the same.
#[test]
fn commands_are_compared(rt: HostRuntime) {
    let alloc = rt.alloc();
    for (line, other, is_same) in [
        (
            b"map pin pinned /m /n".as_slice(),
            b"map\tpin pinned  /m /n#".as_slice(),
            true,
        ),
        (b"map pin pinned /m /n", b"map pin pinned /m /o", false),
        (b"map push id 1 value 1", b"map push id 1 value id 1", false),
        (b"map show", b"map list", true),
        (b"#", b" \t", true),
    ] {
        assert!(rt; (parse_line(alloc, line) == parse_line(alloc, other)) == is_same);
    }
    let undo = Command::Journal(JournalCommand::Undo(None));
    assert!(rt; parse_line(alloc, b"journal undo") == Ok(Some(undo)));
    assert!(rt; parse_line(alloc, b"#") == Ok(None));
}

#[test]
fn a_text_is_cut_behind_its_first_line_feed(rt: HostRuntime) {
    assert!(rt; first_line(b"a\r\nb") == (b"a".as_slice(), b"b".as_slice()));
    assert!(rt; first_line(b"a\r") == (b"a\r".as_slice(), b"".as_slice()));
}

#[test]
fn faults_are_told(rt: HostRuntime) {
    let told = format!(in rt.alloc(); "{}, {}", SyntaxFault::At(12), SyntaxFault::TooLong).expect(
        &rt, "a text",
    );
    assert_eq!(rt; told.as_str(), "syntax at word 12, line too long");
}
