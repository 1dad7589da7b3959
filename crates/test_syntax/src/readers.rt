//! Readers of too much, and readers that fail.

use console_input::{Cause, MOST_SCRIPT, ReadFault, read_all};
use std::io;
use std::io::Read;

/// Gives `left` bytes, each read interrupted once before it; then ends, or fails.
#[derive(Drop)]
struct Interrupting {
    left: usize,
    interrupted: bool,
    fails: bool,
}

impl Read for Interrupting {
    fn read(&mut self, buf: &mut [u8]) -> io::Result<usize> {
        self.interrupted = !self.interrupted;
        if self.interrupted {
            return Err(io::Error::from(io::ErrorKind::Interrupted));
        }
        if self.left == 0 && self.fails {
            return Err(io::Error::from(io::ErrorKind::IsADirectory));
        }
        let count = buf.len().min(self.left);
        buf[..count].fill(b'#');
        self.left -= count;
        Ok(count)
    }
}

fn reader_of(left: usize, fails: bool) -> Interrupting {
    Interrupting {
        left,
        interrupted: false,
        fails,
    }
}

// Whether more came than a script may have.
fn is_too_long(read: &Result<Vec<u8>, ReadFault>) -> bool {
    matches!(read, Err(ReadFault::Unread(Cause::TooLong(16_777_216))))
}

#[test]
fn a_script_has_at_most_16_777_216_bytes(rt: HostRuntime) {
    let longest = read_all(rt.alloc(), reader_of(16_777_216, false), MOST_SCRIPT);
    assert!(rt; matches!(&longest, Ok(bytes) if bytes.len() == 16_777_216));
    let longer = read_all(rt.alloc(), reader_of(16_777_217, false), MOST_SCRIPT);
    assert!(rt; is_too_long(&longer));
    let endless = read_all(rt.alloc(), reader_of(usize::MAX, false), MOST_SCRIPT);
    assert!(rt; is_too_long(&endless));
}

#[test]
fn a_read_that_fails_is_told(rt: HostRuntime) {
    let found = read_all(rt.alloc(), reader_of(10, true), MOST_SCRIPT);
    assert!(rt; matches!(&found, Err(ReadFault::Unread(Cause::Failed(_)))));
}

#[test]
fn texts_of_causes(rt: HostRuntime) {
    let told = format!(in rt.alloc(); "{}", Cause::TooLong(8)).expect(&rt, "a text");
    assert_eq!(rt; told.as_str(), "it has more than 8 bytes");
}
