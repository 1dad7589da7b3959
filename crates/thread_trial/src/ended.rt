//! How a try ended that nobody confirmed.

use host_words::Word;
use std::fmt;

/// How a try ended that nobody confirmed.
#[derive(Clone, Copy, PartialEq, Eq, Debug)]
pub enum TrialEnd {
    /// So many moments were undone.
    Undone(u64),
    /// So many moments were undone before its time, since they came to half of what the journal keeps.
    Crowded(u64),
    /// Its mark was gone: nothing was undone.
    Gone,
    /// There was no call left to undo it by.
    Spent,
}

/// What is told of a try that nobody confirmed.
#[derive(Drop)]
pub struct Ended {
    /// The name of its mark.
    pub name: Word,
    pub end: TrialEnd,
}

fn put_end<W: fmt::Write>(f: &mut fmt::Formatter<W>, end: TrialEnd) -> fmt::Result {
    match end {
        TrialEnd::Undone(count) => write!(f, "undone {count}"),
        TrialEnd::Crowded(count) => {
            write!(
                f,
                "undone {count}, since half of the journal came after its mark"
            )
        }
        TrialEnd::Gone => write!(f, "its mark is gone"),
        TrialEnd::Spent => write!(f, "no calls left to undo it"),
    }
}

impl fmt::Display for Ended {
    fn fmt<W: fmt::Write>(&self, f: &mut fmt::Formatter<W>) -> fmt::Result {
        write!(f, "bpfcon: try ")?;
        for byte in self.name.as_slice() {
            let letter = char::from(*byte);
            write!(f, "{letter}")?;
        }
        write!(f, ": ")?;
        put_end(f, self.end)
    }
}
