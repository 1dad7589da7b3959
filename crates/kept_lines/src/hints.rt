//! Who is told what goes wrong in lines.

ghost use Rattle.std.specs.Prelude.{◌≡◌};
ghost use Rattle.std.specs.Io.KnownBytes.{Keeps};

use bt_journal::Book;
use bt_mapkind::MapKind;
use bt_syntax::FileText;
use console_answer::Mishap;
use console_script::{Summary, Tally};
use console_text::Output;

/// A line in which something went wrong, or in the batch that it runs.
#[derive(Clone, Copy)]
pub struct Wrong<'a> {
    /// The number of the line in its script, from 1.
    pub number: u64,
    pub line: &'a [u8],
    /// How many lines it had accepted: of a batch those before the one that was refused.
    pub accepted: u64,
    /// What went wrong last.
    pub mishap: Mishap,
}

/// Who is told what goes wrong in lines.
pub trait Hints<K: MapKind, W: Output> {
    /// Tells of a line in which something went wrong. It was done, what it did is on the disk, and what it answered was written.
    /// The book stays as it is, and nothing is written to the output.
    fn tell(&mut self, book: &mut Book<K>, files: &[FileText], wrong: Wrong<'_>, out: &mut W)
        ensures same { book.new.plain ≡ book.old.plain }
        ensures kept { Keeps (W.contents out.old) (W.contents out.new) };
}

/// What there is to tell of a line that came to this. `before` is what the lines before it came to.
pub fn wrong_in(number: u64, line: &[u8], before: Summary, tally: Tally) -> Option<Wrong<'_>> {
    match tally.mishap {
        Some(mishap) => Some(Wrong {
            number,
            line,
            accepted: tally.summary.accepted.saturating_sub(before.accepted),
            mishap,
        }),
        None => None,
    }
}
