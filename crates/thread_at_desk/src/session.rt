//! What a console keeps beside the book.

use console_script::Runs;

/// What a console at a desk keeps from line to line: its open runs, and where the boxes for its maps come from.
#[derive(Drop)]
pub struct Session<S> {
    pub runs: Runs,
    pub supply: S,
}
