//! What is told beside the answers of lines.

use crate::hints::Hints;
use bt_journal::Book;
use bt_mapkind::MapKind;
use console_operand::LineWord;
use console_script::Runs;
use console_text::Output;

/// What is told beside the answers of lines on a kept book: what goes wrong in them, as [`Hints`] has it, and what follows. Only
/// looks at the book are lent for that, and the output is not: no body can change either.
pub trait Asides<K: MapKind, W: Output>: Hints<K, W> {
    /// Gives the help for which a line asks.
    fn help(&mut self, line: &[u8]);

    /// Tells what an undo to a mark would take back, or without a name an undo of the last moment.
    fn would_undo(&mut self, book: &Book<K>, mark: &Option<LineWord<'_>>);

    /// Looks at the book before a line is done, or before the lines of a text, and tells what no line of the answer says.
    fn before(&mut self, book: &Book<K>, text: &[u8]);

    /// Tells what was taken back, brought back or taken out by what [`Asides::before`] saw coming. It was accepted and is kept, and
    /// left the book so.
    fn turned(&mut self, book: &Book<K>);

    /// Tells of the open runs, after a line that was accepted and is kept.
    fn step(&mut self, runs: &Runs, line: &[u8]);
}
